//! A process that reads a letter by its sixth step and another by its eighth, and waits for a third after its tenth.
ghost use Rattle.std.specs.Prelude.{◌≡◌, ◌<◌, ◌+◌, OnOk};

use proc_state::process::Process;
use std::alloc::Global;
use t32_base::letter::{Body, Letter, To};
use t32_base::process::Pid;
use t32_base::shared_bytes::SharedBytes;
use t32_base::streams::NoMemory;

// lui a1, 16 / addi a1, a1, 512 / li a7, 3 / li a2, 2 / li a0, 2 / ecall / li a0, 1 / ecall / sw a0, -256(a1) / li a0, 1 /
// ecall
static READER: [u8; 44] = [
    183, 5, 1, 0, 147, 133, 5, 32, 147, 8, 48, 0, 19, 6, 32, 0, 19, 5, 32, 0, 115, 0, 0, 0, 19, 5,
    16, 0, 115, 0, 0, 0, 35, 160, 165, 240, 19, 5, 16, 0, 115, 0, 0, 0,
];

// Bytes arrive for an end of process 16.
fn arrive(alloc: Global, p: &mut Process, end: u8, bytes: &[u8]) -> Result<(), NoMemory>
    requires { p.old.mail.next < 100 }
    ensures { OnOk result (p.new.mail.next ≡ p.old.mail.next + 1) }
{
    p.deliver(Letter {
        from: Pid(17),
        out: 1,
        to: To::Proc(Pid(16), end),
        body: Body::Said(SharedBytes::copy_of(alloc, bytes)?),
    })
}

/// Ends 1 and 2 are linked, and a letter has come for each.
pub fn begun(alloc: Global) -> Result<Process, NoMemory> {
    let mut p = Process::root(alloc, Pid(16), 0x10000, 3, &READER, 1000, 0, 0)?;
    arrive(alloc, &mut p, 1, b"a\n")?;
    arrive(alloc, &mut p, 2, b"b\n")?;
    p.link(Pid(17), 1);
    p.link(Pid(17), 2);
    Ok(p)
}
