//! The start of a kernel: its roots with their images, and their terminals.
ghost use Rattle.std.specs.Prelude.{◌≡◌, ◌<◌, ◌^◌, ◌*◌, ◌+◌, [], IfOk, true, length, count_by, ◌==◌};
ghost use Rattle.sys_text.specs.Valid.{is_system};
ghost use Rattle.sys_text.specs.Boot.{pid_of as pid_in, roots_of};
ghost use Rattle.plain_kernel.specs.Maps.{booted_processes, booted_ttys, linked_processes, total_load, AreFresh};
ghost use Rattle.plain_kernel.specs.Maps.{processes_of as states_of};
ghost use Rattle.plain_kernel.specs.Starts.{starts_in, starts_load};

use crate::linking::link_roots;
use crate::start::Start;
use proc_state::process::Process;
use std::alloc::Global;
use std::collections::BTreeMap;
use sys_text::system::{Root, System};
use t32_base::lists::Bytes;
use t32_base::process::Pid;
use t32_base::streams::NoMemory;

/// The roots of a system at their start by pid, linked by its channels, without their memories.
pub fn starts_of<'a>(
    alloc: Global,
    system: &'a System,
) -> Result<BTreeMap<u32, Start<'a>>, NoMemory>
    requires { is_system system.now ≡ true }
    ensures states { IfOk result (λ starts. starts_in starts.entries ≡ linked_processes system.now) }
    ensures room { IfOk result (λ starts. starts_load starts.entries < 2 ^ 28) }
{
    let mut starts = roots_by_pid(alloc, system)?;
    let chans = system.chans.as_slice();
    for chan in chans {
        link_roots(&mut starts, system, *chan);
    }
    Ok(starts)
}

// The roots of a system at their start by pid, with no end linked.
fn roots_by_pid<'a>(alloc: Global, system: &'a System) -> Result<BTreeMap<u32, Start<'a>>, NoMemory>
    requires { is_system system.now ≡ true }
    ensures states { IfOk result (λ starts. starts_in starts.entries ≡ booted_processes system.now (roots_of system.now)) }
    ensures room { IfOk result (λ starts. starts_load starts.entries < 2 ^ 28) }
{
    let mut starts = BTreeMap::new(alloc);
    let roots = system.roots.as_slice();
    for (number, root) in roots.iter().enumerate() {
        let pid = pid_after(&roots[..number], *root);
        starts.insert(pid.0, Start::of_root(system, pid, *root))?;
    }
    Ok(starts)
}

/// The roots of a system by pid, each at its start, with its memory, linked by its channels.
pub fn processes_of(alloc: Global, system: &System) -> Result<BTreeMap<u32, Process>, NoMemory>
    requires { is_system system.now ≡ true }
    ensures states { IfOk result (λ processes. states_of processes.entries ≡ linked_processes system.now) }
    ensures fresh { IfOk result (λ processes. AreFresh processes.entries) }
    ensures room { IfOk result (λ processes. total_load processes.entries < 2 ^ 28) }
{
    let starts = starts_of(alloc, system)?;
    with_memories(alloc, starts)
}

// The processes of roots at their start, each with its memory.
fn with_memories(
    alloc: Global,
    starts: BTreeMap<u32, Start>,
) -> Result<BTreeMap<u32, Process>, NoMemory>
    ensures states { IfOk result (λ processes. states_of processes.entries ≡ starts_in starts.entry.entries) }
    ensures fresh { IfOk result (λ processes. AreFresh processes.entries) }
    ensures load { IfOk result (λ processes. total_load processes.entries ≡ starts_load starts.entry.entries) }
{
    let mut processes = BTreeMap::new(alloc);
    for (pid, start) in starts {
        let process = start.process(alloc)?;
        processes.insert(pid, process)?;
    }
    Ok(processes)
}

/// The terminals that the roots of a system name, to which nothing was sent.
pub fn ttys_of(alloc: Global, roots: &[Root]) -> Result<BTreeMap<u8, Bytes>, NoMemory>
    ensures { IfOk result (λ ttys. ttys.entries ≡ booted_ttys roots.now) }
{
    let mut ttys = BTreeMap::new(alloc);
    for root in roots {
        ttys.insert(root.tty, Bytes::new(alloc))?;
    }
    Ok(ttys)
}

/// The pid of a root after earlier ones: the serial is one more than those with its home. Takes no memory.
pub fn pid_after(earlier: &[Root], root: Root) -> Pid
    requires few { length earlier.now < 32 }
    requires home { root.home.0 < 16 }
    ensures { result ≡ pid_in root.home.0 (1 + count_by (λ q. q.home.0 == root.home.0) earlier.now) }
{
    let home = root.home.0;
    let before = earlier.iter().filter(|other| other.home.0 == home).count();
    Pid(u32::from(home) + 16 * (1 + before as u32))
}
