//! Where a process started, and how it goes on from there by an entry.
ghost use Rattle.std.specs.Prelude.{◌≡◌, ◌-◌, ◌<◌, ◌^◌, ◌+◌, true, false, length, IfOk, OnOk};
ghost use Rattle.proc_state.specs.State.{state_of};
ghost use Rattle.sys_calls.proofs.RunLemma.{all_delivered};
ghost use Rattle.bus_msg.specs.PlacedAfter.{what};
ghost use Rattle.cert_sched.specs.Deeds.{is_cut, letter_for};
ghost use Rattle.audited_process.specs.Begun.{GoesOn, StandsAt};
ghost use Rattle.audited_process.specs.Concerns.{changes};

use crate::concerns::is_cut;
use bus_msg::entry::Entry;
use log_cuts::start::{Start, start_at};
use log_processes::arrivals;
use log_processes::sender::{Sender, letters_waiting, steps_made};
use proc_state::process::Process;
use std::alloc::Global;
use t32_base::process::Pid;
use t32_base::streams::NoMemory;

/// What is kept of where a process started: its steps there, how many letters it had not read there and came since, whether its
/// record has a state, and the numbers of its letters.
#[derive(Drop)]
pub struct Begun {
    pub steps: u64,
    pub saved: u64,
    pub start: Start,
}

/// That of a process that starts where it stands: at boot, at its birth, or at a cut.
pub fn begun_at(alloc: Global, process: &Process, stated: bool) -> Result<Begun, NoMemory>
    ensures { IfOk result (StandsAt (state_of process.now) stated) }
{
    Ok(Begun {
        steps: steps_made(process),
        saved: letters_waiting(process),
        start: start_at(alloc, process, stated)?,
    })
}

/// The process goes on by an entry that ends neither it nor the run. It starts again where it stands, if the entry cuts it; else
/// the letter of the entry arrives, if it goes to the process. After want of memory nothing is said.
pub fn go_on(
    alloc: Global,
    pid: Pid,
    entry: &Entry,
    begun: &mut Begun,
    process: &mut Process,
) -> Result<(), NoMemory>
    requires letters { process.old.mail.next < 2 ^ 64 - 1 }
    requires saved { begun.old.saved < 2 ^ 64 - 1 }
    ensures goes_on { OnOk result (GoesOn entry.now pid (state_of process.old) begun.old (state_of process.new) begun.new) }
    ensures stays { changes pid (what entry.now) ≡ false → OnOk result (state_of process.new ≡ state_of process.old) }
{
    if is_cut(pid, &entry.post.what) {
        *begun = begun_at(alloc, process, true)?;
        Ok(())
    } else {
        arrive(pid, entry, begun, process)
    }
}

// The letter of an entry that does not cut the process arrives, if it goes to the process.
fn arrive(pid: Pid, entry: &Entry, begun: &mut Begun, process: &mut Process) -> Result<(), NoMemory>
    requires letters { process.old.mail.next < 2 ^ 64 - 1 }
    requires saved { begun.old.saved < 2 ^ 64 - 1 }
    ensures state { OnOk result (state_of process.new ≡ all_delivered (state_of process.old) (letter_for pid (what entry.now))) }
    ensures count { OnOk result (begun.new ≡ record begun.old { saved = begun.old.saved + length (letter_for pid (what entry.now)) }) }
{
    let mut kept = Sender {
        start: begun.steps,
        saved: begun.saved,
        whole: true,
        parent: false,
    };
    arrivals::take(pid, entry, &mut kept, process)?;
    begun.saved = kept.saved;
    Ok(())
}
