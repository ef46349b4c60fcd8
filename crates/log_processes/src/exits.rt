//! Lines of exits.
ghost use Rattle.std.specs.Prelude.{◌≡◌, ◌-◌, IfOk};
ghost use Rattle.std.specs.Option.{IfSome};
ghost use Rattle.proc_state.specs.State.{state_of};
ghost use Rattle.log_processes.specs.Exits.{AnswersExit, Exits, exit_may};
ghost use Rattle.log_processes.specs.Sending.{Leads};

use crate::sender::{Head, Limits, Sender, home_may, is_within, steps_upto};
use crate::telling::is_end_told;
use bus_msg::entry::{By, Entry, Post, What};
use counted_steps::counted::send_by;
use entry_lines::ToldEnd;
use log_audit::front::Front;
use proc_state::process::Process;
use std::alloc::Global;
use sys_calls::steps::Emission;
use t32_base::process::End;
use t32_base::streams::NoMemory;

/// The entry of a line by which a process ends, where the front, and what is kept of the process, are those of the log before
/// it. None where no such entry may follow: the process has then made some steps, as it may have after want of memory.
/// Otherwise it has ended.
pub fn next_exit(
    alloc: Global,
    front: &Front,
    limits: Limits,
    head: Head,
    told: ToldEnd,
    kept: Sender,
    process: &mut Process,
) -> Result<Option<Entry>, NoMemory>
    ensures decides { IfOk result (AnswersExit front.now limits head kept (state_of process.old) told) }
    ensures leads { IfOk result (λ answer. IfSome answer (λ e. Leads front.now limits head.pid kept (state_of process.old) e (state_of process.new))) }
{
    let Some(home) = home_may(front, head, kept) else {
        return Ok(None);
    };
    let steps = steps_upto(process, head.at);
    let Some(end) = exit_by(alloc, steps, process)? else {
        return Ok(None);
    };
    if !exit_may(limits, kept, process, told, end) {
        return Ok(None);
    }
    let (pid, at) = (head.pid, head.at);
    let what = What::Exit { pid, at, end };
    let by = By::Cluster(home);
    Ok(Some(front.entry_at(head.place, Post { by, what })))
}

// How the process ends by the last of so many steps, if it does.
fn exit_by(alloc: Global, steps: u64, process: &mut Process) -> Result<Option<End>, NoMemory>
    ensures { IfOk result (λ end. Exits steps (state_of process.old) end (state_of process.new)) }
{
    match send_by(alloc, process, steps)? {
        Some(Emission::Exit(end)) => Ok(Some(end)),
        Some(Emission::Mail(_)) | None => Ok(None),
    }
}

// Whether the process may end so.
fn exit_may(limits: Limits, kept: Sender, process: &Process, told: ToldEnd, end: End) -> bool
    ensures { result ≡ exit_may limits kept (state_of process.now) told end }
{
    !kept.parent && is_end_told(told, end) && is_within(limits, kept, process)
}
