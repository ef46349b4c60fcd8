//! The line of the end of a run.
ghost use Rattle.std.specs.Prelude.{◌≡◌, IfOk, map};
ghost use Rattle.std.specs.List.Sorted.{IsStrictlySortedBy};
ghost use Rattle.std.specs.Ordering.{nat_cmp};
ghost use Rattle.proc_state.specs.State.{state_of};
ghost use Rattle.log_ends.specs.Ends.{AnswersDone, Rests, RestsOr};

use bus_msg::entry::{By, Entry, Post, What};
use counted_steps::resting::settle;
use entry_lines::ToldBy;
use log_audit::front::Front;
use log_audit::losses::stop_may;
use proc_state::process::Process;
use std::alloc::Global;
use std::collections::BTreeMap;
use t32_base::lists::List;
use t32_base::process::Pid;
use t32_base::streams::NoMemory;

/// The entry of the line of the end of a run, with the count of steps at which each process rests, where the front and the
/// processes that have not ended, by their pids, are those of the log before it. None where no such entry may follow: another
/// place or sender, or a process never comes to rest. It takes the processes out one by one, as far as they rest.
pub fn next_done(
    alloc: Global,
    front: &Front,
    place: u64,
    by: ToldBy,
    processes: &mut BTreeMap<u32, Process>,
) -> Result<Option<Entry>, NoMemory>
    ensures { IfOk result (AnswersDone front.now place by processes.old.entries) }
{
    if !stop_may(front, place, by) {
        return Ok(None);
    }
    match rests_of(alloc, processes)? {
        Some(rests) => {
            let what = What::Done { rests };
            Ok(Some(front.entry_at(place, Post { by: By::Bus, what })))
        }
        None => Ok(None),
    }
}

// Each process with the count of steps at which it rests, by rising pid; or one of them never does.
fn rests_of(
    alloc: Global,
    processes: &mut BTreeMap<u32, Process>,
) -> Result<Option<List<(Pid, u64)>>, NoMemory>
    ensures rests { IfOk result (Rests processes.old.entries) }
    ensures ordered { IfOk result (λ _. IsStrictlySortedBy nat_cmp (map (λ e. e.0) processes.old.entries)) }
{
    let mut rests = List::new(alloc);
    'processes: while let Some((pid, process)) = processes.pop_first() {
        match rest_of(alloc, process)? {
            Some(steps) => rests.push((Pid(pid), steps))?,
            None => return Ok(None),
        }
    }
    Ok(Some(rests))
}

// The count of steps at which a process rests; or it never does.
fn rest_of(alloc: Global, process: Process) -> Result<Option<u64>, NoMemory>
    ensures { IfOk result (RestsOr (state_of process)) }
{
    let mut process = process;
    if settle(alloc, &mut process)? {
        Ok(Some(process.small.steps))
    } else {
        Ok(None)
    }
}
