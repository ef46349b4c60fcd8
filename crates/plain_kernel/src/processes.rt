//! The processes of a kernel by pid.
ghost use Rattle.std.specs.Prelude.{◌≡◌, ◌≤◌, ◌||◌, IsSome, IfOk, map, Ok, Some};
ghost use Rattle.std.specs.BTreeMap.{get, keys};
ghost use Rattle.std.specs.List.{list_any};
ghost use Rattle.std.specs.Ordering.{nat_cmp};
ghost use Rattle.proc_state.specs.State.{can_take as can_take_in, state_of};
ghost use Rattle.sys_calls.specs.Next.{has_step, next_step};
ghost use Rattle.plain_kernel.specs.Maps.{pid_of, Covers, RunsAt, RunsIfThere, StepsAt};

use crate::candidates::Candidates;
use proc_state::process::Process;
use std::alloc::Global;
use std::collections::BTreeMap;
use sys_calls::signals::can_take;
use sys_calls::stepping::{can_step, run_instructions, run_on, step};
use sys_calls::steps::Step;
use t32_base::lists::List;
use t32_base::process::Pid;
use t32_base::streams::NoMemory;

/// Whether a process has a step or can take a signal. Takes no memory.
pub fn some_can_act(processes: &BTreeMap<u32, Process>) -> bool
    ensures { result ≡ list_any (λ e. has_step (next_step (state_of e.1)) || can_take_in (state_of e.1)) processes.now.entries }
{
    for (_, process) in processes {
        if can_step(process) || can_take(process) {
            return true;
        }
    }
    false
}

/// Makes instructions of the process with a pid, at most so many.
pub fn run_at(processes: &mut BTreeMap<u32, Process>, pid: u32, most: u32) -> u32
    requires { IsSome (get nat_cmp processes.old pid) }
    ensures made { result ≤ most }
    ensures runs { RunsAt processes.old.entries processes.new.entries pid result }
{
    match processes.get_mut(&pid) {
        Some(process) => run_instructions(process, most),
        None => unreachable!(),
    }
}

/// The next step of the process with a pid.
pub fn step_at(
    alloc: Global,
    processes: &mut BTreeMap<u32, Process>,
    pid: u32,
) -> Result<Step, NoMemory>
    requires { IsSome (get nat_cmp processes.old pid) }
    ensures { StepsAt processes.old.entries processes.new.entries pid result }
{
    match processes.get_mut(&pid) {
        Some(process) => step(alloc, process),
        None => unreachable!(),
    }
}

/// Runs the process with a pid, if it is there, up to a step that is not silent, and makes that.
pub fn run_if_there(
    alloc: Global,
    processes: &mut BTreeMap<u32, Process>,
    pid: u32,
) -> Result<Option<Step>, NoMemory>
    ensures { IfOk result (λ step. RunsIfThere step processes.old.entries processes.new.entries pid) }
{
    match processes.get_mut(&pid) {
        Some(process) => {
            let step = run_on(alloc, process)?;
            Ok(Some(step))
        }
        None => Ok(None),
    }
}

/// Every pid, rising.
pub fn pids_of(alloc: Global, processes: &BTreeMap<u32, Process>) -> Result<List<Pid>, NoMemory>
    ensures { IfOk result (λ pids. pids ≡ map pid_of (keys processes.now)) }
{
    let mut pids = List::new(alloc);
    for pid in processes.keys() {
        pids.push(Pid(*pid))?;
    }
    Ok(pids)
}

/// Every pid.
pub fn pid_set(alloc: Global, processes: &BTreeMap<u32, Process>) -> Result<Candidates, NoMemory>
    ensures { IfOk result (λ pids. Covers processes.now.entries pids) }
{
    let mut pids = Candidates::new(alloc);
    for pid in processes.keys() {
        pids.insert(*pid)?;
    }
    Ok(pids)
}
