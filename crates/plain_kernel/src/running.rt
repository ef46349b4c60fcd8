//! Many steps of a kernel: those of one process, and the items of the default schedule.
ghost use Rattle.std.specs.Prelude.{◌≤◌, ◌<◌, ◌-◌, ◌^◌, IsSome, OnOk};
ghost use Rattle.std.specs.BTreeMap.{get};
ghost use Rattle.std.specs.Ordering.{nat_cmp};
ghost use Rattle.plain_kernel.specs.Maps.{kernel_of, total_load, Covers, IsFirst, NoneTakes, PidsFit, RunsSteps, Turns};
ghost use Rattle.plain_kernel.specs.Candidates.{Arrives};
ghost use Rattle.plain_kernel.specs.Still.{Reaches};

use crate::births::{child_after, fork_at};
use crate::candidates::Candidates;
use crate::item::NotApplied;
use crate::processes::{pid_set, run_at, run_if_there};
use crate::sending::{Made, make_step, send};
use crate::signals::{carries_signal, take_at};
use proc_state::process::Process;
use std::alloc::Global;
use std::collections::BTreeMap;
use sys_calls::steps::{Emission, Step};
use t32_base::letter::Letter;
use t32_base::lists::Bytes;
use t32_base::streams::NoMemory;

/// Makes `most` steps of the process with a pid, which is there, or as many as it can.
pub fn run_steps(
    alloc: Global,
    processes: &mut BTreeMap<u32, Process>,
    ttys: &mut BTreeMap<u8, Bytes>,
    pid: u32,
    most: u64,
) -> Result<(), NotApplied>
    requires there { IsSome (get nat_cmp processes.old pid) }
    requires room { total_load processes.old.entries < 2 ^ 64 }
    ensures { RunsSteps result pid most processes.old.entries processes.new.entries ttys.old.entries ttys.new.entries }
{
    let mut done = 0;
    'steps: while done < most {
        done += run_at(processes, pid, at_most(most - done)) as u64;
        if done < most {
            match make_step(alloc, processes, ttys, pid) {
                Ok(Made::Went) => done += 1,
                Ok(Made::Sent(_)) => done += 1,
                Ok(Made::Stuck) => return Err(NotApplied::Disabled { done }),
                Err(NoMemory) => return Err(NotApplied::NoMemory { done }),
            }
        }
    }
    Ok(())
}

// A count that fits 32 bits, at most so many.
fn at_most(count: u64) -> u32
    ensures { result ≤ count }
{
    count.min(u64::from(u32::MAX)) as u32
}

/// Applies the items of the default schedule until none is left. After want of memory nothing is said.
///
/// A process that was stuck is not tried again before a letter comes to it, so no turn walks over the
/// processes that wait, and none is asked for a step before it makes it. A child is tried as soon as it has the turn.
/// A signal is taken right after the step that let its process take it, so between turns no process can take one.
pub fn run_to_end(
    alloc: Global,
    processes: &mut BTreeMap<u32, Process>,
    ttys: &mut BTreeMap<u8, Bytes>,
) -> Result<(), NoMemory>
    requires room { total_load processes.old.entries < 2 ^ 64 }
    requires fits { PidsFit processes.old.entries }
    requires none_takes { NoneTakes processes.old.entries }
    ensures reaches { OnOk result (Reaches (kernel_of processes.old.entries ttys.old.entries) (kernel_of processes.new.entries ttys.new.entries)) }
    ensures room { OnOk result (total_load processes.new.entries < 2 ^ 64) }
{
    let mut ready = pid_set(alloc, processes)?;
    'turns: while let Some(pid) = ready.first() {
        take_turn(alloc, processes, ttys, &mut ready, pid)?;
    }
    // A map tells with its length that its keys are in order.
    let _count = processes.len();
    Ok(())
}

// The first of those that may have a step runs up to a step that is not silent, so it had the turn, and its letter is
// delivered: one to which it sent may have a step then, and may take a signal, which it does at once. So does the first
// itself where a silent step lets it. Or it forks, and its child may have a step. Or it is stuck, and is taken out.
fn take_turn(
    alloc: Global,
    processes: &mut BTreeMap<u32, Process>,
    ttys: &mut BTreeMap<u8, Bytes>,
    ready: &mut Candidates,
    pid: u32,
) -> Result<(), NoMemory>
    requires first { IsFirst pid ready.old }
    requires room { total_load processes.old.entries < 2 ^ 64 }
    requires fits { PidsFit processes.old.entries }
    requires none_takes { NoneTakes processes.old.entries }
    requires covers { Covers processes.old.entries ready.old }
    ensures turns { OnOk result (Turns processes.old.entries processes.new.entries ttys.old.entries ttys.new.entries ready.old ready.new) }
    ensures covers { OnOk result (Covers processes.new.entries ready.new) }
    ensures fits { OnOk result (PidsFit processes.new.entries) }
    ensures none_takes { OnOk result (NoneTakes processes.new.entries) }
{
    // A map tells with its length that its keys are in order.
    let _count = processes.len();
    let Some(step) = run_if_there(alloc, processes, pid)? else {
        ready.drop_first();
        return Ok(());
    };
    match step {
        Step::Emit(Emission::Mail(letter)) => deliver(processes, ttys, ready, letter)?,
        Step::Emit(Emission::Exit(_)) => {}
        Step::Silent => {
            let _took = take_at(processes, pid)?;
        }
        Step::Forks => {
            let child = child_after(processes, pid);
            fork_at(alloc, processes, pid, child)?;
            ready.insert(child.0)?;
        }
        Step::Blocked | Step::Over => {
            ready.drop_first();
        }
    }
    Ok(())
}

// Delivers a letter. A process to which it went may have a step then, and where the letter is a signal and it can take it,
// it takes it at once.
fn deliver(
    processes: &mut BTreeMap<u32, Process>,
    ttys: &mut BTreeMap<u8, Bytes>,
    ready: &mut Candidates,
    letter: Letter,
) -> Result<(), NoMemory>
    requires { total_load processes.old.entries < 2 ^ 64 - 1 }
    ensures { OnOk result (Arrives letter processes.old.entries processes.new.entries ttys.old.entries ttys.new.entries ready.old ready.new) }
{
    let signals = carries_signal(&letter.body);
    if let Some(to) = send(processes, ttys, letter)? {
        ready.insert(to)?;
        if signals {
            let _took = take_at(processes, to)?;
        }
    }
    Ok(())
}
