//! What is kept of each process of a log that has not ended.
ghost use Rattle.std.specs.Prelude.{◌≡◌, [], true, false, None, IfOk, OnOk, List, option_map};
ghost use Rattle.std.specs.List.Sorted.{IsStrictlySortedBy};
ghost use Rattle.std.specs.Map.{keys_of};
ghost use Rattle.std.specs.Ordering.{nat_cmp};
ghost use Rattle.t32_base.specs.declared.process.Pid.{Pid as APid};
ghost use Rattle.sys_text.specs.Valid.{is_system};
ghost use Rattle.bus_msg.specs.PlacedAfter.{what};
ghost use Rattle.log_cuts.specs.Ahead.{IsAhead};
ghost use Rattle.audited_process.specs.Concerns.{goes_on};
ghost use Rattle.audited_log.specs.Processes.{AreKept};
ghost use Rattle.audited_log.specs.Walk.{AllCanBeTaken, AllGoOn, CanBeTaken, GoesOn, TakesAll, concerns, is_left};

use audited_process::audited::Audited;
use audited_process::concerns::changes;
use bus_msg::entry::{Entry, What};
use channel_table::placement::Placement;
use plain_kernel::booting::processes_of;
use proc_state::process::Process;
use std::alloc::Global;
use std::collections::BTreeMap;
use sys_text::system::System;
use t32_base::process::Pid;
use t32_base::streams::NoMemory;

/// By the numbers of the processes.
pub type Processes = BTreeMap<u32, Audited>;

/// Those of the log with no entry.
pub fn start(alloc: Global, system: &System) -> Result<Processes, NoMemory>
    requires valid { is_system system.now ≡ true }
    ensures { IfOk result (λ processes. AreKept system.now [] processes.entries) }
{
    let mut roots = processes_of(alloc, system)?;
    let mut processes = BTreeMap::new(alloc);
    while let Some((pid, process)) = roots.pop_first() {
        let root = Audited::root(alloc, process)?;
        processes.insert(pid, root)?;
    }
    Ok(processes)
}

/// Takes in an entry that led each process to where it stands, with the child that it bears, where the placement is the one before it:
/// each goes on, one that ends goes, and the child comes. After want of memory nothing is said.
pub fn take(
    alloc: Global,
    before: &Placement,
    entry: &Entry,
    child: Option<Process>,
    processes: &mut Processes,
) -> Result<(), NoMemory>
    requires { AllCanBeTaken entry.now processes.old.entries }
    ensures { OnOk result (TakesAll before.now entry.now child processes.old.entries processes.new.entries) }
{
    go_on_all(alloc, before, entry, processes)?;
    match &entry.post.what {
        What::Exit { pid, .. } => {
            processes.remove(&pid.0);
        }
        What::Birth { child: pid, .. } => {
            if let Some(born) = child {
                processes.insert(pid.0, Audited::child(alloc, born)?)?;
            }
        }
        _ => {}
    }
    Ok(())
}

// Each process goes on.
fn go_on_all(
    alloc: Global,
    before: &Placement,
    entry: &Entry,
    processes: &mut Processes,
) -> Result<(), NoMemory>
    requires { AllCanBeTaken entry.now processes.old.entries }
    ensures { OnOk result (AllGoOn before.now entry.now processes.old.entries processes.new.entries) }
{
    let pids = numbers_of(alloc, processes)?;
    for pid in pids.as_slice() {
        if let Some(audited) = processes.get_mut(pid) {
            go_on(alloc, Pid(*pid), before, entry, audited)?;
        }
    }
    Ok(())
}

// The numbers of the processes, rising.
fn numbers_of(alloc: Global, processes: &Processes) -> Result<Vec<u32>, NoMemory>
    ensures numbers { IfOk result (λ numbers. numbers.items ≡ keys_of processes.now.entries) }
    ensures ordered { IfOk result (λ numbers. IsStrictlySortedBy nat_cmp numbers.items) }
{
    let mut numbers = Vec::new(alloc);
    for pid in processes.keys() {
        numbers.push(*pid)?;
    }
    Ok(numbers)
}

// A process goes on, if it does. One that waits for no new backup is left as it is where the entry does not concern it.
fn go_on(
    alloc: Global,
    pid: Pid,
    before: &Placement,
    entry: &Entry,
    audited: &mut Audited,
) -> Result<(), NoMemory>
    requires { goes_on pid (what entry.now) ≡ true → CanBeTaken entry.now pid audited.old }
    ensures { OnOk result (GoesOn before.now entry.now pid audited.old audited.new) }
{
    let what = &entry.post.what;
    if !goes_on(pid, what) {
        return Ok(());
    }
    if is_left(pid, what, audited) {
        return Ok(());
    }
    audited.take(alloc, pid, before, entry)
}

// Whether an entry leaves what is kept of a process.
fn is_left(pid: Pid, what: &What, audited: &Audited) -> bool
    ensures { result ≡ is_left pid what.now audited.now }
{
    !audited.since_moved.waits && !concerns(pid, what)
}

// Whether it may change what is kept of a process that waits for no new backup.
fn concerns(pid: Pid, what: &What) -> bool
    ensures { result ≡ concerns pid what.now }
{
    if changes(pid, what) {
        return true;
    }
    match what {
        What::Page { pid: own, .. } => own.0 == pid.0,
        What::Crash { .. } => true,
        _ => false,
    }
}

// Whether neither the process nor the run ends by an entry.
fn goes_on(pid: Pid, what: &What) -> bool
    ensures { result ≡ goes_on pid what.now }
{
    match what {
        What::Exit { pid: own, .. } => own.0 != pid.0,
        What::Done { .. } => false,
        _ => true,
    }
}
