//! The fork of a process in its kernel.
ghost use Rattle.std.specs.Prelude.{◌≡◌, ◌<◌, ◌^◌, [], true, fold, IfOk, OnOk, OnErr, None};
ghost use Rattle.std.specs.BTreeMap.{get, keys};
ghost use Rattle.std.specs.Ordering.{nat_cmp};
ghost use Rattle.plain_kernel.specs.Maps.{forks_at, higher_key, kernel_of, pid_of, ForksAt, SplitsAt};
ghost use Rattle.plain_kernel.specs.Still.{next_child};

use crate::sending::{restore, small_at};
use proc_state::process::Process;
use std::alloc::Global;
use std::collections::BTreeMap;
use sys_calls::forking::fork;
use sys_calls::stepping::forks_next;
use t32_base::process::Pid;
use t32_base::streams::NoMemory;

/// Whether the process with a pid is there, and its next step is a fork. Takes no memory.
pub fn stands_at_fork(processes: &BTreeMap<u32, Process>, pid: u32) -> bool
    ensures { result ≡ forks_at processes.now.entries pid }
{
    match processes.get(&pid) {
        Some(process) => forks_next(process),
        None => false,
    }
}

/// The pid of the next child of the process with a pid. Takes no memory.
pub fn child_after(processes: &BTreeMap<u32, Process>, pid: u32) -> Pid
    requires { (next_child (kernel_of processes.now.entries []) (pid_of pid)).0 < 2 ^ 32 }
    ensures { result ≡ next_child (kernel_of processes.now.entries []) (pid_of pid) }
{
    let highest = highest_of(processes, pid);
    Pid(highest + 16)
}

// The highest pid of the cluster of a pid.
fn highest_of(processes: &BTreeMap<u32, Process>, pid: u32) -> u32
    ensures { result ≡ fold (higher_key pid) pid (keys processes.now) }
{
    let mut highest = pid;
    for other in processes.keys() {
        highest = higher(pid, highest, *other);
    }
    highest
}

// The higher of a pid and another, where that is of the cluster.
fn higher(pid: u32, highest: u32, other: u32) -> u32
    ensures { result ≡ higher_key pid highest other }
{
    if other % 16 == pid % 16 {
        highest.max(other)
    } else {
        highest
    }
}

/// The process with a pid forks, and its child is put at its own pid. After want of memory nothing is changed.
pub fn fork_at(
    alloc: Global,
    processes: &mut BTreeMap<u32, Process>,
    pid: u32,
    child: Pid,
) -> Result<(), NoMemory>
    requires forks { forks_at processes.old.entries pid ≡ true }
    requires absent { get nat_cmp processes.old child.0 ≡ None }
    ensures ok { OnOk result (ForksAt processes.old.entries processes.new.entries pid child) }
    ensures err { OnErr result (processes.new.entries ≡ processes.old.entries) }
{
    let before = small_at(processes, pid);
    let made = split_at(alloc, processes, pid, child)?;
    match processes.insert(child.0, made) {
        Ok(_) => Ok(()),
        Err(_) => {
            restore(processes, pid, before);
            Err(NoMemory)
        }
    }
}

// The process with a pid forks in its place, and its child is made. After want of memory nothing is changed.
fn split_at(
    alloc: Global,
    processes: &mut BTreeMap<u32, Process>,
    pid: u32,
    child: Pid,
) -> Result<Process, NoMemory>
    requires { forks_at processes.old.entries pid ≡ true }
    ensures { SplitsAt result processes.old.entries processes.new.entries pid child }
{
    match processes.get_mut(&pid) {
        Some(process) => fork(alloc, process, child),
        None => unreachable!(),
    }
}
