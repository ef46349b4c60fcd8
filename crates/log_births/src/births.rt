//! Lines of births.
ghost use Rattle.std.specs.Prelude.{◌≡◌, ◌-◌, IfOk, true, option_map};
ghost use Rattle.std.specs.Option.{IfSome};
ghost use Rattle.proc_state.specs.State.{state_of};
ghost use Rattle.sys_calls.specs.Fork.{CanFork};
ghost use Rattle.log_births.specs.Births.{AnswersBirth, Bears, BearsChild, ForksBy, IsMarkedWhole, birth_entry, child_may};

use bus_msg::entry::{By, Entry, Post, What};
use counted_steps::counted::come_to_fork;
use log_audit::front::Front;
use log_processes::sender::{Head, Limits, Sender, home_may, is_within, steps_made, steps_upto};
use proc_state::process::Process;
use std::alloc::Global;
use sys_calls::forking::{fork, fork_end};
use t32_base::process::{ClusterNo, Pid};
use t32_base::streams::NoMemory;

/// The child that a line names: its pid, and the end of its parent that is linked to it.
#[derive(Clone, Copy, PartialEq, Eq, Debug)]
pub struct ToldChild {
    pub pid: u64,
    pub end: u64,
}

/// A birth that may stand next: its entry, and the child as it is born.
#[derive(Drop)]
pub struct Born {
    pub entry: Entry,
    pub child: Process,
}

/// The entry of a line by which a process forks, and its child, where the front, and what is kept of the process, are those of
/// the log before it. None where no such entry may follow: the process has then made some steps, and perhaps the fork, as it
/// may have after want of memory. Otherwise it stands behind its fork.
pub fn next_birth(
    alloc: Global,
    front: &Front,
    limits: Limits,
    head: Head,
    told: ToldChild,
    kept: Sender,
    process: &mut Process,
) -> Result<Option<Born>, NoMemory>
    ensures decides { IfOk result (λ answer. AnswersBirth front.now limits head kept (state_of process.old) told (option_map (λ born. born.entry) answer)) }
    ensures bears { IfOk result (λ answer. IfSome answer (λ born. BearsChild front.now limits head.pid kept (state_of process.old) born (state_of process.new))) }
    ensures marks { IfOk result (λ answer. IfSome answer (λ born. IsMarkedWhole process.new born.child)) }
{
    let Some(home) = home_may(front, head, kept) else {
        return Ok(None);
    };
    let Some(child) = child_may(front, home, told.pid) else {
        return Ok(None);
    };
    if !forks_by(alloc, head.at, process)? {
        return Ok(None);
    }
    match bear(alloc, limits, kept, child, told.end, process)? {
        Some((end, born)) => Ok(Some(Born {
            entry: birth(front, home, head, child, end),
            child: born,
        })),
        None => Ok(None),
    }
}

// The pid of the next child of a home, where a line names it.
fn child_may(front: &Front, home: ClusterNo, told: u64) -> Option<Pid>
    ensures { result ≡ child_may front.now.places home told }
{
    let serial = front.places().next_serial(home);
    let next = u64::from(home.0) + 16 * u64::from(serial);
    if next == told && told <= u64::from(u32::MAX) {
        Some(Pid(told as u32))
    } else {
        None
    }
}

// Whether the process forks by its step `at`: it then stands before the fork.
fn forks_by(alloc: Global, at: u64, process: &mut Process) -> Result<bool, NoMemory>
    ensures by { IfOk result (λ forks. ForksBy at (state_of process.old) forks (state_of process.new)) }
    ensures can { IfOk result (λ forks. forks ≡ true → CanFork (state_of process.new)) }
{
    if at <= steps_made(process) {
        return Ok(false);
    }
    let steps = steps_upto(process, at - 1);
    come_to_fork(alloc, process, steps)
}

// The child of a process that stands before its fork, with the end of the process that is linked to it, where a line names that end.
fn bear(
    alloc: Global,
    limits: Limits,
    kept: Sender,
    child: Pid,
    told: u64,
    process: &mut Process,
) -> Result<Option<(u8, Process)>, NoMemory>
    requires { CanFork (state_of process.old) }
    ensures bears { IfOk result (λ answer. Bears limits kept child told (state_of process.old) answer (state_of process.new)) }
    ensures marks { IfOk result (λ answer. IfSome answer (λ born. IsMarkedWhole process.new born.1)) }
{
    let end = fork_end(&process.small);
    let born = fork(alloc, process, child)?;
    if u64::from(end) == told && is_within(limits, kept, process) {
        Ok(Some((end, born)))
    } else {
        Ok(None)
    }
}

// The entry by which the home of a process tells of its fork.
fn birth(front: &Front, home: ClusterNo, head: Head, child: Pid, end: u8) -> Entry
    ensures { result ≡ birth_entry front.now home head child end }
{
    let what = What::Birth {
        parent: head.pid,
        at: head.at,
        child,
        end,
    };
    let by = By::Cluster(home);
    front.entry_at(head.place, Post { by, what })
}
