//! What is kept of a process that may send, and of the line by which it would.
ghost use Rattle.std.specs.Prelude.{◌≡◌, ◌-◌, length};
ghost use Rattle.proc_state.specs.State.{state_of};
ghost use Rattle.log_processes.specs.Sending.{home_may, is_within};

use entry_lines::ToldBy;
use log_audit::front::Front;
use proc_state::process::Process;
use t32_base::process::{ClusterNo, Pid};

/// The head of a line by which a process sends: its place, who sent it, the process, and its step count.
#[derive(Clone, Copy, PartialEq, Eq, Debug)]
pub struct Head {
    pub place: u64,
    pub by: ToldBy,
    pub pid: Pid,
    pub at: u64,
}

/// How many steps a process makes, and how many letters it reads, from one cut to the next at most.
#[derive(Clone, Copy, PartialEq, Eq, Debug)]
pub struct Limits {
    pub steps: u32,
    pub reads: u32,
}

/// What is kept of a process beside its state: its steps where it started, how many letters it had not read there and came
/// since, whether it has each page that it waits for, and whether a child of it never synchronised.
#[derive(Clone, Copy, PartialEq, Eq, Debug)]
pub struct Sender {
    pub start: u64,
    pub saved: u64,
    pub whole: bool,
    pub parent: bool,
}

/// The home from which a process may send next, where it has its pages and the line says that this cluster sent it. Takes no memory.
pub fn home_may(front: &Front, head: Head, kept: Sender) -> Option<ClusterNo>
    ensures { result ≡ home_may front.now head kept }
{
    if front.is_next(head.place) && kept.whole {
        front.home(head.by, head.pid)
    } else {
        None
    }
}

/// How many steps lead a process to this count. Takes no memory.
pub fn steps_upto(process: &Process, at: u64) -> u64
    ensures { result ≡ at - (state_of process.now).small.steps }
{
    at.saturating_sub(steps_made(process))
}

/// How many steps a process has made. Takes no memory.
pub fn steps_made(process: &Process) -> u64
    ensures { result ≡ (state_of process.now).small.steps }
{
    process.small.steps
}

/// How many letters of a process wait to be read. Takes no memory.
pub fn letters_waiting(process: &Process) -> u64
    ensures { result ≡ length (state_of process.now).mail }
{
    process.mail.len() as u64
}

/// Whether a process is within its limits, as it stands. Takes no memory.
pub fn is_within(limits: Limits, kept: Sender, process: &Process) -> bool
    ensures { result ≡ is_within limits kept (state_of process.now) }
{
    let steps = steps_made(process).saturating_sub(kept.start);
    let reads = kept.saved.saturating_sub(letters_waiting(process));
    steps <= u64::from(limits.steps) && reads <= u64::from(limits.reads)
}
