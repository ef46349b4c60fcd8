//! What a process did when it had its turn.
ghost use Rattle.std.specs.Prelude.{◌≡◌, ◌<◌, true, is_some};
ghost use Rattle.proc_state.specs.Ends.{free_end};
ghost use Rattle.proc_state.specs.State.{state_of};
ghost use Rattle.sys_calls.specs.Next.{is_exit, next_step};
ghost use Rattle.residents.specs.Quantum.{forking_of, sending_of, CanTell, EndsOrStays, Tells};

use bus_msg::entry::Post;
use proc_state::process::Process;
use quanta::quantum::Ran;
use sys_calls::forking::fork_end;
use sys_calls::stepping::exit;
use sys_calls::steps::Emission;
use t32_base::lists::List;
use t32_base::process::{Pid, Small};

/// What a process did in its turn: it made silent steps; or its last step sent something; or it synchronised, by these posts; or it
/// sent these, which bring it its new backup; or it had no step; or, after silent steps or none, it stands before its fork.
#[derive(Drop)]
pub enum Quantum {
    Moved,
    Sent(Sending),
    Synced(List<Post>),
    Renewed(List<Post>),
    Stuck,
    Forks(Forking),
}

/// What a process sent by its step `at`. It becomes a post where it is queued: a post is large, and most quanta
/// send nothing.
#[derive(Drop)]
pub struct Sending {
    pub pid: Pid,
    pub at: u64,
    pub emission: Emission,
}

/// The fork before which a process stands: the step that it is, and the end of the process that is to be linked to the child.
#[derive(Drop)]
pub struct Forking {
    pub pid: Pid,
    pub at: u64,
    pub end: u8,
}

/// What a process that runs did in a quantum; one that stands before its end ends now, by one step more, where it has no child that is to
/// synchronise first. A step for which memory was refused is not made. Takes no memory.
pub fn tell(process: &mut Process, ran: Ran, childless: bool) -> Quantum
    requires { CanTell ran process.old }
    ensures { Tells ran childless process.old result process.new }
{
    match ran {
        Ran::Moved => Quantum::Moved,
        Ran::Refused => Quantum::Moved,
        Ran::Sent(letter) => Quantum::Sent(sending_of(&process.small, Emission::Mail(letter))),
        Ran::Stuck => Quantum::Stuck,
        Ran::Forks => Quantum::Forks(forking_of(&process.small)),
        Ran::Ends(_) => end_or_stay(process, childless),
    }
}

// The end of a process that stands before it, where no child of it is to synchronise first.
fn end_or_stay(process: &mut Process, childless: bool) -> Quantum
    requires { is_exit (next_step (state_of process.old)) ≡ true }
    ensures { EndsOrStays childless process.old result process.new }
{
    if !childless {
        return Quantum::Moved;
    }
    let end = exit(process);
    Quantum::Sent(sending_of(&process.small, Emission::Exit(end)))
}

// What a process that has this state sent by its last step. Takes no memory.
fn sending_of(small: &Small, emission: Emission) -> Sending
    ensures { result ≡ sending_of small.now emission }
{
    Sending {
        pid: small.pid,
        at: small.steps,
        emission,
    }
}

// The next step of a process that stands before its fork. Takes no memory.
fn forking_of(small: &Small) -> Forking
    requires some { 0 < small.now.left }
    requires end { is_some (free_end small.now.ends) ≡ true }
    ensures { result ≡ forking_of small.now }
{
    Forking {
        pid: small.pid,
        at: small.steps + 1,
        end: fork_end(small),
    }
}
