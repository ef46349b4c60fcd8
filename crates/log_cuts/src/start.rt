//! Where a process started, and which letters it has read since.
ghost use Rattle.std.specs.Prelude.{◌≡◌, IfOk};
ghost use Rattle.proc_state.specs.State.{state_of};
ghost use Rattle.log_cuts.specs.Start.{BeginsAt, LeavesStart, StartsAt, read_numbers};

use crate::numbers::{numbers_waiting, put_from, without};
use proc_state::process::Process;
use std::alloc::Global;
use t32_base::lists::List;
use t32_base::streams::NoMemory;

/// What is kept of where a process started: whether its record has a state, as that of a root and of a process that was cut has,
/// the numbers of the letters that it had not read there, and how many letters had come.
#[derive(Drop)]
pub struct Start {
    pub stated: bool,
    pub waiting: List<u64>,
    pub came: u64,
}

/// That of a process that starts where it stands: at boot, at its birth, or at a cut.
pub fn start_at(alloc: Global, process: &Process, stated: bool) -> Result<Start, NoMemory>
    ensures stated { IfOk result (λ start. start.stated ≡ stated) }
    ensures at { IfOk result (λ start. StartsAt (state_of process.now) start) }
    ensures begins { IfOk result (λ start. BeginsAt (state_of process.now) start) }
{
    Ok(Start {
        stated,
        waiting: List::from_vec(numbers_waiting(alloc, &process.mail)?),
        came: process.mail.next(),
    })
}

/// A law and no code: which entries leave it.
pub fn others_leave_it()
    ensures { LeavesStart }
{}

/// The numbers of the letters that the process has read since it started, rising.
pub(crate) fn read_since(
    alloc: Global,
    start: &Start,
    process: &Process,
) -> Result<List<u64>, NoMemory>
    ensures { IfOk result (λ read. read ≡ read_numbers start.now (state_of process.now)) }
{
    let mut saved = start.waiting.as_slice().to_vec(alloc)?;
    put_from(&mut saved, start.came, process.mail.next())?;
    let waiting = numbers_waiting(alloc, &process.mail)?;
    let read = without(alloc, saved.as_slice(), waiting.as_slice())?;
    Ok(List::from_vec(read))
}
