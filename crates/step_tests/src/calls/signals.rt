//! A process that takes the signals that wait, one for each return of its handler.
use crate::calls::process::{Made, signalled, step_made};
use proc_state::process::Process;
use rv_cpu::registers::read;
use std::alloc::Global;
use std::test::Fail;
use sys_calls::signals::{can_take, take_signal};
use t32_base::streams::NoMemory;
use test_asserts::same;

// The signal that a process took, if it could take one, and what a0 is then.
type Taken = (Option<u8>, u32);

fn taken(p: &mut Process) -> Result<Taken, NoMemory> {
    if !can_take(p) {
        return Ok((None, read(&p.small.regs, 10)));
    }
    let signal = take_signal(p)?;
    Ok((Some(signal), read(&p.small.regs, 10)))
}

// What a return of the handler was, and two attempts to take a signal after it.
type Turn = (Made, [Taken; 2]);

fn turn(alloc: Global, p: &mut Process) -> Result<Turn, NoMemory> {
    let made = step_made(alloc, p)?;
    Ok((made, [taken(p)?, taken(p)?]))
}

// An attempt before any return, and two returns.
type InTurn = (Taken, [Turn; 2]);

fn take_in_turn(alloc: Global, p: &mut Process) -> Result<InTurn, NoMemory> {
    Ok((taken(p)?, [turn(alloc, p)?, turn(alloc, p)?]))
}

fn taken_in_turn(alloc: Global) -> Result<InTurn, NoMemory> {
    let mut p = signalled(alloc)?;
    take_in_turn(alloc, &mut p)
}

const IN_TURN: InTurn = (
    (None, 0),
    [
        (Made::Silent, [(Some(11), 11), (None, 11)]),
        (Made::Silent, [(Some(12), 12), (None, 12)]),
    ],
);

#[test]
fn signals_are_taken_in_order_between_the_runs_of_a_handler(rt: HostRuntime) -> Result<(), Fail> {
    let wanted = IN_TURN;
    same("the signals", &taken_in_turn(rt.alloc())?, &wanted)
}
