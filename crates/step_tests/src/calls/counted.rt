//! So many steps of a process, as a printed line tells of them. The steps are counted by hand.
use crate::calls::process::{Begin, Made, begun, made_of, set_call};
use counted_steps::counted::{come_to_fork, make_silent_steps, send_by};
use counted_steps::resting::settle;
use proc_state::process::Process;
use std::alloc::Global;
use std::test::Fail;
use sys_calls::steps::Step;
use t32_base::letter::To;
use t32_base::process::{End, Pid};
use t32_base::streams::NoMemory;
use test_asserts::same;

// li a7, 2 / li a0, 0 / la a1, m / li a2, 3 / ecall / li a7, 1 / li a0, 0 / ecall / m: .ascii "hi\n"
static HI: [u8; 40] = [
    147, 8, 32, 0, 19, 5, 0, 0, 183, 5, 1, 0, 147, 133, 69, 2, 19, 6, 48, 0, 115, 0, 0, 0, 147, 8,
    16, 0, 19, 5, 0, 0, 115, 0, 0, 0, 104, 105, 10, 0,
];

// li a7, 5 / ecall
static FORKER: [u8; 8] = [147, 8, 80, 0, 115, 0, 0, 0];

fn hi(alloc: Global) -> Result<Process, NoMemory> {
    Process::root(alloc, Pid(16), 0x10000, 1, &HI, 1000, 0, 0)
}

// What the last of so many steps sends, and the steps then.
fn sent(alloc: Global, p: &mut Process, steps: u64) -> Result<(Made, u64), NoMemory> {
    match send_by(alloc, p, steps)? {
        Some(sent) => Ok((made_of(&Step::Emit(sent), p.small.status), p.small.steps)),
        None => Ok((Made::Other, 0)),
    }
}

fn send_both(
    alloc: Global,
    p: &mut Process,
    first: u64,
    then: u64,
) -> Result<[(Made, u64); 2], NoMemory> {
    Ok([sent(alloc, p, first)?, sent(alloc, p, then)?])
}

fn both(alloc: Global, first: u64, then: u64) -> Result<[(Made, u64); 2], NoMemory> {
    let mut p = hi(alloc)?;
    send_both(alloc, &mut p, first, then)
}

static LINES: [(Made, u64); 2] = [
    (Made::Said(To::Tty(0), 3), 6),
    (Made::Exit(End::Exit(0)), 10),
];

#[test]
fn a_letter_and_the_end_are_sent_by_the_steps_of_their_lines(rt: HostRuntime) -> Result<(), Fail> {
    same("what is sent", &both(rt.alloc(), 6, 4)?, &LINES)
}

// Whether so many silent steps can be made, by the steps.
fn are_silent(alloc: Global, steps: u64) -> Result<bool, NoMemory> {
    make_silent_steps(alloc, &mut hi(alloc)?, steps)
}

fn silent(alloc: Global) -> Result<[bool; 3], NoMemory> {
    Ok([
        are_silent(alloc, 0)?,
        are_silent(alloc, 5)?,
        are_silent(alloc, 6)?,
    ])
}

#[test]
fn the_steps_before_a_letter_are_silent(rt: HostRuntime) -> Result<(), Fail> {
    same("the steps", &silent(rt.alloc())?, &[true, true, false])
}

fn forker(alloc: Global) -> Result<Process, NoMemory> {
    Process::root(alloc, Pid(16), 0x10000, 1, &FORKER, 1000, 1, 0)
}

fn forks(alloc: Global, before: u64) -> Result<bool, NoMemory> {
    come_to_fork(alloc, &mut forker(alloc)?, before)
}

#[test]
fn a_process_comes_to_its_fork_after_the_steps_before_it(rt: HostRuntime) -> Result<(), Fail> {
    let shown = [forks(rt.alloc(), 0)?, forks(rt.alloc(), 1)?];
    same("the forks", &shown, &[false, true])
}

// One that waits for a letter from its end 1, which is linked.
fn waiting(alloc: Global) -> Result<Process, NoMemory> {
    let mut p = begun(alloc, Begin::Linked)?;
    set_call(&mut p.small, &[1, 0x10080, 1, 3]);
    Ok(p)
}

fn who_waits_settles(alloc: Global) -> Result<bool, NoMemory> {
    settle(alloc, &mut waiting(alloc)?)
}

fn who_sends_settles(alloc: Global) -> Result<bool, NoMemory> {
    settle(alloc, &mut hi(alloc)?)
}

#[test]
fn who_waits_rests_and_who_sends_does_not(rt: HostRuntime) -> Result<(), Fail> {
    let shown = [
        who_waits_settles(rt.alloc())?,
        who_sends_settles(rt.alloc())?,
    ];
    same("the rests", &shown, &[true, false])
}
