//! A process that runs on up to a step that is not silent. The steps are counted by hand.
use crate::calls::process::{Begin, Made, begun, made_of, set_call};
use proc_state::process::Process;
use std::alloc::Global;
use std::test::Fail;
use sys_calls::stepping::run_on;
use t32_base::letter::To;
use t32_base::process::{End, Pid};
use t32_base::streams::NoMemory;
use test_asserts::same;

// li a7, 2 / li a0, 0 / la a1, m / li a2, 2 / ecall / addi a1, a1, 2 / li a0, 0 / ecall / li a7, 1 / li a0, 0 /
// ecall / m: .ascii "a\nb\n"
static TWO: [u8; 52] = [
    147, 8, 32, 0, 19, 5, 0, 0, 183, 5, 1, 0, 147, 133, 5, 3, 19, 6, 32, 0, 115, 0, 0, 0, 147, 133,
    37, 0, 19, 5, 0, 0, 115, 0, 0, 0, 147, 8, 16, 0, 19, 5, 0, 0, 115, 0, 0, 0, 97, 10, 98, 10,
];

// Lets a process run on: at what it stopped, and its steps then.
fn ran(alloc: Global, p: &mut Process) -> Result<(Made, u64), NoMemory> {
    let step = run_on(alloc, p)?;
    Ok((made_of(&step, p.small.status), p.small.steps))
}

// Four runs.
type Stops = [(Made, u64); 4];

fn run_four(alloc: Global, p: &mut Process) -> Result<Stops, NoMemory> {
    let mut stops = [(Made::Other, 0); 4];
    for stop in stops.iter_mut() {
        *stop = ran(alloc, p)?;
    }
    Ok(stops)
}

fn two_ran(alloc: Global, limit: u32) -> Result<Stops, NoMemory> {
    let mut p = Process::root(alloc, Pid(16), 0x10000, 1, &TWO, limit, 0, 0)?;
    run_four(alloc, &mut p)
}

static STOPS: Stops = [
    (Made::Said(To::Tty(0), 2), 6),
    (Made::Said(To::Tty(0), 2), 9),
    (Made::Exit(End::Exit(0)), 13),
    (Made::Over(End::Exit(0)), 13),
];

#[test]
fn a_process_runs_on_to_each_letter_and_to_its_end(rt: HostRuntime) -> Result<(), Fail> {
    same("the stops", &two_ran(rt.alloc(), 1000)?, &STOPS)
}

static SHORT: Stops = [
    (Made::Exit(End::Limit), 7),
    (Made::Over(End::Limit), 7),
    (Made::Over(End::Limit), 7),
    (Made::Over(End::Limit), 7),
];

#[test]
fn a_process_without_instructions_runs_on_to_its_end(rt: HostRuntime) -> Result<(), Fail> {
    same("the stops", &two_ran(rt.alloc(), 5)?, &SHORT)
}

// A process that reads end 1, where nothing has come: the end by which it is linked, and at what it stopped.
fn read_on(alloc: Global, p: &mut Process) -> Result<(Option<u8>, Stops), NoMemory> {
    set_call(&mut p.small, &[1, 0x10010, 2, 3]);
    let end = p.link(Pid(17), 1);
    Ok((end, run_four(alloc, p)?))
}

fn reading_ran(alloc: Global) -> Result<(Option<u8>, Stops), NoMemory> {
    let mut reading = begun(alloc, Begin::Root)?;
    read_on(alloc, &mut reading)
}

const WAITING: (Option<u8>, Stops) = (Some(1), [(Made::Blocked, 0); 4]);

#[test]
fn a_process_that_waits_runs_no_further(rt: HostRuntime) -> Result<(), Fail> {
    let wanted = WAITING;
    same("the stops", &reading_ran(rt.alloc())?, &wanted)
}
