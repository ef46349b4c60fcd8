//! The answer of each call, and the steps of a process that ends.
use crate::calls::process::{
    Begin, Made, NO_LETTERS, REFUSED_END, Row, assert_calls, begun, linked, set_call, step_made,
    with,
};
use proc_state::process::Process;
use std::alloc::Global;
use std::test::Fail;
use t32_base::letter::To;
use t32_base::process::{End, EndState, Pid, Small};
use t32_base::streams::NoMemory;
use test_asserts::same;

// Where a signal to process 99 goes.
const STRANGER: To = To::Proc(Pid(99), 0);

// The arguments and the number of the call; what its step was, and the register a0 after it.
static CALLS: [Row; 15] = [
    ([0x1ff, 0, 0, 1], Made::Closing(End::Exit(255)), (0x1ff, 0)),
    ([7, 0, 0, 6], Made::Silent, (16, 0)),
    ([7, 0, 0, 0], Made::Silent, (0xffffffea, 0)),
    ([7, 0, 0, 3], Made::Silent, (REFUSED_END, 0)),
    ([0, 0, 0, 4], Made::Silent, (REFUSED_END, 0)),
    ([7, 0, 0, 10], Made::Silent, (REFUSED_END, 0)),
    ([0x10010, 0, 0, 7], Made::Silent, (0, 0)),
    ([0, 0, 0, 7], Made::Silent, (0, 0)),
    ([0x10012, 0, 0, 7], Made::Silent, (0xffffffea, 0)),
    ([99, 31, 0, 8], Made::Signal(31, STRANGER), (0, 31)),
    ([99, 0, 0, 8], Made::Silent, (0xffffffea, 0)),
    ([99, 32, 0, 8], Made::Silent, (0xffffffea, 32)),
    ([7, 0, 0, 9], Made::Silent, (0xffffffea, 0)),
    ([7, 0, 0, 11], Made::Silent, (0xffffffea, 0)),
    ([7, 0, 0, 0xffffffff], Made::Silent, (0xffffffea, 0)),
];

#[test]
fn each_call_answers(rt: HostRuntime) -> Result<(), Fail> {
    assert_calls(rt.alloc(), Begin::Root, NO_LETTERS, &CALLS)
}

// Root 0 as it would be with ends 3 and 31 linked to another process.
fn with_two_links(small: &Small) -> Small {
    let mut ends = [EndState::Never; 32];
    ends[3] = linked(5, false);
    ends[31] = linked(5, false);
    with(small, ends)
}

// A process with those ends that calls exit.
fn exiting(alloc: Global) -> Result<Process, NoMemory> {
    let mut p = begun(alloc, Begin::Root)?;
    p.small = with_two_links(&p.small);
    set_call(&mut p.small, &[0, 0, 0, 1]);
    Ok(p)
}

// What each of five steps was, and the count of steps then.
type Steps = [(Made, u64); 5];

fn step_on(alloc: Global, p: &mut Process) -> Result<Steps, NoMemory> {
    let mut steps = [(Made::Other, 0); 5];
    for place in steps.iter_mut() {
        let made = step_made(alloc, p)?;
        *place = (made, p.small.steps);
    }
    Ok(steps)
}

fn closed(alloc: Global) -> Result<Steps, NoMemory> {
    let mut p = exiting(alloc)?;
    step_on(alloc, &mut p)
}

static CLOSING: Steps = [
    (Made::Closing(End::Exit(0)), 1),
    (Made::Shut(3, To::Proc(Pid(17), 5)), 2),
    (Made::Shut(31, To::Proc(Pid(17), 5)), 3),
    (Made::Exit(End::Exit(0)), 4),
    (Made::Over(End::Exit(0)), 4),
];

#[test]
fn a_closing_process_shuts_its_ends_and_then_exits(rt: HostRuntime) -> Result<(), Fail> {
    same("the steps", &closed(rt.alloc())?, &CLOSING)
}
