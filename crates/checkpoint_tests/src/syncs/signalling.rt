//! A process that takes a signal as it synchronises, and a quantum that ends before a step at which one can be taken.
ghost use Rattle.std.specs.Prelude.{◌≡◌, ◌<◌, ◌≤◌, ◌+◌, IfOk, OnOk};

use bus_msg::entry::{Post, What};
use proc_state::process::Process;
use quanta::limits::Limits;
use quanta::quantum::{Ran, run_rest};
use std::alloc::Global;
use std::test::Fail;
use sync_point::batch::build;
use sync_point::due::may_take;
use t32_base::letter::{Body, Letter, To};
use t32_base::process::{ClusterNo, End, Pid, Regs, Small, Status};
use t32_base::shared_bytes::SharedBytes;
use t32_base::streams::NoMemory;
use test_asserts::same;

// li a7, 9 / ecall / j .
static RETURNER: [u8; 12] = [147, 8, 144, 0, 115, 0, 0, 0, 111, 0, 0, 0];

// A letter arrives for an end of process 16.
fn arrive(p: &mut Process, end: u8, body: Body) -> Result<(), NoMemory>
    requires { p.old.mail.next < 100 }
    ensures { OnOk result (p.new.mail.next ≡ p.old.mail.next + 1) }
{
    p.deliver(Letter {
        from: Pid(17),
        out: end,
        to: To::Proc(Pid(16), end),
        body,
    })
}

// Its first letter is for end 1, and has the number 0.
fn begun(alloc: Global, handler: u32) -> Result<Process, NoMemory>
    ensures { IfOk result (λ p. p.mail.next ≡ 1) }
{
    let mut p = Process::root(alloc, Pid(16), 0x10000, 1, &RETURNER, 1000, 0, 0)?;
    arrive(&mut p, 1, Body::Said(SharedBytes::copy_of(alloc, b"a\n")?))?;
    p.small.handler = handler;
    Ok(p)
}

// Signals 11 and 12 come, as letters 1 and 2.
fn signalled(alloc: Global, handler: u32) -> Result<Process, NoMemory> {
    let mut p = begun(alloc, handler)?;
    arrive(&mut p, 0, Body::Signal(11))?;
    arrive(&mut p, 0, Body::Signal(12))?;
    Ok(p)
}

// What a batch says at its end: the signal, how many letters were read and the number of the last, and of the state the status, a0, the
// pc and the pc that was kept.
type LastPost = (
    Option<u8>,
    (usize, Option<u64>),
    Status,
    (u32, u32, Option<u32>),
);

fn last_number(numbers: &[u64]) -> Option<u64> {
    Some(*numbers.last()?)
}

fn kept(small: &Small) -> Option<u32> {
    match &small.frame {
        Some(regs) => Some(regs.pc),
        None => None,
    }
}

fn state(small: &Small) -> (u32, u32, Option<u32>) {
    (small.regs.x[10], small.regs.pc, kept(small))
}

fn told(posts: &[Post]) -> Option<LastPost> {
    match &posts.last()?.what {
        What::Sync {
            small,
            read,
            took,
            ..
        } => {
            let small = small.get();
            let read = read.as_slice();
            let reads = (read.len(), last_number(read));
            Some((*took, reads, small.status, state(small)))
        }
        _ => None,
    }
}

// What it synchronises by, and the letters that are left.
fn synced(alloc: Global, p: &mut Process) -> Result<(Option<LastPost>, usize), NoMemory> {
    let posts = build(alloc, p, ClusterNo(1))?;
    Ok((told(posts.as_slice()), p.mail.len()))
}

// Twice in turn: the next has the same state, and takes nothing.
fn assert_twice(alloc: Global, p: &mut Process, told: &LastPost) -> Result<(), Fail> {
    same("the first", &synced(alloc, p)?, &(Some(*told), 2))?;
    let again = (None, (0, None), told.2, told.3);
    same("the second", &synced(alloc, p)?, &(Some(again), 2))
}

static HANDLED: LastPost = (
    Some(11),
    (1, Some(1)),
    Status::Live,
    (11, 65600, Some(65536)),
);

static CLOSED: LastPost = (
    Some(11),
    (1, Some(1)),
    Status::Closing(End::Killed(11)),
    (0, 65536, None),
);

#[test]
fn a_handler_runs_by_the_first_signal(rt: HostRuntime) -> Result<(), Fail> {
    let mut p = signalled(rt.alloc(), 65600)?;
    assert_twice(rt.alloc(), &mut p, &HANDLED)
}

#[test]
fn a_process_without_a_handler_closes(rt: HostRuntime) -> Result<(), Fail> {
    let mut p = signalled(rt.alloc(), 0)?;
    assert_twice(rt.alloc(), &mut p, &CLOSED)
}

// With signals or without.
fn process(alloc: Global, signals: bool) -> Result<Process, NoMemory> {
    if signals {
        signalled(alloc, 0)
    } else {
        begun(alloc, 0)
    }
}

// Whether a signal may be taken, where nothing is left and where something is.
fn takes(alloc: Global, signals: bool) -> Result<[bool; 2], NoMemory> {
    let p = process(alloc, signals)?;
    Ok([may_take(&p, false), may_take(&p, true)])
}

#[test]
fn a_signal_is_taken_where_nothing_is_left(rt: HostRuntime) -> Result<(), Fail> {
    same(
        "with a signal and without",
        &[takes(rt.alloc(), true)?, takes(rt.alloc(), false)?],
        &[[true, false], [false, false]],
    )
}

const LIMITS: Limits = Limits {
    reads: 9,
    steps: 99,
};

// Whether it moved, and its steps.
fn moved(alloc: Global, p: &mut Process, before: u32) -> Result<(bool, u64), NoMemory>
    requires few { before ≤ 64 }
    requires begun { 1 ≤ before }
{
    let ran = run_rest(alloc, p, LIMITS, before)?;
    Ok((matches!(ran, Ran::Moved), p.small.steps))
}

// A handler runs, which returns by its second step.
fn handling(p: &mut Process) {
    p.small.frame = Some(Regs::new(65536));
}

// Whether signals wait and a handler runs; what a quantum makes.
fn quantum(alloc: Global, signals: bool, handler: bool) -> Result<(bool, u64), NoMemory> {
    let mut p = process(alloc, signals)?;
    if handler {
        handling(&mut p);
    }
    moved(alloc, &mut p, 1)
}

// At once, by the handler's return, at the end of the quantum.
static QUANTA: [(bool, bool, (bool, u64)); 3] = [
    (true, false, (true, 0)),
    (true, true, (true, 2)),
    (false, true, (true, 63)),
];

#[test]
fn a_quantum_ends_where_a_signal_can_be_taken(rt: HostRuntime) -> Result<(), Fail> {
    for row in &QUANTA {
        same("a quantum", &quantum(rt.alloc(), row.0, row.1)?, &row.2)?;
    }
    Ok(())
}
