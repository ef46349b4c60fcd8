//! Lines of births. Process 16 forks by step 2: its child is the second process of cluster 0, and is linked to end 1.
use crate::begun::{front, process};
use entry_lines::ToldBy;
use log_audit::front::Front;
use log_births::births::{Born, ToldChild, next_birth};
use log_processes::sender::{Head, Limits, Sender};
use proc_state::process::Process;
use std::alloc::Global;
use std::test::Fail;
use t32_base::process::Pid;
use test_asserts::same;
use test_systems::FORKER;

const LIMITS: Limits = Limits {
    steps: 4096,
    reads: 32,
};

const START: Sender = Sender {
    start: 0,
    saved: 0,
    whole: true,
    parent: false,
};

// The clusters that a birth goes to, the pid of the child, and how many steps the child and its parent have made.
type Seen = (u16, u32, u64, u64);

fn seen(born: &Born, parent: &Process) -> Seen {
    (
        born.entry.dests.clusters,
        born.child.small.pid.0,
        born.child.small.steps,
        parent.small.steps,
    )
}

// The steps of the parent, the pid of the child, and the end that it is linked to.
type Line = (u64, u64, u64);

// What such a line of a birth is.
fn birth(alloc: Global, front: &Front, line: Line) -> Result<Option<Seen>, Fail> {
    let mut parent = process(alloc, FORKER, 16)?;
    birth_of(alloc, front, &mut parent, line)
}

fn birth_of(
    alloc: Global,
    front: &Front,
    parent: &mut Process,
    line: Line,
) -> Result<Option<Seen>, Fail> {
    let (at, pid, end) = line;
    let head = Head {
        place: 0,
        by: ToldBy::Cluster(0),
        pid: Pid(16),
        at,
    };
    let told = ToldChild { pid, end };
    match next_birth(alloc, front, LIMITS, head, told, START, parent)? {
        Some(born) => Ok(Some(seen(&born, parent))),
        None => Ok(None),
    }
}

// By its step, by the one before, by the one after, of another child, of one whose pid differs beyond 32 bits, and at another end.
static BIRTHS: [(Line, Option<Seen>); 6] = [
    ((2, 32, 1), Some((3, 32, 0, 2))),
    ((1, 32, 1), None),
    ((3, 32, 1), None),
    ((2, 48, 1), None),
    ((2, 4294967328, 1), None),
    ((2, 32, 2), None),
];

fn assert_births(alloc: Global, front: &Front) -> Result<(), Fail> {
    for (line, wanted) in &BIRTHS {
        let shown = birth(alloc, front, *line)?;
        same("a birth", &(*line, shown), &(*line, *wanted))?;
    }
    Ok(())
}

#[test]
fn a_child_is_born_by_the_fork(rt: HostRuntime) -> Result<(), Fail> {
    let front = front(rt.alloc(), FORKER)?;
    assert_births(rt.alloc(), &front)
}
