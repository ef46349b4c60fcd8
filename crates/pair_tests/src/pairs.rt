//! Each pair of places of two losses, with and without a return between them, and the same with a loss before a kernel step, in each mode.
use crate::explained::{Case, Subject, explained, in_mode};
use std::alloc::{AllocError, Global};
use std::sync::Wait;
use std::test::Fail;
use std::thread::Threads;
use test_systems::{CONVERSATION, RING, SERVER, SIGNALLED};

// The asker of the conversation may hear the second answer first.
pub static TALK: Case = Case {
    text: CONVERSATION,
    other: "tty 0 20\ncluster 2\ncluster 1\n\ntty 1 0\n\ntty 2 0\n\npid 16 exit 0\npid 17 exit 1\npid 18 exit 1\n",
    forks: false,
    roots: 3,
    servers: [0, 1],
    clusters: 3,
    places: 16,
    steps: 44,
};

pub static CIRCLE: Case = Case {
    text: RING,
    other: "",
    forks: false,
    roots: 4,
    servers: [0, 1],
    clusters: 4,
    places: 38,
    steps: 90,
};

// A child that is born behind a loss gets another pid.
pub static CHILDREN: Case = Case {
    text: SERVER,
    other: "",
    forks: true,
    roots: 3,
    servers: [0, 1],
    clusters: 3,
    places: 26,
    steps: 70,
};

pub static SIGNALS: Case = Case {
    text: SIGNALLED,
    other: "",
    forks: false,
    roots: 2,
    servers: [0, 1],
    clusters: 3,
    places: 34,
    steps: 80,
};

pub const QUARTER: &str = " quarter ";

pub const HALF: &str = " half ";

pub const FULL: &str = " full ";

// The kinds of a run: two losses at places, the same with a return of the first cluster half way between them, both with the second loss
// before a kernel step, and two losses before steps.
const KINDS: u32 = 5;

fn is_of_places(kind: u32) -> bool {
    kind < 2
}

fn has_return(kind: u32) -> bool {
    kind == 1 || kind == 3
}

// Each loss is that of a cluster, at a place or a step.
fn line_of(
    alloc: Global,
    kind: u32,
    (a, p): (u32, u32),
    (b, q): (u32, u32),
) -> Result<String, AllocError> {
    let back = p + q.saturating_sub(p) / 2;
    match kind {
        0 => format!(in alloc; "sim --log crash:{a}@bus:{p} crash:{b}@bus:{q}"),
        1 => {
            format!(in alloc; "sim --log crash:{a}@bus:{p} return:{a}@bus:{back} crash:{b}@bus:{q}")
        }
        2 => format!(in alloc; "sim --log crash:{a}@bus:{p} crash:{b}@step:{q}"),
        3 => {
            format!(in alloc;
                "sim --log crash:{a}@bus:{p} return:{a}@bus:{back} crash:{b}@step:{q}"
            )
        }
        _ => format!(in alloc; "sim --log crash:{a}@step:{p} crash:{b}@step:{q}"),
    }
}

fn assert_pair<R: AllocGlobal + Threads + Wait + Sync>(
    rt: &R,
    subject: &Subject,
    kind: u32,
    first: (u32, u32),
    second: (u32, u32),
) -> Result<(), Fail> {
    let line = line_of(rt.alloc(), kind, first, second)?;
    let _ = explained(rt, subject, line.as_str())?;
    Ok(())
}

// All places of the second loss: those from the first one on, up to some behind the end of the run without a loss; or every fifth step.
fn assert_seconds<R: AllocGlobal + Threads + Wait + Sync>(
    rt: &R,
    subject: &Subject,
    kind: u32,
    (a, p): (u32, u32),
    b: u32,
) -> Result<(), Fail> {
    let case = subject.case;
    if is_of_places(kind) {
        for q in p..case.places.saturating_add(12) {
            assert_pair(rt, subject, kind, (a, p), (b, q))?;
        }
    } else {
        for fifth in 0..case.steps / 5 {
            let q = 5 * fifth + p % 5;
            assert_pair(rt, subject, kind, (a, p), (b, q))?;
        }
    }
    Ok(())
}

// All places of both losses. A cluster is lost twice only where it came back.
fn assert_clusters<R: AllocGlobal + Threads + Wait + Sync>(
    rt: &R,
    subject: &Subject,
    a: u32,
    b: u32,
) -> Result<(), Fail> {
    for kind in 0..KINDS {
        if a != b || has_return(kind) {
            for p in 0..subject.case.places {
                assert_seconds(rt, subject, kind, (a, p), b)?;
            }
        }
    }
    Ok(())
}

fn assert_all<R: AllocGlobal + Threads + Wait + Sync>(
    rt: &R,
    case: &Case,
    mode: &str,
) -> Result<(), Fail> {
    let subject = in_mode(rt, case, mode)?;
    for a in 0..case.clusters {
        for b in 0..case.clusters {
            assert_clusters(rt, &subject, a, b)?;
        }
    }
    Ok(())
}

#[test]
fn two_losses_of_a_conversation(rt: HostRuntime) -> Result<(), Fail> {
    assert_all(&rt, &TALK, QUARTER)?;
    assert_all(&rt, &TALK, HALF)?;
    assert_all(&rt, &TALK, FULL)
}

#[test]
fn two_losses_of_a_ring_of_quarterbacks(rt: HostRuntime) -> Result<(), Fail> {
    assert_all(&rt, &CIRCLE, QUARTER)
}

#[test]
fn two_losses_of_a_ring_of_halfbacks(rt: HostRuntime) -> Result<(), Fail> {
    assert_all(&rt, &CIRCLE, HALF)
}

#[test]
fn two_losses_of_a_ring_of_fullbacks(rt: HostRuntime) -> Result<(), Fail> {
    assert_all(&rt, &CIRCLE, FULL)
}

#[test]
fn two_losses_of_a_server_with_children(rt: HostRuntime) -> Result<(), Fail> {
    assert_all(&rt, &CHILDREN, QUARTER)?;
    assert_all(&rt, &CHILDREN, HALF)?;
    assert_all(&rt, &CHILDREN, FULL)
}

#[test]
fn two_losses_of_a_system_with_signals(rt: HostRuntime) -> Result<(), Fail> {
    assert_all(&rt, &SIGNALS, QUARTER)?;
    assert_all(&rt, &SIGNALS, HALF)?;
    assert_all(&rt, &SIGNALS, FULL)
}
