//! Losses within a recovery: behind each first loss each place up to the last page that was asked for, and a third loss within the
//! recovery of the second, in each mode.
use crate::explained::{Case, Subject, explained, in_mode};
use crate::pairs::{CHILDREN, FULL, HALF, QUARTER, SIGNALS};
use crate::placement::last_page;
use crate::report::parts_of;
use std::alloc::{AllocError, Global};
use std::sync::Wait;
use std::test::Fail;
use std::thread::Threads;

// A process of four pages writes three lines, in four clusters of which the last two serve pages: a recovery asks for four pages.
const LARGE_TEXT: &str =
    "clusters 4\npager 2 3\nsyncreads 32\nsyncsteps 4096\nasm talk 4\nli s1, 3\nagain:\nli a7, 2\nli a0, 0\nla a1, text\nli a2, 2\necall\nla t0, text\nlb t1, 0(t0)\naddi t1, t1, 1\nsb t1, 0(t0)\nsw t1, 256(t0)\nsw t1, 768(t0)\naddi s1, s1, -1\nbne s1, zero, again\nli a7, 1\nli a0, 0\necall\ntext: .ascii \"a\\n\"\nend\nroot 0 1 quarter talk 200 0 0\n";

static LARGE: Case = Case {
    text: LARGE_TEXT,
    other: "",
    forks: false,
    roots: 1,
    servers: [2, 3],
    clusters: 4,
    places: 5,
    steps: 20,
};

// What comes behind the first loss, by its kind: a second loss, with a return of the first cluster before it or behind it, or of the second
// behind it, and a third loss right behind the second or some entries further.
const KINDS: u32 = 5;

fn line_of(
    alloc: Global,
    kind: u32,
    (a, p): (u32, u32),
    (b, q): (u32, u32),
    c: u32,
) -> Result<String, AllocError> {
    let (next, far) = (q.saturating_add(1), q.saturating_add(3));
    match kind {
        0 => format!(in alloc;
            "sim --log crash:{a}@bus:{p} crash:{b}@bus:{q} crash:{c}@bus:{next}"
        ),
        1 => format!(in alloc; "sim --log crash:{a}@bus:{p} crash:{b}@bus:{q} crash:{c}@bus:{far}"),
        2 => {
            format!(in alloc;
                "sim --log crash:{a}@bus:{p} return:{a}@bus:{q} crash:{b}@bus:{next} crash:{c}@bus:{far}"
            )
        }
        3 => {
            format!(in alloc;
                "sim --log crash:{a}@bus:{p} crash:{b}@bus:{q} return:{a}@bus:{next} crash:{c}@bus:{far}"
            )
        }
        _ => {
            format!(in alloc;
                "sim --log crash:{a}@bus:{p} crash:{b}@bus:{q} return:{b}@bus:{next} crash:{c}@bus:{far}"
            )
        }
    }
}

// The second loss at one place of the recovery, and any third one.
fn assert_cut<R: AllocGlobal + Threads + Wait + Sync>(
    rt: &R,
    subject: &Subject,
    first: (u32, u32),
    second: (u32, u32),
) -> Result<(), Fail> {
    for kind in 0..KINDS {
        for third in 0..subject.case.clusters {
            let line = line_of(rt.alloc(), kind, first, second, third)?;
            let _ = explained(rt, subject, line.as_str())?;
        }
    }
    Ok(())
}

// All places from the loss to the last page of its recovery, and the one behind it.
fn assert_recovery<R: AllocGlobal + Threads + Wait + Sync>(
    rt: &R,
    subject: &Subject,
    a: u32,
    p: u32,
) -> Result<(), Fail> {
    let line = format!(in rt.alloc(); "sim --log crash:{a}@bus:{p}")?;
    let report = explained(rt, subject, line.as_str())?;
    let last = last_page(parts_of(report.as_slice()).log).min(1000);
    for q in p..last + 2 {
        for b in 0..subject.case.clusters {
            assert_cut(rt, subject, (a, p), (b, q))?;
        }
    }
    Ok(())
}

fn assert_all<R: AllocGlobal + Threads + Wait + Sync>(
    rt: &R,
    case: &Case,
    mode: &str,
) -> Result<(), Fail> {
    let subject = in_mode(rt, case, mode)?;
    for a in 0..case.clusters {
        for p in 0..case.places {
            assert_recovery(rt, &subject, a, p)?;
        }
    }
    Ok(())
}

#[test]
fn losses_within_the_recovery_of_four_pages(rt: HostRuntime) -> Result<(), Fail> {
    assert_all(&rt, &LARGE, QUARTER)?;
    assert_all(&rt, &LARGE, HALF)?;
    assert_all(&rt, &LARGE, FULL)
}

#[test]
fn losses_within_the_recovery_of_a_family(rt: HostRuntime) -> Result<(), Fail> {
    assert_all(&rt, &CHILDREN, HALF)?;
    assert_all(&rt, &CHILDREN, FULL)
}

#[test]
fn losses_within_the_recovery_of_one_that_took_signals(rt: HostRuntime) -> Result<(), Fail> {
    assert_all(&rt, &SIGNALS, HALF)?;
    assert_all(&rt, &SIGNALS, FULL)
}
