//! Words that are due at one place, in both orders, and as many words as there may be, and one more.
use crate::explained::{Case, Subject, explained, in_mode};
use crate::pairs::{CHILDREN, CIRCLE, FULL, HALF, QUARTER, SIGNALS, TALK};
use crate::report::place_of;
use program_calls::assert_answer;
use std::alloc::{AllocError, Global};
use std::sync::Wait;
use std::test::Fail;
use std::thread::Threads;
use test_asserts::same;
use test_systems::HI;

// Two words at one place, and what is told of the second where the first is.
fn at_one_place(
    alloc: Global,
    kind: u32,
    a: u32,
    b: u32,
    p: u32,
) -> Result<[String; 2], AllocError> {
    let next = p.saturating_add(1);
    Ok(match kind {
        0 => [
            format!(in alloc; "sim --log crash:{a}@bus:{p} crash:{b}@bus:{p}")?,
            format!(in alloc; "\ncrash {a} at {p}\ncrash {b} at {next}\n")?,
        ],
        1 => [
            format!(in alloc; "sim --log crash:{a}@bus:{p} return:{a}@bus:{p}")?,
            format!(in alloc; "\ncrash {a} at {p}\nreturn {a} at {next}\nbus ")?,
        ],
        2 => [
            format!(in alloc; "sim --log return:{a}@bus:{p} crash:{a}@bus:{p}")?,
            format!(in alloc; "\ncrash {a} at {p}\nbus ")?,
        ],
        _ => [
            format!(in alloc; "sim --log return:{b}@bus:{p} crash:{a}@bus:{p}")?,
            format!(in alloc; "\ncrash {a} at {p}\nbus ")?,
        ],
    })
}

// The first loss of a run of these systems is covered, so that the second word is looked at where the run comes to that place at all.
fn assert_order<R: AllocGlobal + Threads + Wait + Sync>(
    rt: &R,
    subject: &Subject,
    words: &[String; 2],
) -> Result<(), Fail> {
    let [line, told] = words;
    let report = explained(rt, subject, line.as_str())?;
    let found = place_of(report.as_slice(), told.as_bytes()).is_some();
    let none = place_of(report.as_slice(), b"\ncrash none\n").is_some();
    same(
        "the order of two words",
        &(line.as_str(), found || none),
        &(line.as_str(), true),
    )
}

fn assert_two<R: AllocGlobal + Threads + Wait + Sync>(
    rt: &R,
    subject: &Subject,
    a: u32,
    b: u32,
) -> Result<(), Fail> {
    for kind in 0..4 {
        for p in 0..subject.case.places {
            let words = at_one_place(rt.alloc(), kind, a, b, p)?;
            assert_order(rt, subject, &words)?;
        }
    }
    Ok(())
}

fn assert_both_orders<R: AllocGlobal + Threads + Wait + Sync>(
    rt: &R,
    case: &Case,
    mode: &str,
) -> Result<(), Fail> {
    let subject = in_mode(rt, case, mode)?;
    for a in 0..case.clusters {
        for b in 0..case.clusters {
            if a != b {
                assert_two(rt, &subject, a, b)?;
            }
        }
    }
    Ok(())
}

#[test]
fn two_words_at_one_place_in_both_orders(rt: HostRuntime) -> Result<(), Fail> {
    assert_both_orders(&rt, &TALK, QUARTER)?;
    assert_both_orders(&rt, &CIRCLE, HALF)?;
    assert_both_orders(&rt, &CHILDREN, FULL)?;
    assert_both_orders(&rt, &SIGNALS, FULL)
}

// So many words: each cluster in turn is lost at a place and comes back some entries later.
fn many(
    alloc: Global,
    command: &str,
    words: u32,
    gap: u32,
    clusters: u32,
) -> Result<String, AllocError> {
    let mut line = command.to_string(alloc)?;
    for word in 0..words.min(100) {
        let cluster = (word / 2) % clusters.max(1);
        let place = (word / 2).saturating_mul(gap);
        let next = if word % 2 == 0 {
            format!(in alloc; " crash:{cluster}@bus:{place}")?
        } else {
            format!(in alloc; " return:{cluster}@bus:{}", place.saturating_add(2))?
        };
        line.push_str(next.as_str())?;
    }
    Ok(line)
}

fn assert_many<R: AllocGlobal + Threads + Wait + Sync>(
    rt: &R,
    case: &Case,
    mode: &str,
) -> Result<(), Fail> {
    let subject = in_mode(rt, case, mode)?;
    for gap in 1..12 {
        let line = many(rt.alloc(), "sim --log", 32, gap, case.clusters)?;
        let _ = explained(rt, &subject, line.as_str())?;
        let line = many(rt.alloc(), "run --log", 32, gap, case.clusters)?;
        let _ = explained(rt, &subject, line.as_str())?;
    }
    Ok(())
}

#[test]
fn as_many_words_as_there_may_be_by_sim_and_run(rt: HostRuntime) -> Result<(), Fail> {
    for case in [&TALK, &CIRCLE, &CHILDREN, &SIGNALS] {
        assert_many(&rt, case, QUARTER)?;
        assert_many(&rt, case, HALF)?;
        assert_many(&rt, case, FULL)?;
    }
    Ok(())
}

fn assert_too_many<R: AllocGlobal + Threads + Wait + Sync>(
    rt: &R,
    command: &str,
) -> Result<(), Fail> {
    let line = many(rt.alloc(), command, 33, 1, 2)?;
    assert_answer(rt, line.as_bytes(), HI, 1, "t32: usage\n")
}

#[test]
fn one_word_more_is_usage(rt: HostRuntime) -> Result<(), Fail> {
    for command in ["sim", "run", "load 1", "load 1 --text"] {
        assert_too_many(&rt, command)?;
    }
    Ok(())
}
