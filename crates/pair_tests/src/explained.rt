//! What is wanted of a run by any words that lose clusters and bring them back: it ends with status 0 or, where its own log tells of a loss
//! that was not covered, with 7; its terminals and processes are those that `plain` prints on the text with the printed schedule behind it;
//! and where it came to its end, they are also those of the text alone, or of its other order.
use crate::placement::{Placement, status_by};
use crate::report::{Parts, parts_of, place_of};
use program_calls::answer;
use std::sync::Wait;
use std::test::Fail;
use std::thread::Threads;
use test_asserts::same;

/// A system: its text with the mode `quarter`, what it prints where its letters come in another order, whether its processes may get other
/// pids, how many roots it has, its page servers and clusters, and some more than the places of its log and the steps of its clusters
/// without a loss.
pub struct Case {
    pub text: &'static str,
    pub other: &'static str,
    pub forks: bool,
    pub roots: u32,
    pub servers: [u32; 2],
    pub clusters: u32,
    pub places: u32,
    pub steps: u32,
}

/// A case in a mode: the text, and what `plain` prints of it alone.
#[derive(Drop)]
pub struct Subject<'a> {
    pub case: &'a Case,
    text: String,
    alone: Vec<u8>,
}

pub fn in_mode<'a, R: AllocGlobal + Threads + Wait + Sync>(
    rt: &R,
    case: &'a Case,
    mode: &str,
) -> Result<Subject<'a>, Fail> {
    let text = case.text.replace(rt.alloc(), " quarter ", mode)?;
    let (_, alone) = answer(rt, b"plain", text.as_bytes())?;
    Ok(Subject { case, text, alone })
}

/// The words, which have `--log` among them, are explained: the report.
pub fn explained<R: AllocGlobal + Threads + Wait + Sync>(
    rt: &R,
    subject: &Subject,
    line: &str,
) -> Result<Vec<u8>, Fail> {
    let (status, report) = answer(rt, line.as_bytes(), subject.text.as_bytes())?;
    assert_explained(rt, subject, line, status, &parts_of(report.as_slice()))?;
    Ok(report)
}

fn assert_explained<R: AllocGlobal + Threads + Wait + Sync>(
    rt: &R,
    subject: &Subject,
    line: &str,
    status: u8,
    report: &Parts,
) -> Result<(), Fail> {
    assert_status(rt, subject.case, line, status, report)?;
    assert_plain(rt, subject, line, report)?;
    let head = report.head;
    same(
        "what is said at the end",
        &(line, head, status == 7 || is_said(subject, head)),
        &(line, head, true),
    )
}

fn assert_status<R: AllocGlobal + Threads + Wait + Sync>(
    rt: &R,
    case: &Case,
    line: &str,
    status: u8,
    report: &Parts,
) -> Result<(), Fail> {
    let placement = Placement::at_start(rt.alloc(), case.roots, case.clusters, case.servers)?;
    let wanted = status_by(placement, report.log)?;
    let is_lost = place_of(report.turns, b"\nlost ").is_some();
    same(
        "the status",
        &(line, Some(status), is_lost),
        &(line, wanted, status == 7),
    )
}

fn assert_plain<R: AllocGlobal + Threads + Wait + Sync>(
    rt: &R,
    subject: &Subject,
    line: &str,
    report: &Parts,
) -> Result<(), Fail> {
    let whole = [subject.text.as_bytes(), report.schedule].concat(rt.alloc())?;
    let (_, plain) = answer(rt, b"plain", whole.as_slice())?;
    same(
        "what plain prints",
        &(line, plain.as_slice()),
        &(line, report.head),
    )
}

// What a run that came to its end says is what is said without clusters, or in the other order.
fn is_said(subject: &Subject, head: &[u8]) -> bool {
    let alone = subject.alone.as_slice();
    if subject.case.forks {
        return terminals_in(head) == terminals_in(alone) && ends_in(head) == ends_in(alone);
    }
    head == alone || head == subject.case.other.as_bytes()
}

fn terminals_in(head: &[u8]) -> &[u8] {
    let at = place_of(head, b"\npid ").unwrap_or(0);
    head.get(..at).unwrap_or(b"")
}

// How many processes ended with exit 0.
fn ends_in(head: &[u8]) -> usize {
    let mark = b" exit 0\n".as_slice();
    head.windows(mark.len())
        .filter(|part| *part == mark)
        .count()
}
