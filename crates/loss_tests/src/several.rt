//! Several losses in one run: what is printed where one is not covered, and each pair of places of two losses of a conversation and of a ring.
use program_calls::{answer, assert_answer};
use std::sync::Wait;
use std::test::Fail;
use std::thread::Threads;
use test_asserts::same;
use test_systems::{CONVERSATION, HI, RING, TWO};

const HI_NONE_SAID: &str = "tty 0 0\n\npid 16 running\n";

const HI_SAID: &str = "tty 0 3\nhi\n\npid 16 running\n";

// Two words at one place are looked at in their order, and a word for a cluster that was lost has no effect.
static ENDED: [(&[u8], &str, &str, &str); 8] = [
    (
        b"sim crash:0@bus:0 crash:1@bus:0",
        HI,
        HI_NONE_SAID,
        "crash 0 at 0\ncrash 1 at 1\nlost 1 at 1\nbus 2 syncs 0 withheld 0\nschedule 0\n",
    ),
    (
        b"sim crash:1@bus:0 crash:0@bus:0",
        HI,
        HI_NONE_SAID,
        "crash 1 at 0\ncrash 0 at 1\nlost 0 at 1\nbus 2 syncs 0 withheld 0\nschedule 0\n",
    ),
    (
        b"run crash:1@bus:0 crash:0@bus:0",
        HI,
        HI_NONE_SAID,
        "crash 1 at 0\ncrash 0 at 1\nlost 0 at 1\nbus 2 syncs 0 withheld 0\nschedule 0\n",
    ),
    (
        b"sim crash:0@bus:0 crash:0@bus:0 crash:1@bus:1",
        HI,
        HI_NONE_SAID,
        "crash 0 at 0\ncrash 1 at 1\nlost 1 at 1\nbus 2 syncs 0 withheld 0\nschedule 0\n",
    ),
    (
        b"sim crash:0@bus:1 disk:1@1",
        HI,
        HI_SAID,
        "crash 0 at 1\ncrash 1 at 3\nlost 1 at 3\nbus 4 syncs 0 withheld 1\nschedule 1\nrun 16 6\n",
    ),
    (
        b"sim crash:0@step:2 crash:1@step:2",
        HI,
        HI_SAID,
        "crash 0 at 1\ncrash 1 at 2\nlost 1 at 2\nbus 3 syncs 0 withheld 1\nschedule 1\nrun 16 6\n",
    ),
    (
        b"sim crash:0@bus:1 crash:1@bus:4",
        TWO,
        "tty 0 2\na\n\npid 16 running\n",
        "crash 0 at 1\ncrash 1 at 4\nlost 1 at 4\nbus 5 syncs 0 withheld 1\nschedule 1\nrun 16 6\n",
    ),
    (
        b"run crash:0@bus:1 crash:1@bus:4",
        TWO,
        "tty 0 2\na\n\npid 16 running\n",
        "crash 0 at 1\ncrash 1 at 4\nlost 1 at 4\nbus 5 syncs 0 withheld 1\nschedule 1\nrun 16 6\n",
    ),
];

// The report stands in parts.
fn assert_ended<R: AllocGlobal + Threads + Wait + Sync>(
    rt: &R,
    line: &[u8],
    text: &str,
    parts: &[&str],
) -> Result<(), Fail> {
    let report = parts.concat(rt.alloc())?;
    assert_answer(rt, line, text, 7, report.as_str())
}

#[test]
fn a_loss_that_is_not_covered_ends_the_run(rt: HostRuntime) -> Result<(), Fail> {
    for row in ENDED.iter() {
        assert_ended(&rt, row.0, row.1, &[row.2, row.3])?;
    }
    Ok(())
}

// A full process that writes three lines, in a system with four clusters.
const FULL: &str =
    "clusters 4\npager 2 3\nsyncreads 32\nsyncsteps 4096\nasm talk 1\nli s1, 3\nagain:\nli a7, 2\nli a0, 0\nla a1, text\nli a2, 2\necall\nla t0, text\nlb t1, 0(t0)\naddi t1, t1, 1\nsb t1, 0(t0)\naddi s1, s1, -1\nbne s1, zero, again\nli a7, 1\nli a0, 0\necall\ntext: .ascii \"a\\n\"\nend\nroot 0 1 full talk 200 0 0\n";

// Behind a loss of its home it gets a new backup, at the next place of the log: so a second and a third home may be lost, but not before that.
// Each recovery begins at its start and withholds what was sent before, which is counted each time.
static RENEWED: [(&[u8], u8, &str); 6] = [
    (
        b"sim crash:0@bus:1 crash:1@bus:2",
        7,
        "tty 0 2\na\n\npid 16 running\ncrash 0 at 1\ncrash 1 at 2\nlost 1 at 2\nbus 3 syncs 0 withheld 1\nschedule 1\nrun 16 7\n",
    ),
    (
        b"sim crash:0@bus:1 crash:1@bus:3",
        0,
        "tty 0 6\na\nb\nc\n\npid 16 exit 0\ncrash 0 at 1\ncrash 1 at 3\nbus 11 syncs 0 withheld 2\nschedule 4\nrun 16 7\nrun 16 13\nrun 16 13\nrun 16 11\n",
    ),
    (
        b"run crash:0@bus:1 crash:1@bus:4",
        0,
        "tty 0 6\na\nb\nc\n\npid 16 exit 0\ncrash 0 at 1\ncrash 1 at 4\nbus 12 syncs 0 withheld 2\nschedule 4\nrun 16 7\nrun 16 13\nrun 16 13\nrun 16 11\n",
    ),
    (
        b"sim crash:0@bus:1 crash:1@bus:6",
        0,
        "tty 0 6\na\nb\nc\n\npid 16 exit 0\ncrash 0 at 1\ncrash 1 at 6\nbus 13 syncs 0 withheld 3\nschedule 4\nrun 16 7\nrun 16 13\nrun 16 13\nrun 16 11\n",
    ),
    (
        b"sim crash:0@bus:1 crash:1@bus:4 crash:2@bus:9",
        0,
        "tty 0 6\na\nb\nc\n\npid 16 exit 0\ncrash 0 at 1\ncrash 1 at 4\ncrash 2 at 9\nbus 15 syncs 0 withheld 4\nschedule 4\nrun 16 7\nrun 16 13\nrun 16 13\nrun 16 11\n",
    ),
    (
        b"run crash:0@bus:1 crash:1@bus:4 crash:2@bus:8",
        0,
        "tty 0 6\na\nb\nc\n\npid 16 exit 0\ncrash 0 at 1\ncrash 1 at 4\ncrash 2 at 8\nbus 15 syncs 0 withheld 3\nschedule 4\nrun 16 7\nrun 16 13\nrun 16 13\nrun 16 11\n",
    ),
];

#[test]
fn a_full_process_that_was_moved_is_covered_again(rt: HostRuntime) -> Result<(), Fail> {
    for (line, status, report) in RENEWED {
        assert_answer(&rt, line, FULL, status, report)?;
    }
    Ok(())
}

// A system, what its report begins with where the run comes to its end, how many clusters it has, which pair of them is not that of a root or of
// the pages, if one is, and more places than its log has.
pub struct Case {
    text: &'static str,
    fronts: [&'static str; 2],
    clusters: u32,
    covered: [(u32, u32); 2],
    most: u32,
    stride: u32,
}

pub static TALK: Case = Case {
    text: CONVERSATION,
    fronts: [
        "tty 0 20\ncluster 1\ncluster 2\n\ntty 1 0\n\ntty 2 0\n\npid 16 exit 0\npid 17 exit 1\npid 18 exit 1\ncrash ",
        "tty 0 20\ncluster 2\ncluster 1\n\ntty 1 0\n\ntty 2 0\n\npid 16 exit 0\npid 17 exit 1\npid 18 exit 1\ncrash ",
    ],
    clusters: 3,
    covered: NO_PAIR,
    most: 30,
    stride: 1,
};

static CIRCLE: Case = Case {
    text: RING,
    fronts: [ROUND, ROUND],
    clusters: 4,
    covered: [(0, 2), (1, 3)],
    most: 60,
    stride: 4,
};

const NO_PAIR: [(u32, u32); 2] = [(0, 0), (0, 0)];

const ROUND: &str =
    "tty 0 6\nd\nh\nl\n\ntty 1 6\na\ne\ni\n\ntty 2 6\nb\nf\nj\n\ntty 3 6\nc\ng\nk\n\npid 16 exit 0\npid 17 exit 0\npid 18 exit 0\npid 19 exit 0\ncrash ";

// Where these bytes first stand in a report.
fn place_of(report: &[u8], mark: &[u8]) -> Option<usize> {
    report
        .windows(mark.len().max(1))
        .position(|part| part == mark)
}

// Where the status is 0 the report begins as that of the run without a loss; where it is 7, which may not be where the losses are covered, it
// tells of the loss that ended the run. Either way its schedule makes `plain` print the same terminals and processes.
pub fn assert_lost<R: AllocGlobal + Threads + Wait + Sync>(
    rt: &R,
    line: &[u8],
    case: &Case,
    covered: bool,
) -> Result<(), Fail> {
    let (status, report) = answer(rt, line, case.text.as_bytes())?;
    assert_status(line, case, covered, status, report.as_slice())?;
    assert_plain(rt, line, case.text, report.as_slice())
}

fn assert_status(
    line: &[u8],
    case: &Case,
    covered: bool,
    status: u8,
    report: &[u8],
) -> Result<(), Fail> {
    let wanted = if !covered && place_of(report, b"\nlost ").is_some() {
        (7, true)
    } else {
        (0, begins(report, case))
    };
    same("the status", &(line, (status, true)), &(line, wanted))
}

fn begins(report: &[u8], case: &Case) -> bool {
    let [first, second] = case.fronts;
    report.starts_with(first.as_bytes()) || report.starts_with(second.as_bytes())
}

fn assert_plain<R: AllocGlobal + Threads + Wait + Sync>(
    rt: &R,
    line: &[u8],
    text: &str,
    report: &[u8],
) -> Result<(), Fail> {
    let (Some(losses), Some(schedule)) = (
        place_of(report, b"\ncrash "),
        place_of(report, b"\nschedule "),
    ) else {
        return Err(Fail::new("no schedule"));
    };
    let schedule = report.get(schedule..).unwrap_or(b"");
    let head = report.get(..=losses).unwrap_or(b"");
    let plain = plain_of(rt, text, schedule)?;
    same(
        "what plain prints",
        &(line, plain.as_slice()),
        &(line, head),
    )
}

// What `plain` prints of a text with this schedule behind it.
fn plain_of<R: AllocGlobal + Threads + Wait + Sync>(
    rt: &R,
    text: &str,
    schedule: &[u8],
) -> Result<Vec<u8>, Fail> {
    let whole = [text.as_bytes(), schedule].concat(rt.alloc())?;
    let (_, plain) = answer(rt, b"plain", whole.as_slice())?;
    Ok(plain)
}

// Two losses of two clusters, at each pair of places.
fn assert_pairs<R: AllocGlobal + Threads + Wait + Sync>(
    rt: &R,
    case: &Case,
    first: u32,
    second: u32,
) -> Result<(), Fail> {
    let pair = (first.min(second), first.max(second));
    let pairs = case.covered;
    let covered = pairs[0] == pair || pairs[1] == pair;
    for p in 0..case.most {
        for q in 0..case.most {
            if q % case.stride.max(1) == p % case.stride.max(1) {
                assert_pair(rt, case, covered, (first, p), (second, q))?;
            }
        }
    }
    Ok(())
}

// Each loss is that of a cluster at a place.
fn assert_pair<R: AllocGlobal + Threads + Wait + Sync>(
    rt: &R,
    case: &Case,
    covered: bool,
    (first, p): (u32, u32),
    (second, q): (u32, u32),
) -> Result<(), Fail> {
    let line = format!(in rt.alloc(); "sim crash:{first}@bus:{p} crash:{second}@bus:{q}")?;
    assert_lost(rt, line.as_bytes(), case, covered)
}

fn assert_all_pairs<R: AllocGlobal + Threads + Wait + Sync>(
    rt: &R,
    case: &Case,
) -> Result<(), Fail> {
    for first in 0..case.clusters {
        for second in 0..first {
            assert_pairs(rt, case, first, second)?;
        }
    }
    Ok(())
}

#[test]
fn two_losses_at_each_pair_of_places(rt: HostRuntime) -> Result<(), Fail> {
    assert_all_pairs(&rt, &TALK)?;
    assert_all_pairs(&rt, &CIRCLE)
}

fn assert_three<R: AllocGlobal + Threads + Wait + Sync>(rt: &R, n: u32) -> Result<(), Fail> {
    let m = n / 2;
    let line = format!(in rt.alloc(); "sim crash:2@bus:{m} crash:0@bus:{n} crash:1@step:{n}")?;
    assert_lost(rt, line.as_bytes(), &CIRCLE, false)
}

// Three losses of a ring, of which the third ends the run or comes too late.
#[test]
fn three_losses_of_a_ring(rt: HostRuntime) -> Result<(), Fail> {
    for n in 0..60 {
        assert_three(&rt, n)?;
    }
    Ok(())
}
