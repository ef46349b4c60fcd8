//! Each loss of a talk of two, of a conversation of three and of a ring of four, of processes with children, and of signals, by `sim`, and
//! losses at random by `run`, where processes synchronise after each letter that they read, and where they do so seldom. What is wanted stands in
//! the systems: in the conversation the asker hears two answers, in either order, and all others have one order of letters alone.
use program_calls::answer;
use std::alloc::{AllocError, Global};
use std::sync::Wait;
use std::test::Fail;
use std::thread::Threads;
use test_asserts::same;
use test_systems::{
    CHAIN, CONVERSATION, EARLY, FORKER, RING, SERVER, SIGNALLED, SIGNALLER, TALK, TREE,
};

// What a report of the talk begins with.
const SAID: &str = "tty 0 2\nx\n\npid 16 exit 0\npid 17 exit 0\n";

// What a report of the conversation begins with, by which of the two answers the asker hears first.
const FIRST_FIRST: &str =
    "tty 0 20\ncluster 1\ncluster 2\n\ntty 1 0\n\ntty 2 0\n\npid 16 exit 0\npid 17 exit 1\npid 18 exit 1\n";

const SECOND_FIRST: &str =
    "tty 0 20\ncluster 2\ncluster 1\n\ntty 1 0\n\ntty 2 0\n\npid 16 exit 0\npid 17 exit 1\npid 18 exit 1\n";

const ROUND: &str =
    "tty 0 6\nd\nh\nl\n\ntty 1 6\na\ne\ni\n\ntty 2 6\nb\nf\nj\n\ntty 3 6\nc\ng\nk\n\npid 16 exit 0\npid 17 exit 0\npid 18 exit 0\npid 19 exit 0\n";

const ONE_CHILD: &str = "tty 0 2\nc\n\n";

const GENERATIONS: &str = "tty 0 8\na\nb\nc\nd\n\n";

const LEAVES: &str = "tty 0 4\nabcd\n";

const SERVED: &str = "tty 0 0\n\ntty 1 6\nHELLO\n\ntty 2 6\nAGAIN\n\n";

const STRUCK: &str = "tty 0 2\ns\n\npid 16 exit 0\n";

const UNSTRUCK: &str = "tty 0 0\n\n";

const KILLED: &str = "tty 0 2\nab\ntty 1 2\nk\n\npid 16 killed 7\npid 17 exit 0\n";

// A system, how many letters a process of it may read between two synchronisations, what its report begins with, how many processes follow
// there, all ended with exit 0, of which some have a pid by where they were born, how many clusters the system has, and more places and
// steps than any of them has.
struct Case {
    text: &'static str,
    reads: u32,
    fronts: [&'static str; 2],
    exits: u32,
    clusters: u32,
    most: u32,
}

static CASES: [Case; 16] = [
    Case {
        text: TALK,
        reads: 1,
        fronts: [SAID, SAID],
        exits: 0,
        clusters: 2,
        most: 24,
    },
    Case {
        text: TALK,
        reads: 32,
        fronts: [SAID, SAID],
        exits: 0,
        clusters: 2,
        most: 18,
    },
    Case {
        text: CONVERSATION,
        reads: 1,
        fronts: [FIRST_FIRST, SECOND_FIRST],
        exits: 0,
        clusters: 3,
        most: 60,
    },
    Case {
        text: CONVERSATION,
        reads: 32,
        fronts: [FIRST_FIRST, SECOND_FIRST],
        exits: 0,
        clusters: 3,
        most: 40,
    },
    Case {
        text: RING,
        reads: 1,
        fronts: [ROUND, ROUND],
        exits: 0,
        clusters: 4,
        most: 130,
    },
    Case {
        text: RING,
        reads: 32,
        fronts: [ROUND, ROUND],
        exits: 0,
        clusters: 4,
        most: 90,
    },
    Case {
        text: FORKER,
        reads: 32,
        fronts: [ONE_CHILD, ONE_CHILD],
        exits: 2,
        clusters: 2,
        most: 40,
    },
    Case {
        text: CHAIN,
        reads: 32,
        fronts: [GENERATIONS, GENERATIONS],
        exits: 4,
        clusters: 3,
        most: 90,
    },
    Case {
        text: TREE,
        reads: 1,
        fronts: [LEAVES, LEAVES],
        exits: 7,
        clusters: 2,
        most: 260,
    },
    Case {
        text: TREE,
        reads: 32,
        fronts: [LEAVES, LEAVES],
        exits: 7,
        clusters: 2,
        most: 160,
    },
    Case {
        text: SERVER,
        reads: 1,
        fronts: [SERVED, SERVED],
        exits: 5,
        clusters: 3,
        most: 140,
    },
    Case {
        text: SERVER,
        reads: 32,
        fronts: [SERVED, SERVED],
        exits: 5,
        clusters: 3,
        most: 90,
    },
    Case {
        text: SIGNALLER,
        reads: 32,
        fronts: [STRUCK, STRUCK],
        exits: 0,
        clusters: 2,
        most: 16,
    },
    Case {
        text: EARLY,
        reads: 32,
        fronts: [UNSTRUCK, UNSTRUCK],
        exits: 2,
        clusters: 2,
        most: 24,
    },
    Case {
        text: SIGNALLED,
        reads: 1,
        fronts: [KILLED, KILLED],
        exits: 0,
        clusters: 3,
        most: 90,
    },
    Case {
        text: SIGNALLED,
        reads: 32,
        fronts: [KILLED, KILLED],
        exits: 0,
        clusters: 3,
        most: 60,
    },
];

// The table stands in one function alone: each that names it pays for its rows.
fn cases() -> &'static [Case; 16] {
    &CASES
}

// The system of a case, with its number of letters in the place of that in the text.
fn system(alloc: Global, case: &Case) -> Result<Vec<u8>, Fail> {
    let old = header(alloc, case.clusters, 32)?;
    let Some(rest) = case.text.as_bytes().strip_prefix(old.as_bytes()) else {
        return Err(Fail::new("another header"));
    };
    Ok(with_header(alloc, case, rest)?)
}

fn header(alloc: Global, clusters: u32, reads: u32) -> Result<String, AllocError> {
    format!(in alloc; "clusters {clusters}\npager 0 1\nsyncreads {reads}\n")
}

fn with_header(alloc: Global, case: &Case, rest: &[u8]) -> Result<Vec<u8>, AllocError> {
    let header = header(alloc, case.clusters, case.reads)?;
    [header.as_bytes(), rest].concat(alloc)
}

// The part of a report behind a front and so many processes that ended with exit 0, where that begins with the losses.
fn behind<'a>(report: &'a [u8], fronts: &[&str; 2], exits: u32) -> Option<&'a [u8]> {
    let mut rest = match report.strip_prefix(fronts[0].as_bytes()) {
        Some(rest) => rest,
        None => report.strip_prefix(fronts[1].as_bytes())?,
    };
    for _ in 0..exits {
        rest = behind_exit(rest)?;
    }
    if rest.starts_with(b"crash ") {
        Some(rest)
    } else {
        None
    }
}

// The part behind a first line that tells of a process which ended with exit 0.
fn behind_exit(report: &[u8]) -> Option<&[u8]> {
    let number = report.strip_prefix(b"pid ".as_slice())?;
    let digits = number.iter().position(|b| !b.is_ascii_digit())?;
    number.get(digits..)?.strip_prefix(b" exit 0\n".as_slice())
}

// The schedule of a report, which begins with the line `crash`.
fn schedule_in(rest: &[u8]) -> Option<&[u8]> {
    let mark = b"\nschedule ".as_slice();
    let at = rest.windows(mark.len()).position(|part| part == mark)?;
    rest.get(at + 1..)
}

// The words end with status 0. What is printed begins as the case says, then comes the loss, and its schedule makes `plain`
// print the same.
fn assert_lost<R: AllocGlobal + Threads + Wait + Sync>(
    rt: &R,
    line: &[u8],
    case: &Case,
) -> Result<(), Fail> {
    let text = system(rt.alloc(), case)?;
    assert_run(rt, line, text.as_slice(), &case.fronts, case.exits)
}

// The same of a text, by the fronts of its report and how many processes that ended with exit 0 follow.
fn assert_run<R: AllocGlobal + Threads + Wait + Sync>(
    rt: &R,
    line: &[u8],
    text: &[u8],
    fronts: &[&str; 2],
    exits: u32,
) -> Result<(), Fail> {
    let (status, report) = answer(rt, line, text)?;
    same("the status", &status, &0)?;
    assert_report(rt, text, report.as_slice(), fronts, exits)
}

fn assert_report<R: AllocGlobal + Threads + Wait + Sync>(
    rt: &R,
    text: &[u8],
    report: &[u8],
    fronts: &[&str; 2],
    exits: u32,
) -> Result<(), Fail> {
    let Some(rest) = behind(report, fronts, exits) else {
        return Err(Fail::new("another front"));
    };
    let Some(schedule) = schedule_in(rest) else {
        return Err(Fail::new("no schedule"));
    };
    let begins = report.strip_suffix(rest).unwrap_or(b"".as_slice());
    let plain = plain_of(rt, text, schedule)?;
    same("what plain prints", &plain.as_slice(), &begins)
}

// What `plain` prints of a text with this schedule behind it.
fn plain_of<R: AllocGlobal + Threads + Wait + Sync>(
    rt: &R,
    text: &[u8],
    schedule: &[u8],
) -> Result<Vec<u8>, Fail> {
    let whole = [text, schedule].concat(rt.alloc())?;
    let (_, plain) = answer(rt, b"plain", whole.as_slice())?;
    Ok(plain)
}

fn assert_each<R: AllocGlobal + Threads + Wait + Sync>(
    rt: &R,
    pick: u32,
    at: &str,
) -> Result<(), Fail> {
    for case in cases() {
        assert_each_in(rt, pick, at, case)?;
    }
    Ok(())
}

fn assert_each_in<R: AllocGlobal + Threads + Wait + Sync>(
    rt: &R,
    pick: u32,
    at: &str,
    case: &Case,
) -> Result<(), Fail> {
    for k in 0..case.clusters {
        assert_each_of(rt, pick, at, case, k)?;
    }
    Ok(())
}

// The losses of one cluster.
fn assert_each_of<R: AllocGlobal + Threads + Wait + Sync>(
    rt: &R,
    pick: u32,
    at: &str,
    case: &Case,
    k: u32,
) -> Result<(), Fail> {
    for n in 0..case.most {
        assert_one(rt, pick, at, case, (k, n))?;
    }
    Ok(())
}

fn assert_one<R: AllocGlobal + Threads + Wait + Sync>(
    rt: &R,
    pick: u32,
    at: &str,
    case: &Case,
    (k, n): (u32, u32),
) -> Result<(), Fail> {
    let line = format!(in rt.alloc(); "sim --pick {pick} crash:{k}@{at}:{n}")?;
    assert_lost(rt, line.as_bytes(), case)
}

#[test]
fn a_loss_at_each_place(rt: HostRuntime) -> Result<(), Fail> {
    assert_each(&rt, 0, "bus")
}

#[test]
fn a_loss_at_each_place_in_another_order(rt: HostRuntime) -> Result<(), Fail> {
    assert_each(&rt, 1, "bus")
}

#[test]
fn a_loss_before_each_step(rt: HostRuntime) -> Result<(), Fail> {
    assert_each(&rt, 0, "step")
}

#[test]
fn a_loss_before_each_step_in_another_order(rt: HostRuntime) -> Result<(), Fail> {
    assert_each(&rt, 1, "step")
}

fn assert_each_call<R: AllocGlobal + Threads + Wait + Sync>(
    rt: &R,
    case: &Case,
) -> Result<(), Fail> {
    for number in 0..80 {
        assert_call(rt, case, number)?;
    }
    Ok(())
}

fn assert_call<R: AllocGlobal + Threads + Wait + Sync>(
    rt: &R,
    case: &Case,
    number: u32,
) -> Result<(), Fail> {
    let k = number % 2;
    let pick = number / 2 % 2;
    let n = number / 4;
    let line = format!(in rt.alloc(); "sim --pick {pick} disk:{k}@{n}")?;
    assert_lost(rt, line.as_bytes(), case)
}

// The page servers are the first two clusters of each system.
#[test]
fn a_loss_by_each_disk_call(rt: HostRuntime) -> Result<(), Fail> {
    for case in cases() {
        assert_each_call(&rt, case)?;
    }
    Ok(())
}

fn random_line(alloc: Global, case: &Case, seed: u32) -> Result<String, AllocError> {
    let k = (seed >> 16) % case.clusters.max(1);
    let n = (seed >> 8) % case.most.max(1);
    match (seed >> 6) & 3 {
        0 => format!(in alloc; "run crash:{k}@bus:{n}"),
        1 => format!(in alloc; "run disk:{}@{}", k % 2, n % 20),
        _ => format!(in alloc; "run crash:{k}@step:{n}"),
    }
}

fn assert_random<R: AllocGlobal + Threads + Wait + Sync>(
    rt: &R,
    case: &Case,
    seed: u32,
) -> Result<(), Fail> {
    let line = random_line(rt.alloc(), case, seed)?;
    assert_lost(rt, line.as_bytes(), case)
}

#[test]
fn losses_at_random_on_threads(rt: HostRuntime) -> Result<(), Fail> {
    let mut seed: u32 = 1;
    for round in 0..200 {
        seed = seed.wrapping_mul(1103515245).wrapping_add(12345);
        assert_random(&rt, &cases()[round % 16], seed)?;
    }
    Ok(())
}

const DOTS: &str = "tty 0 7\n.......\n";

static LOADS: [&[u8]; 6] = [
    b"sim",
    b"sim --pick 1",
    b"sim crash:0@bus:40",
    b"sim crash:1@bus:100",
    b"sim crash:2@bus:200",
    b"sim crash:3@step:300",
];

#[test]
fn the_workload_that_is_printed_runs_through_losses(rt: HostRuntime) -> Result<(), Fail> {
    let (_, text) = answer(&rt, b"load 7 --text", b"")?;
    for line in LOADS.iter() {
        assert_run(&rt, line, text.as_slice(), &[DOTS, DOTS], 31)?;
    }
    Ok(())
}
