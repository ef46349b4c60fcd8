//! Lines of letters and of exits. In the first system process 16 writes `hi` and a line end to its terminal by step 6, and exits by step 10. In the second
//! process 17 writes to process 16 by step 6, which reads that and writes it to its terminal by step 10. Each root has its backup in the other cluster.
use crate::begun::{front, process};
use bus_msg::entry::Entry;
use entry_lines::{ToldBy, ToldEnd, ToldLetter};
use log_audit::front::Front;
use log_processes::arrivals::take;
use log_processes::exits::next_exit;
use log_processes::letters::next_letter;
use log_processes::sender::{Head, Limits, Sender};
use proc_state::process::Process;
use std::alloc::Global;
use std::test::Fail;
use t32_base::lists::Bytes;
use t32_base::process::Pid;
use test_asserts::same;
use test_systems::{HI, TALK};

const HOME: ToldBy = ToldBy::Cluster(0);

const LIMITS: Limits = Limits {
    steps: 4096,
    reads: 32,
};

const START: Sender = Sender {
    start: 0,
    saved: 0,
    whole: true,
    parent: false,
};

const PARENT: Sender = Sender {
    parent: true,
    ..START
};

// The place, the sender and the step of a line of process 16.
type Line = (u64, ToldBy, u64);

fn head(line: Line) -> Head {
    Head {
        place: line.0,
        by: line.1,
        pid: Pid(16),
        at: line.2,
    }
}

fn shown(alloc: Global, bytes: &[u8]) -> Result<ToldLetter, Fail> {
    Ok(ToldLetter::Shown {
        out: 0,
        tty: 0,
        bytes: Bytes::copy_of(alloc, bytes)?,
    })
}

// The place of an entry, and the clusters and the terminal that it goes to.
type Seen = (u64, u16, Option<u8>);

fn seen(entry: &Entry) -> Seen {
    (entry.place, entry.dests.clusters, entry.dests.tty)
}

// The letter of process 16 that such a line is.
fn sent(
    alloc: Global,
    front: &Front,
    process: &mut Process,
    head: Head,
    limits: Limits,
    kept: Sender,
    told: &ToldLetter,
) -> Result<Option<Seen>, Fail> {
    match next_letter(alloc, front, limits, head, told, kept, process)? {
        Some(entry) => Ok(Some(seen(&entry))),
        None => Ok(None),
    }
}

// The same, to its terminal. Who owns a value hands it on by its last call: the proof pays for its drop on each way out.
fn letter(
    alloc: Global,
    front: &Front,
    process: &mut Process,
    line: Line,
    limits: Limits,
    kept: Sender,
    bytes: &[u8],
) -> Result<Option<Seen>, Fail> {
    let told = shown(alloc, bytes)?;
    sent(alloc, front, process, head(line), limits, kept, &told)
}

// A line, the limits, what is kept of the process, the bytes, and what the letter is.
type Row = (Line, Limits, Sender, &'static [u8], Option<Seen>);

fn first_letter(alloc: Global, front: &Front, row: &Row) -> Result<Option<Seen>, Fail> {
    let mut process = process(alloc, HI, 16)?;
    letter(alloc, front, &mut process, row.0, row.1, row.2, row.3)
}

fn assert_each(alloc: Global, front: &Front, rows: &[Row]) -> Result<(), Fail> {
    for row in rows {
        let shown = first_letter(alloc, front, row)?;
        same("a letter", &(row.0, row.3, shown), &(row.0, row.3, row.4))?;
    }
    Ok(())
}

fn assert_letters(alloc: Global, rows: &[Row]) -> Result<(), Fail> {
    let front = front(alloc, HI)?;
    assert_each(alloc, &front, rows)
}

// At its step, a step before, a step after, at a later place, by the bus, by the other cluster, and other bytes.
static LETTERS: [Row; 7] = [
    ((0, HOME, 6), LIMITS, START, b"hi\n", Some((0, 2, Some(0)))),
    ((0, HOME, 5), LIMITS, START, b"hi\n", None),
    ((0, HOME, 7), LIMITS, START, b"hi\n", None),
    ((1, HOME, 6), LIMITS, START, b"hi\n", None),
    ((0, ToldBy::Bus, 6), LIMITS, START, b"hi\n", None),
    ((0, ToldBy::Cluster(1), 6), LIMITS, START, b"hi\n", None),
    ((0, HOME, 6), LIMITS, START, b"hi", None),
];

#[test]
fn a_letter_is_sent_by_the_home_at_its_step(rt: HostRuntime) -> Result<(), Fail> {
    assert_letters(rt.alloc(), &LETTERS)
}

const SIX: Limits = Limits { steps: 6, reads: 0 };

const FIVE: Limits = Limits { steps: 5, reads: 0 };

const LATER: Sender = Sender { start: 1, ..START };

const WAITS: Sender = Sender {
    whole: false,
    ..START
};

// Within as many steps, past a step fewer, past as many from a later start, without its pages, and as a parent.
static LIMITED: [Row; 5] = [
    ((0, HOME, 6), SIX, START, b"hi\n", Some((0, 2, Some(0)))),
    ((0, HOME, 6), FIVE, START, b"hi\n", None),
    ((0, HOME, 6), FIVE, LATER, b"hi\n", Some((0, 2, Some(0)))),
    ((0, HOME, 6), SIX, WAITS, b"hi\n", None),
    ((0, HOME, 6), SIX, PARENT, b"hi\n", Some((0, 2, Some(0)))),
];

#[test]
fn a_letter_keeps_the_limits_and_the_wait_for_pages(rt: HostRuntime) -> Result<(), Fail> {
    assert_letters(rt.alloc(), &LIMITED)
}

// A step, an end, what is kept of the process, and the place and the clusters of the exit.
type ExitRow = (u64, ToldEnd, Sender, Option<(u64, u16)>);

// What such a line of the exit is, behind that of the letter.
fn exit(alloc: Global, front: &Front, row: &ExitRow) -> Result<Option<(u64, u16)>, Fail> {
    let mut process = process(alloc, HI, 16)?;
    exit_of(alloc, front, &mut process, row)
}

fn exit_of(
    alloc: Global,
    front: &Front,
    process: &mut Process,
    row: &ExitRow,
) -> Result<Option<(u64, u16)>, Fail> {
    letter(alloc, front, process, (0, HOME, 6), LIMITS, START, b"hi\n")?;
    let head = head((0, HOME, row.0));
    match next_exit(alloc, front, LIMITS, head, row.1, row.2, process)? {
        Some(entry) => Ok(Some((entry.place, entry.dests.clusters))),
        None => Ok(None),
    }
}

// At its step, a step before, at that of the letter, with another status, as a trap, and as a parent.
static EXITS: [ExitRow; 6] = [
    (10, ToldEnd::Exit(0), START, Some((0, 3))),
    (9, ToldEnd::Exit(0), START, None),
    (6, ToldEnd::Exit(0), START, None),
    (10, ToldEnd::Exit(1), START, None),
    (10, ToldEnd::Trap(0), START, None),
    (10, ToldEnd::Exit(0), PARENT, None),
];

fn assert_exits(alloc: Global, front: &Front) -> Result<(), Fail> {
    for row in &EXITS {
        let shown = exit(alloc, front, row)?;
        same("an exit", &(row.0, row.1, shown), &(row.0, row.1, row.3))?;
    }
    Ok(())
}

#[test]
fn a_process_ends_once_at_its_step(rt: HostRuntime) -> Result<(), Fail> {
    let front = front(rt.alloc(), HI)?;
    assert_exits(rt.alloc(), &front)
}

// The letter of process 17.
fn written(alloc: Global, front: &Front) -> Result<Entry, Fail> {
    let mut writer = process(alloc, TALK, 17)?;
    written_by(alloc, front, &mut writer)
}

fn said(alloc: Global) -> Result<ToldLetter, Fail> {
    Ok(ToldLetter::Said {
        out: 1,
        to: 16,
        end: 1,
        bytes: Bytes::copy_of(alloc, b"x\n")?,
    })
}

fn written_by(alloc: Global, front: &Front, writer: &mut Process) -> Result<Entry, Fail> {
    let told = said(alloc)?;
    written_as(alloc, front, writer, &told)
}

fn written_as(
    alloc: Global,
    front: &Front,
    writer: &mut Process,
    told: &ToldLetter,
) -> Result<Entry, Fail> {
    let line = Head {
        place: 0,
        by: ToldBy::Cluster(1),
        pid: Pid(17),
        at: 6,
    };
    match next_letter(alloc, front, LIMITS, line, told, START, writer)? {
        Some(entry) => Ok(entry),
        None => Err("the letter was not sent".into()),
    }
}

// How many letters process 16 has saved, and where it sends what it read.
type Read = (u64, Option<u64>);

// Whether the letter came, and how many letters may be read.
fn read(alloc: Global, front: &Front, comes: bool, reads: u32) -> Result<Read, Fail> {
    let mut reader = process(alloc, TALK, 16)?;
    read_by(alloc, front, &mut reader, comes, reads)
}

fn read_by(
    alloc: Global,
    front: &Front,
    reader: &mut Process,
    comes: bool,
    reads: u32,
) -> Result<Read, Fail> {
    let mut kept = START;
    if comes {
        come(alloc, front, reader, &mut kept)?;
    }
    let limits = Limits { steps: 4096, reads };
    let sent = letter(alloc, front, reader, (0, HOME, 10), limits, kept, b"x\n")?;
    Ok((kept.saved, sent.map(|(place, _, _)| place)))
}

fn come(alloc: Global, front: &Front, reader: &mut Process, kept: &mut Sender) -> Result<(), Fail> {
    let entry = written(alloc, front)?;
    take_in(&entry, reader, kept)
}

fn take_in(entry: &Entry, reader: &mut Process, kept: &mut Sender) -> Result<(), Fail> {
    if reader.mail.next() == u64::MAX || kept.saved == u64::MAX {
        return Err("too many letters came".into());
    }
    Ok(take(Pid(16), entry, kept, reader)?)
}

// Behind the letter of the other, behind it where none may be read, and before it.
static READS: [(bool, u32, Read); 3] = [
    (true, 1, (1, Some(0))),
    (true, 0, (1, None)),
    (false, 1, (0, None)),
];

fn assert_reads(alloc: Global, front: &Front) -> Result<(), Fail> {
    for row in &READS {
        let shown = read(alloc, front, row.0, row.1)?;
        same("what is read", &(row.0, row.1, shown), row)?;
    }
    Ok(())
}

#[test]
fn a_letter_is_read_where_it_came(rt: HostRuntime) -> Result<(), Fail> {
    let front = front(rt.alloc(), TALK)?;
    assert_reads(rt.alloc(), &front)
}
