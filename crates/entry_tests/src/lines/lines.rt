//! The line of an entry of each kind.
use crate::entries::{Row, Says, made};
use crate::lines::copies::{Hidden, hidden};
use bus_msg::entry::{By, Cause, Dests, Entry, Post, What};
use bus_msg::text::{end_line, entry_text, put_entry};
use std::alloc::Global;
use std::test::Fail;
use t32_base::letter::To;
use t32_base::lists::Bytes;
use t32_base::process::{ClusterNo, End, Pid};
use t32_base::streams::NoMemory;
use test_asserts::same;

// Where each entry goes.
const DESTS: Dests = Dests {
    clusters: 5,
    tty: Some(3),
};

// Whether the text that is made of an entry is this line, who sends it, where it goes, and what no line shows.
type Shown = (bool, By, Dests, Hidden);

fn shows(alloc: Global, entry: &Entry, line: &[u8]) -> Result<Shown, NoMemory> {
    let is_line = entry_text(alloc, entry)?.as_slice() == line;
    let post = &entry.post;
    Ok((is_line, post.by, entry.dests, hidden(&post.what)))
}

fn copy_shows(alloc: Global, entry: &Entry, line: &[u8]) -> Result<Shown, NoMemory> {
    let copy = entry.copy()?;
    shows(alloc, &copy, line)
}

fn both_show(alloc: Global, entry: &Entry, line: &[u8]) -> Result<[Shown; 2], NoMemory> {
    Ok([shows(alloc, entry, line)?, copy_shows(alloc, entry, line)?])
}

// An entry by its row, and its copy.
fn printed(alloc: Global, by: By, row: &Row, line: &[u8]) -> Result<[Shown; 2], NoMemory> {
    let entry = Entry {
        place: 7,
        post: Post {
            by,
            what: made(alloc, row)?,
        },
        dests: DESTS,
    };
    both_show(alloc, &entry, line)
}

const ONE: By = By::Cluster(ClusterNo(1));

const TWO: By = By::Cluster(ClusterNo(2));

const TWELVE: By = By::Cluster(ClusterNo(12));

const NEAR: To = To::Proc(Pid(16), 2);

// Who sends an entry, what it says, its line, and what that does not show.
static LINES: [(By, Row, &[u8], Hidden); 23] = [
    (
        ONE,
        Row::Mail(17, To::Tty(15), Says::Bytes),
        b"7 1 mail 17 at 9 out 1 tty 15 00689fff",
        None,
    ),
    (
        ONE,
        Row::Mail(17, NEAR, Says::Bytes),
        b"7 1 mail 17 at 9 out 1 to 16 end 2 00689fff",
        None,
    ),
    (
        ONE,
        Row::Mail(17, NEAR, Says::End),
        b"7 1 mail 17 at 9 out 1 to 16 end 2 eof",
        None,
    ),
    (
        ONE,
        Row::Mail(17, To::Proc(Pid(16), 0), Says::Signal),
        b"7 1 mail 17 at 9 to 16 sig 10",
        None,
    ),
    (
        TWELVE,
        Row::Birth(16, 32),
        b"7 12 birth 16 at 3 child 32 end 31",
        None,
    ),
    (TWELVE, Row::Fetch(16), b"7 12 fetch 16 3", None),
    (TWELVE, Row::Page(16), b"7 12 page 16 at 40 3", None),
    (
        TWELVE,
        Row::PageIs(16),
        b"7 12 pageis 16 3",
        Some(([0, 0, 0, 9], [0; 4])),
    ),
    (
        TWELVE,
        Row::Sync(16, None),
        b"7 12 sync 16 at 40 plain",
        None,
    ),
    (
        TWELVE,
        Row::Sync(16, Some(10)),
        b"7 12 sync 16 at 40 take 10",
        Some(([65600, 5, 3, 10], [0; 4])),
    ),
    (
        By::Cluster(ClusterNo(3)),
        Row::Sync(16, Some(10)),
        b"7 3 sync 16 at 40 take 10",
        Some(([65600, 5, 3, 10], [0; 4])),
    ),
    (
        TWO,
        Row::Rebackup(0, true, &[(17, true), (33, false)]),
        b"7 2 rebackup 17 33 at 80 to 0 fresh",
        Some(([7, 5, 1, 48], [7, 5, 1, 48])),
    ),
    (
        TWO,
        Row::Rebackup(0, false, &[(17, true), (33, false)]),
        b"7 2 rebackup 17 33 to 0 standing",
        Some(([7, 5, 1, 48], [7, 5, 1, 48])),
    ),
    (
        By::Bus,
        Row::Crash(1, Cause::Place),
        b"7 bus crash 1 place",
        None,
    ),
    (
        By::Bus,
        Row::Crash(1, Cause::Step(0)),
        b"7 bus crash 1 step 0",
        None,
    ),
    (
        By::Bus,
        Row::Crash(1, Cause::Disk(4294967295)),
        b"7 bus crash 1 disk 4294967295",
        None,
    ),
    (
        By::Bus,
        Row::Done,
        b"7 bus done",
        Some(([16, 10, 33, u64::MAX], [0; 4])),
    ),
    (By::Bus, Row::Stop, b"7 bus stop", None),
    (By::Bus, Row::Return(1), b"7 bus return 1", None),
    (
        By::Cluster(ClusterNo(0)),
        Row::Exit(16, End::Exit(255)),
        b"7 0 exit 16 at 10 exit 255",
        None,
    ),
    (
        By::Cluster(ClusterNo(0)),
        Row::Exit(16, End::Trap(2)),
        b"7 0 exit 16 at 10 trap 2",
        None,
    ),
    (
        By::Cluster(ClusterNo(0)),
        Row::Exit(16, End::Killed(9)),
        b"7 0 exit 16 at 10 killed 9",
        None,
    ),
    (
        By::Cluster(ClusterNo(0)),
        Row::Exit(16, End::Limit),
        b"7 0 exit 16 at 10 limit",
        None,
    ),
];

#[test]
fn entries_and_their_copies_are_printed(rt: HostRuntime) -> Result<(), Fail> {
    for row in LINES.iter() {
        let wanted = (true, row.0, DESTS, row.3);
        let shown = printed(rt.alloc(), row.0, &row.1, row.2)?;
        same(
            "the entry and its copy",
            &(row.2, shown),
            &(row.2, [wanted; 2]),
        )?;
    }
    Ok(())
}

// An end in words by itself.
static ENDS: [(End, &[u8]); 4] = [
    (End::Exit(255), b"exit 255"),
    (End::Trap(2), b"trap 2"),
    (End::Killed(9), b"killed 9"),
    (End::Limit, b"limit"),
];

fn assert_words(alloc: Global, end: End, words: &[u8]) -> Result<(), Fail> {
    let text = end_line(alloc, end)?;
    same("the end", &text.as_bytes(), &words)
}

#[test]
fn ends_are_words(rt: HostRuntime) -> Result<(), Fail> {
    for row in ENDS.iter() {
        assert_words(rt.alloc(), row.0, row.1)?;
    }
    Ok(())
}

fn put_stop(alloc: Global, text: &mut Bytes, place: u64) -> Result<(), NoMemory> {
    let stop = Entry {
        place,
        post: Post {
            by: By::Bus,
            what: What::Stop,
        },
        dests: DESTS,
    };
    put_entry(alloc, text, &stop)?;
    text.extend(b"\n")
}

fn log_of_two(alloc: Global) -> Result<Bytes, NoMemory> {
    let mut text = Bytes::copy_of(alloc, b"log\n")?;
    put_stop(alloc, &mut text, 8)?;
    put_stop(alloc, &mut text, u64::MAX)?;
    Ok(text)
}

#[test]
fn lines_stand_one_behind_the_other(rt: HostRuntime) -> Result<(), Fail> {
    let text = log_of_two(rt.alloc())?;
    let wanted = b"log\n8 bus stop\n18446744073709551615 bus stop\n".as_slice();
    same("the lines", &text.as_slice(), &wanted)
}
