//! What lines say.
use entry_lines::{Told, ToldBy, ToldLetter, ToldWhat, read_told};
use std::alloc::Global;
use std::test::Fail;
use t32_base::streams::NoMemory;
use test_asserts::same;

/// The place, the sender and the first number of a line, and its last number or the number of its bytes.
pub type Ends = (u64, ToldBy, u64, u64);

fn of_letter(letter: &ToldLetter) -> u64 {
    match letter {
        ToldLetter::Shown { bytes, .. } | ToldLetter::Said { bytes, .. } => bytes.len() as u64,
        ToldLetter::EndOf { end, .. } => *end,
        ToldLetter::Signal { signal, .. } => *signal,
    }
}

fn first_and_last(what: &ToldWhat) -> (u64, u64) {
    match what {
        ToldWhat::Mail { from, letter, .. } => (*from, of_letter(letter)),
        ToldWhat::Birth { parent, end, .. } => (*parent, *end),
        ToldWhat::Exit { pid, at, .. } => (*pid, *at),
        ToldWhat::Page { pid, index, .. } => (*pid, *index),
        ToldWhat::Sync { pid, at, .. } => (*pid, *at),
        ToldWhat::Fetch { pid, index } | ToldWhat::PageIs { pid, index } => (*pid, *index),
        ToldWhat::Crash { k, .. } | ToldWhat::Return { k } => (*k, *k),
        ToldWhat::Fresh { pids, to, .. } | ToldWhat::Standing { pids, to } => {
            (pids.len() as u64, *to)
        }
        ToldWhat::Done | ToldWhat::Stop => (0, 0),
    }
}

fn ends_of(told: &Told) -> Ends {
    let (first, last) = first_and_last(&told.what);
    (told.place, told.by, first, last)
}

pub fn ends(alloc: Global, line: &[u8]) -> Result<Option<Ends>, NoMemory> {
    match read_told(alloc, line)? {
        Some(told) => Ok(Some(ends_of(&told))),
        None => Ok(None),
    }
}

static SAID: [(&[u8], Ends); 8] = [
    (
        b"7 1 mail 17 at 9 out 1 tty 15 00689fff",
        (7, ToldBy::Cluster(1), 17, 4),
    ),
    (
        b"7 1 mail 17 at 9 out 1 to 16 end 2 eof",
        (7, ToldBy::Cluster(1), 17, 2),
    ),
    (
        b"7 1 mail 17 at 9 to 16 sig 10",
        (7, ToldBy::Cluster(1), 17, 10),
    ),
    (
        b"6 0 birth 16 at 3 child 32 end 1",
        (6, ToldBy::Cluster(0), 16, 1),
    ),
    (b"10 15 page 16 at 40 3", (10, ToldBy::Cluster(15), 16, 3)),
    (b"16 bus crash 12 step 7", (16, ToldBy::Bus, 12, 12)),
    (
        b"19 2 rebackup 17 at 80 to 5 fresh",
        (19, ToldBy::Cluster(2), 1, 5),
    ),
    (
        b"20 2 rebackup 17 33 49 to 6 standing",
        (20, ToldBy::Cluster(2), 3, 6),
    ),
];

#[test]
fn lines_say_their_numbers(rt: HostRuntime) -> Result<(), Fail> {
    for (line, wanted) in &SAID {
        same(
            "said",
            &(*line, ends(rt.alloc(), line)?),
            &(*line, Some(*wanted)),
        )?;
    }
    Ok(())
}
