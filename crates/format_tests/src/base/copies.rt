//! Copies of records and of bytes.
use std::alloc::Global;
use std::test::Fail;
use t32_base::letter::{Arrived, BackRec, Body, Letter, To};
use t32_base::lists::List;
use t32_base::process::{Counts, Pid};
use t32_base::shared_bytes::SharedBytes;
use t32_base::streams::NoMemory;
use test_asserts::same;

fn letter(number: u64, body: Body) -> Arrived {
    let letter = Letter {
        from: Pid(16),
        out: 2,
        to: To::Proc(Pid(17), 4),
        body,
    };
    Arrived { number, letter }
}

fn letters(alloc: Global) -> Result<List<Arrived>, NoMemory> {
    let mut saved = List::new(alloc);
    let said = Body::Said(SharedBytes::copy_of(alloc, b"hi")?);
    saved.push(letter(7, said))?;
    saved.push(letter(8, Body::EndOf))?;
    saved.push(letter(9, Body::Signal(3)))?;
    Ok(saved)
}

fn birth(alloc: Global) -> Result<List<Pid>, NoMemory> {
    let mut births = List::new(alloc);
    births.push(Pid(32))?;
    Ok(births)
}

fn record(alloc: Global) -> Result<BackRec, NoMemory> {
    let saved = letters(alloc)?;
    let births = birth(alloc)?;
    Ok(BackRec {
        pid: Pid(17),
        state: None,
        saved,
        next: 10,
        counts: Counts {
            ends: [0; 32],
            signals: 5,
        },
        births,
    })
}

// The number of bytes that a letter says.
fn size_said(body: &Body) -> Option<usize> {
    match body {
        Body::Said(bytes) => Some(bytes.len()),
        Body::EndOf | Body::Signal(_) => None,
    }
}

// The number of a letter, where it goes, and the number of bytes that it says.
type Seen = (u64, To, Option<usize>);

fn seen(arrived: &Arrived) -> Seen {
    let letter = &arrived.letter;
    (arrived.number, letter.to, size_said(&letter.body))
}

fn three_seen(saved: &[Arrived]) -> Option<[Seen; 3]> {
    match saved {
        [first, second, third] => Some([seen(first), seen(second), seen(third)]),
        _ => None,
    }
}

fn only(births: &[Pid]) -> Option<Pid> {
    match births {
        [birth] => Some(*birth),
        _ => None,
    }
}

// The number of the next letter, the counts, and the one birth.
type Rest = (u64, [u32; 32], u32, Option<Pid>);

fn rest(record: &BackRec) -> Rest {
    let Counts { ends, signals } = &record.counts;
    (record.next, *ends, *signals, only(record.births.as_slice()))
}

fn shown(record: &BackRec) -> (Rest, Option<[Seen; 3]>) {
    (rest(record), three_seen(record.saved.as_slice()))
}

fn copied_record(alloc: Global) -> Result<BackRec, NoMemory> {
    let record = record(alloc)?;
    record.copy()
}

fn copy_shown(alloc: Global) -> Result<(Rest, Option<[Seen; 3]>), NoMemory> {
    let copy = copied_record(alloc)?;
    Ok(shown(&copy))
}

const WANTED: (Rest, Option<[Seen; 3]>) = (
    (10, [0; 32], 5, Some(Pid(32))),
    Some([
        (7, To::Proc(Pid(17), 4), Some(2)),
        (8, To::Proc(Pid(17), 4), None),
        (9, To::Proc(Pid(17), 4), None),
    ]),
);

#[test]
fn a_record_is_copied_with_its_letters(rt: HostRuntime) -> Result<(), Fail> {
    same("the copy", &copy_shown(rt.alloc())?, &WANTED)
}

fn copied(alloc: Global, bytes: &[u8]) -> Result<SharedBytes, NoMemory> {
    let made = SharedBytes::copy_of(alloc, bytes)?;
    made.copy()
}

fn assert_copied(alloc: Global, bytes: &[u8]) -> Result<(), Fail> {
    let copy = copied(alloc, bytes)?;
    let shown = (copy.as_slice(), copy.len(), copy.is_empty());
    same("the copy", &shown, &(bytes, bytes.len(), bytes.is_empty()))
}

static MANY: [u8; 300] = [7; 300];

static LENGTHS: [usize; 5] = [0, 1, 14, 15, 300];

#[test]
fn short_and_long_bytes_are_copied(rt: HostRuntime) -> Result<(), Fail> {
    for length in LENGTHS.iter() {
        let bytes = MANY.get(..*length).unwrap_or_default();
        assert_copied(rt.alloc(), bytes)?;
    }
    Ok(())
}
