//! Reads and waiting, at the edges of their calls.
use crate::calls::process::{
    ALL_LETTERS, Begin, Made, NO_LETTERS, REFUSED_ADDRESS, REFUSED_END, Row, Shown, assert_calls,
    begun, call_thrice, first_call,
};
use proc_state::process::Process;
use std::alloc::Global;
use std::test::Fail;
use t32_base::process::Pid;
use t32_base::streams::NoMemory;
use test_asserts::same;

// The end by which it is linked, and three reads from end 1.
type Reads = (Option<u8>, [Shown; 3]);

fn read_thrice(alloc: Global, p: &mut Process) -> Result<Reads, NoMemory> {
    let end = p.link(Pid(17), 1);
    Ok((end, call_thrice(alloc, p, &[1, 0x10010, 2, 3])?))
}

// The two bytes that were read and the byte behind them, and the numbers of the letters.
type HasRead = ([Option<u32>; 2], Option<(u64, u64)>);

fn has_read(p: &Process) -> HasRead {
    let bytes = [p.ram.load(0x10010, 2).ok(), p.ram.load(0x10012, 1).ok()];
    let numbers = match p.read.as_slice() {
        [first, second] => Some((*first, *second)),
        _ => None,
    };
    (bytes, numbers)
}

fn read_all(alloc: Global, p: &mut Process) -> Result<(Reads, HasRead), NoMemory> {
    let reads = read_thrice(alloc, p)?;
    Ok((reads, has_read(p)))
}

fn all_read(alloc: Global) -> Result<(Reads, HasRead), NoMemory> {
    let mut p = begun(alloc, Begin::Ended)?;
    read_all(alloc, &mut p)
}

const LETTER_ON_1: (bool, bool, bool) = (true, false, false);

const READS: (Reads, HasRead) = (
    (
        Some(1),
        [
            (true, Made::Silent, (2, 0x10010), (0x10004, 1), LETTER_ON_1),
            (true, Made::Silent, (0, 0x10010), (0x10004, 2), NO_LETTERS),
            (true, Made::Silent, (0, 0x10010), (0x10004, 3), NO_LETTERS),
        ],
    ),
    ([Some(0x6261), Some(0)], Some((0, 1))),
);

#[test]
fn a_read_takes_the_first_letter_of_its_end(rt: HostRuntime) -> Result<(), Fail> {
    let wanted = READS;
    same("the reads", &all_read(rt.alloc())?, &wanted)
}

fn link_three(p: &mut Process) -> [Option<u8>; 3] {
    [p.link(Pid(17), 1), p.link(Pid(17), 1), p.link(Pid(17), 1)]
}

// The ends by which it is linked, and three reads of any end.
type ReadsOfAny = ([Option<u8>; 3], [Shown; 3]);

fn read_any(alloc: Global, p: &mut Process) -> Result<ReadsOfAny, NoMemory> {
    let ends = link_three(p);
    Ok((ends, call_thrice(alloc, p, &[0x10010, 8, 0, 4])?))
}

fn any_read(alloc: Global) -> Result<ReadsOfAny, NoMemory> {
    let mut p = begun(alloc, Begin::Two)?;
    read_any(alloc, &mut p)
}

// The third waits.
const READS_OF_ANY: ReadsOfAny = (
    [Some(1), Some(2), Some(3)],
    [
        (true, Made::Silent, (5, 3), (0x10004, 1), LETTER_ON_1),
        (true, Made::Silent, (3, 1), (0x10004, 2), NO_LETTERS),
        (false, Made::Blocked, (0x10010, 8), (0x10000, 2), NO_LETTERS),
    ],
);

#[test]
fn a_read_of_any_end_takes_the_letters_as_they_came(rt: HostRuntime) -> Result<(), Fail> {
    let wanted = READS_OF_ANY;
    same("the reads", &any_read(rt.alloc())?, &wanted)
}

// The end, the address and the most bytes, and the number of the call; the answer.
static REFUSED: [Row; 14] = [
    ([0, 0x10000, 1, 3], Made::Silent, (REFUSED_END, 0x10000)),
    ([0, 0x10100, 1, 3], Made::Silent, (REFUSED_END, 0x10100)),
    ([3, 0x10000, 1, 3], Made::Silent, (REFUSED_END, 0x10000)),
    ([4, 0x10100, 1, 3], Made::Silent, (REFUSED_END, 0x10100)),
    ([32, 0x10000, 1, 3], Made::Silent, (REFUSED_END, 0x10000)),
    ([0x101, 0x10000, 1, 3], Made::Silent, (REFUSED_END, 0x10000)),
    (
        [0xffffffff, 0x10000, 1, 3],
        Made::Silent,
        (REFUSED_END, 0x10000),
    ),
    ([1, 0x10100, 1, 3], Made::Silent, (REFUSED_ADDRESS, 0x10100)),
    ([1, 0xffff, 1, 3], Made::Silent, (REFUSED_ADDRESS, 0xffff)),
    ([1, 0x100ff, 2, 3], Made::Silent, (REFUSED_ADDRESS, 0x100ff)),
    (
        [1, 0x10001, 257, 3],
        Made::Silent,
        (REFUSED_ADDRESS, 0x10001),
    ),
    (
        [31, 0x10100, 1, 3],
        Made::Silent,
        (REFUSED_ADDRESS, 0x10100),
    ),
    ([2, 0x10100, 1, 3], Made::Silent, (REFUSED_ADDRESS, 0x10100)),
    ([2, 0x10000, 1, 3], Made::Silent, (0, 0x10000)),
];

static TAKEN: [Row; 5] = [
    ([1, 0x100ff, 1, 3], Made::Silent, (1, 0x100ff)),
    ([1, 0x10000, 256, 3], Made::Silent, (5, 0x10000)),
    ([1, 0x10000, 257, 3], Made::Silent, (5, 0x10000)),
    ([1, 0x10000, 0xffffffff, 3], Made::Silent, (5, 0x10000)),
    ([1, 0, 0, 3], Made::Silent, (0, 0)),
];

#[test]
fn a_read_checks_its_end_and_then_its_buffer(rt: HostRuntime) -> Result<(), Fail> {
    assert_calls(rt.alloc(), Begin::Letters, ALL_LETTERS, &REFUSED)?;
    assert_calls(rt.alloc(), Begin::Letters, (false, true, true), &TAKEN)
}

// The address and the most bytes, and the number of the call; the answers. The letter for the shut end stays.
static REFUSED_OF_ANY: [Row; 2] = [
    ([0x10100, 1, 0, 4], Made::Silent, (REFUSED_ADDRESS, 1)),
    ([0x10001, 257, 0, 4], Made::Silent, (REFUSED_ADDRESS, 257)),
];

static TAKEN_OF_ANY: [Row; 3] = [
    ([0x10000, 257, 0, 4], Made::Silent, (5, 2)),
    ([0x100ff, 1, 0, 4], Made::Silent, (1, 2)),
    ([0, 0, 0, 4], Made::Silent, (0, 2)),
];

#[test]
fn a_read_of_any_end_checks_its_buffer_and_then_its_ends(rt: HostRuntime) -> Result<(), Fail> {
    assert_calls(rt.alloc(), Begin::Letters, ALL_LETTERS, &REFUSED_OF_ANY)?;
    assert_calls(
        rt.alloc(),
        Begin::Letters,
        (true, false, true),
        &TAKEN_OF_ANY,
    )
}

static FINISHED: [Row; 2] = [
    ([0x10100, 1, 0, 4], Made::Silent, (REFUSED_ADDRESS, 1)),
    ([0x10000, 1, 0, 4], Made::Silent, (REFUSED_END, 1)),
];

#[test]
fn a_read_of_any_end_is_refused_where_all_are_finished(rt: HostRuntime) -> Result<(), Fail> {
    assert_calls(rt.alloc(), Begin::Finished, ALL_LETTERS, &FINISHED)
}

static WAITS: Result<Shown, NoMemory> = Ok((
    false,
    Made::Blocked,
    (31, 0x10010),
    (0x10000, 0),
    NO_LETTERS,
));

#[test]
fn a_read_without_a_letter_waits(rt: HostRuntime) -> Result<(), Fail> {
    let made = first_call(rt.alloc(), Begin::Linked, &[31, 0x10010, 3, 3]);
    same("the read", &made, &WAITS)
}
