//! Writes and closes, at the edges of their calls.
use crate::calls::process::{
    ALL_LETTERS, Begin, Made, NO_LETTERS, REFUSED_ADDRESS, REFUSED_END, Row, Shown, assert_calls,
    begun, call_thrice,
};
use std::alloc::Global;
use std::test::Fail;
use t32_base::letter::To;
use t32_base::process::Pid;
use t32_base::streams::NoMemory;
use test_asserts::same;

// The end, the address and the length, and the number of the call; the bytes of the letter; the answer.
static WRITES: [Row; 12] = [
    (
        [0, 0x10000, 256, 2],
        Made::Said(To::Tty(0), 256),
        (256, 0x10000),
    ),
    ([0, 0x10000, 257, 2], Made::Silent, (0xffffffea, 0x10000)),
    ([0, 0x10000, 0, 2], Made::Silent, (0, 0x10000)),
    ([0, 0x10100, 1, 2], Made::Silent, (REFUSED_ADDRESS, 0x10100)),
    ([0, 0x100ff, 1, 2], Made::Said(To::Tty(0), 1), (1, 0x100ff)),
    (
        [0, 0x10001, 256, 2],
        Made::Silent,
        (REFUSED_ADDRESS, 0x10001),
    ),
    ([0, 0xffff, 1, 2], Made::Silent, (REFUSED_ADDRESS, 0xffff)),
    ([0, 0, 0, 2], Made::Silent, (0, 0)),
    ([1, 0x10000, 1, 2], Made::Silent, (REFUSED_END, 0x10000)),
    ([31, 0x10000, 257, 2], Made::Silent, (REFUSED_END, 0x10000)),
    ([32, 0x10000, 1, 2], Made::Silent, (REFUSED_END, 0x10000)),
    (
        [0xffffffff, 0x10000, 1, 2],
        Made::Silent,
        (REFUSED_END, 0x10000),
    ),
];

#[test]
fn a_write_checks_its_end_its_length_and_its_buffer(rt: HostRuntime) -> Result<(), Fail> {
    assert_calls(rt.alloc(), Begin::Root, NO_LETTERS, &WRITES)
}

static LETTERS: [Row; 6] = [
    ([0, 0x10000, 4, 2], Made::Said(To::Tty(0), 4), (4, 0x10000)),
    (
        [1, 0x10000, 4, 2],
        Made::Said(To::Proc(Pid(17), 5), 4),
        (4, 0x10000),
    ),
    (
        [2, 0x10000, 4, 2],
        Made::Said(To::Proc(Pid(17), 6), 4),
        (4, 0x10000),
    ),
    ([3, 0x10000, 4, 2], Made::Silent, (REFUSED_END, 0x10000)),
    ([4, 0x10000, 4, 2], Made::Silent, (REFUSED_END, 0x10000)),
    (
        [31, 0x10000, 4, 2],
        Made::Said(To::Proc(Pid(17), 7), 4),
        (4, 0x10000),
    ),
];

#[test]
fn a_write_goes_where_its_end_leads(rt: HostRuntime) -> Result<(), Fail> {
    assert_calls(rt.alloc(), Begin::Letters, ALL_LETTERS, &LETTERS)
}

// Three closes of one end.
fn close_thrice(alloc: Global, end: u32) -> Result<[Shown; 3], NoMemory> {
    let mut p = begun(alloc, Begin::Letters)?;
    call_thrice(alloc, &mut p, &[end, 0x10000, 1, 10])
}

// The end; what the step of the first close was, and its answer. The second and the third are refused.
static CLOSES: [(u32, Made, u32); 8] = [
    (0, Made::Silent, 0),
    (1, Made::Shut(1, To::Proc(Pid(17), 5)), 0),
    (2, Made::Shut(2, To::Proc(Pid(17), 6)), 0),
    (31, Made::Shut(31, To::Proc(Pid(17), 7)), 0),
    (3, Made::Silent, REFUSED_END),
    (4, Made::Silent, REFUSED_END),
    (32, Made::Silent, REFUSED_END),
    (0xffffffff, Made::Silent, REFUSED_END),
];

fn wanted(made: Made, answer: u32) -> [Shown; 3] {
    let refused = (REFUSED_END, 0x10000);
    [
        (true, made, (answer, 0x10000), (0x10004, 1), ALL_LETTERS),
        (true, Made::Silent, refused, (0x10004, 2), ALL_LETTERS),
        (true, Made::Silent, refused, (0x10004, 3), ALL_LETTERS),
    ]
}

#[test]
fn a_close_shuts_an_open_end_once(rt: HostRuntime) -> Result<(), Fail> {
    for row in CLOSES.iter() {
        let made = close_thrice(rt.alloc(), row.0);
        same("three closes", &made, &Ok(wanted(row.1, row.2)))?;
    }
    Ok(())
}
