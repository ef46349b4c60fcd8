//! A script of as many words as there may be, and of one more.
use crate::words::faults::noted;
use crate::words::words::command;
use std::alloc::Global;
use std::test::Fail;
use t32_base::lists::{Bytes, Text};
use t32_base::streams::NoMemory;
use test_asserts::same;

// The line of `sim` with so many script words.
fn line_of(alloc: Global, count: u32) -> Result<Text, NoMemory> {
    let mut line = Bytes::copy_of(alloc, b"sim")?;
    for _ in 0..count {
        line.extend(b" crash:0@bus:1")?;
    }
    Ok(line)
}

fn assert_line(alloc: Global, line: &[u8], is_command: bool, wanted: &str) -> Result<(), Fail> {
    let found = command(alloc, line)?.is_some();
    same("a command", &found, &is_command)?;
    let noted = noted(alloc, line)?;
    same("what is noted", &noted.as_slice(), &wanted.as_bytes())
}

// Whether a line of so many script words is a command, and what is noted of it.
fn assert_read(alloc: Global, count: u32, is_command: bool, wanted: &str) -> Result<(), Fail> {
    let line = line_of(alloc, count)?;
    assert_line(alloc, line.as_slice(), is_command, wanted)
}

#[test]
fn a_script_has_32_words_at_most(rt: HostRuntime) -> Result<(), Fail> {
    assert_read(rt.alloc(), 32, true, "")?;
    assert_read(
        rt.alloc(),
        33,
        false,
        "t32: word 34: crash:0@bus:1: a script has 32 words at most\n",
    )
}
