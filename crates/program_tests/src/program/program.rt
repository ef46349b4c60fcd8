//! The words that the program takes, and what it tells of its input and its output.
use program_calls::{call, sink, source};
use std::alloc::Global;
use std::sync::Wait;
use std::test::Fail;
use std::thread::Threads;
use t32_base::lists::{Bytes, List};
use t32_base::memory::{MemSink, MemSource};
use t32_base::streams::{NoMemory, Sink, Source};
use test_asserts::same;
use test_systems::HI;

// One byte more than is read.
const LARGE: usize = 4194305;

fn large_source(alloc: Global) -> Result<MemSource, NoMemory> {
    let text = vec![in alloc; 32u8; LARGE]?;
    Ok(MemSource::new(Bytes::from_vec(text), List::new(alloc), 1000000))
}

// What the program answers over a source, and what it wrote.
fn called_over<R: AllocGlobal + Threads + Wait + Sync>(
    rt: &R,
    line: &[u8],
    input: &mut MemSource,
) -> Result<((u8, bool), Vec<u8>), NoMemory> {
    let mut output = sink(rt.alloc())?;
    let answer = call(rt, line, input, &mut output)?;
    Ok((answer, output.bytes))
}

fn assert_too_long<R: AllocGlobal + Threads + Wait + Sync>(
    rt: &R,
    word: &[u8],
) -> Result<(), Fail> {
    let mut input = large_source(rt.alloc())?;
    let (answer, bytes) = called_over(rt, word, &mut input)?;
    let wanted = ((8, false), b"t32: input too long\n".as_slice());
    same("the answer", &(answer, bytes.as_slice()), &wanted)
}

#[test]
fn a_long_input_is_refused(rt: HostRuntime) -> Result<(), Fail> {
    assert_too_long(&rt, b"plain")?;
    assert_too_long(&rt, b"check")?;
    assert_too_long(&rt, b"asm")
}

// The words are read as `command_words` reads them; here are those that show it, with the status.
static WORDS: [(&[u8], u8); 26] = [
    (b"", 1),
    (b"help", 1),
    (b"Plain", 1),
    (b"plain --", 1),
    (b"check hi", 1),
    (b"sim --pick=0", 0),
    (b"sim --pick 0000000007 --log", 0),
    (b"sim --", 0),
    (b"run --log --", 0),
    (b"sim --log --log", 1),
    (b"sim --pick=1 --pick 1", 1),
    (b"sim --pick -1", 1),
    (b"sim -", 1),
    (b"sim -- --log", 1),
    (b"sim \xff", 1),
    (b"run --pick 1", 1),
    (b"sim crash:0@bus:0", 0),
    (b"sim -- crash:0@bus:0", 0),
    (b"run crash:0@bus:0 --", 0),
    (b"sim crash:0@step:0", 0),
    (b"run crash:1@step:2", 0),
    (b"sim crash:0@bus:0 crash:1@bus:1", 7),
    (b"sim disk:0@0", 0),
    (b"sim disk:0", 1),
    (b"sim return:0@bus:0", 0),
    (b"run return:0@bus:0", 0),
];

// The status, whether the program wrote how it is used, whether a run was handed out, and whether input was asked for.
fn used<R: AllocGlobal + Threads + Wait + Sync>(
    rt: &R,
    line: &[u8],
) -> Result<(u8, bool, bool, bool), NoMemory> {
    let mut input = source(rt.alloc(), HI.as_bytes())?;
    let mut output = sink(rt.alloc())?;
    let (status, ran) = call(rt, line, &mut input, &mut output)?;
    let usage = output.bytes.as_slice() == b"t32: usage\n".as_slice();
    Ok((status, usage, ran, input.calls != 0))
}

fn assert_used<R: AllocGlobal + Threads + Wait + Sync>(
    rt: &R,
    line: &[u8],
    status: u8,
) -> Result<(), Fail> {
    let usage = status == 1;
    let wanted = (status, usage, !usage, !usage);
    same("the line", &(line, used(rt, line)?), &(line, wanted))
}

#[test]
fn words_are_a_command_or_usage(rt: HostRuntime) -> Result<(), Fail> {
    for row in WORDS.iter() {
        assert_used(&rt, row.0, row.1)?;
    }
    Ok(())
}

// The same of `load`, which prints its workload where it is only to print it, and has the clusters of its script.
static LOADS: [(&[u8], u8); 18] = [
    (b"load 7 --text", 0),
    (b"load --text 0000000007", 0),
    (b"load 1000 --text --", 0),
    (b"load 7 --text crash:3@bus:1", 0),
    (b"load 7 --text -- disk:1@0", 0),
    (b"load 7 return:3@bus:5 --text crash:3@step:1", 0),
    (b"load 7 --text crash:4@bus:1", 1),
    (b"load 7 --text crash:9@bus:1", 1),
    (b"load 7 --text disk:2@0", 1),
    (b"load 7 --text crash:0@bus:1 disk:0@0", 0),
    (b"load 0 --text", 1),
    (b"load 1001 --text", 1),
    (b"load 7 --text --text", 1),
    (b"load -- 7 --text", 1),
    (b"load 7 crash:4@bus:1", 1),
    (b"load 7 return:4@bus:1", 1),
    (b"load 7 crash:0@bus:1 crash:4@bus:1", 1),
    (b"load 1001", 1),
];

// It makes no run, and asks for no input.
#[test]
fn load_prints_its_workload_or_is_usage(rt: HostRuntime) -> Result<(), Fail> {
    for row in LOADS.iter() {
        let wanted = (row.1, row.1 == 1, false, false);
        same("the line", &(row.0, used(&rt, row.0)?), &(row.0, wanted))?;
    }
    Ok(())
}

// The token goes round so often, and all 31 processes end, whatever is lost.
static LOAD_RUNS: [(&[u8], &str); 5] = [
    (b"load 7", "load 7 tty 7 exits 31 other 0\n"),
    (b"load 7 crash:2@bus:100", "load 7 tty 7 exits 31 other 0\n"),
    (
        b"load 7 -- crash:0@step:300",
        "load 7 tty 7 exits 31 other 0\n",
    ),
    (
        b"load 0000000001 disk:0@3",
        "load 1 tty 1 exits 31 other 0\n",
    ),
    (b"load 1000", "load 1000 tty 1000 exits 31 other 0\n"),
];

// What the program answers to the words over an empty input, whether a run was handed out, and whether input was asked for.
fn loaded<R: AllocGlobal + Threads + Wait + Sync>(
    rt: &R,
    line: &[u8],
) -> Result<(u8, Vec<u8>, bool, bool), NoMemory> {
    let mut input = source(rt.alloc(), b"")?;
    let mut output = sink(rt.alloc())?;
    let (status, ran) = call(rt, line, &mut input, &mut output)?;
    Ok((status, output.bytes, ran, input.calls != 0))
}

#[test]
fn load_runs_its_workload(rt: HostRuntime) -> Result<(), Fail> {
    for (line, written) in LOAD_RUNS {
        let (status, bytes, ran, asked) = loaded(&rt, line)?;
        let shown = (status, bytes.as_slice(), ran, asked);
        same("the answer", &shown, &(0, written.as_bytes(), true, false))?;
    }
    Ok(())
}

// A sink that takes five bytes and then fails.
fn failing_sink(alloc: Global) -> Result<MemSink, NoMemory> {
    let failing = List::from_vec(vec![in alloc; 1u64]?);
    MemSink::new(alloc, 1000, failing, 5)
}

/// What the program answers over such a sink, what the sink took, and how often it failed.
pub fn failed<R: AllocGlobal + Threads + Wait + Sync>(
    rt: &R,
    line: &[u8],
) -> Result<((u8, bool), Vec<u8>, u64), NoMemory> {
    let mut input = source(rt.alloc(), HI.as_bytes())?;
    let mut output = failing_sink(rt.alloc())?;
    let answer = call(rt, line, &mut input, &mut output)?;
    let faults = output.faults();
    Ok((answer, output.bytes, faults))
}

#[test]
fn a_sink_that_fails_keeps_what_it_took(rt: HostRuntime) -> Result<(), Fail> {
    let (answer, bytes, faults) = failed(&rt, b"plain")?;
    let shown = (answer, bytes.as_slice(), faults);
    same("the answer", &shown, &((5, false), b"tty 0".as_slice(), 1))
}

// A source that fails at this call.
fn failing_source(alloc: Global, call: u64) -> Result<MemSource, NoMemory> {
    let failing = List::from_vec(vec![in alloc; call]?);
    let text = Bytes::copy_of(alloc, HI.as_bytes())?;
    Ok(MemSource::new(text, failing, 100))
}

fn assert_fault<R: AllocGlobal + Threads + Wait + Sync>(
    rt: &R,
    failing_call: u64,
) -> Result<(), Fail> {
    let mut input = failing_source(rt.alloc(), failing_call)?;
    let (answer, bytes) = called_over(rt, b"plain", &mut input)?;
    let wanted = ((4, false), b"t32: read fault\n".as_slice(), 1);
    let shown = (answer, bytes.as_slice(), input.faults());
    same("the answer", &shown, &wanted)
}

// At its first call, or in mid-stream.
#[test]
fn a_source_that_fails_is_told(rt: HostRuntime) -> Result<(), Fail> {
    assert_fault(&rt, 0)?;
    assert_fault(&rt, 1)
}
