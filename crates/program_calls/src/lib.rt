//! The program by its words over memory, as the crates of its tests call it.
#![tactic(auto)]

use cluster_run::life::Ran;
use std::alloc::Global;
use std::sync::Wait;
use std::test::Fail;
use std::thread::Threads;
use t32_base::gate::{Gate, OpenGate};
use t32_base::lists::{Bytes, List, Text};
use t32_base::memory::{MemSink, MemSource};
use t32_base::streams::NoMemory;
use targon_cli::top::targon;
use test_asserts::same;

// More than any of the tests writes.
const ROOM: u32 = 20000;

// The words of a line, which single spaces part. An empty line has none.
fn words(alloc: Global, line: &[u8]) -> Result<Vec<Text>, NoMemory> {
    let mut words = Vec::new(alloc);
    if line.is_empty() {
        return Ok(words);
    }
    for word in line.split(|b| *b == b' ') {
        words.push(Bytes::copy_of(alloc, word)?)?;
    }
    Ok(words)
}

/// A source of a text that does not fail.
pub fn source(alloc: Global, text: &[u8]) -> Result<MemSource, NoMemory> {
    Ok(MemSource::new(Bytes::copy_of(alloc, text)?, List::new(alloc), 100))
}

/// A sink that does not fail.
pub fn sink(alloc: Global) -> Result<MemSink, NoMemory> {
    MemSink::new(alloc, ROOM, List::new(alloc), 7)
}

/// Calls the program with the words of a line over a source, a sink and a gate: the status, and the run that it handed out.
pub fn call_by<R: AllocGlobal + Threads + Wait + Sync, G: Gate + Sync>(
    rt: &R,
    gate: &G,
    line: &[u8],
    input: &mut MemSource,
    output: &mut MemSink,
) -> Result<(u8, Option<Ran>), NoMemory> {
    let alloc = rt.alloc();
    let list = words(alloc, line)?;
    let mut ran = None;
    let status = targon(rt, alloc, &list, input, output, gate, &mut ran);
    Ok((status, ran))
}

/// The same by an open gate.
pub fn call_for_run<R: AllocGlobal + Threads + Wait + Sync>(
    rt: &R,
    line: &[u8],
    input: &mut MemSource,
    output: &mut MemSink,
) -> Result<(u8, Option<Ran>), NoMemory> {
    call_by(rt, &OpenGate, line, input, output)
}

/// The status, and whether a run was handed out.
pub fn call<R: AllocGlobal + Threads + Wait + Sync>(
    rt: &R,
    line: &[u8],
    input: &mut MemSource,
    output: &mut MemSink,
) -> Result<(u8, bool), NoMemory> {
    let (status, ran) = call_for_run(rt, line, input, output)?;
    Ok((status, ran.is_some()))
}

/// What the program answers to these words and this input: the status, and what it wrote.
pub fn answer<R: AllocGlobal + Threads + Wait + Sync>(
    rt: &R,
    line: &[u8],
    text: &[u8],
) -> Result<(u8, Vec<u8>), NoMemory> {
    let mut input = source(rt.alloc(), text)?;
    let mut output = sink(rt.alloc())?;
    let (status, _) = call(rt, line, &mut input, &mut output)?;
    Ok((status, output.bytes))
}

/// To these words and this input the program writes just this, and ends with this status; or the test fails.
pub fn assert_answer<R: AllocGlobal + Threads + Wait + Sync>(
    rt: &R,
    line: &[u8],
    text: &str,
    status: u8,
    written: &str,
) -> Result<(), Fail> {
    let (ended, output) = answer(rt, line, text.as_bytes())?;
    let shown = (ended, output.as_slice());
    same("the answer", &shown, &(status, written.as_bytes()))
}
