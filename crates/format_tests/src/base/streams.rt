//! Sources and sinks over memory, and over readers and writers.
ghost use Rattle.std.specs.Prelude.{◌≤◌, length};

use std::alloc::Global;
use std::io;
use std::io::{Cursor, Read};
use std::test::Fail;
use t32_base::lists::{Bytes, List};
use t32_base::memory::{MemSink, MemSource};
use t32_base::standard::{StdSink, StdSource};
use t32_base::streams::{Failed, NoMemory, Sink, Source, TakeFault, Taken};
use test_asserts::same;

// How many bytes a call took; 100 for the end, 200 for a fault.
fn took(taken: Result<Taken, TakeFault>) -> usize {
    match taken {
        Ok(Taken::Got(piece)) => piece.len(),
        Ok(Taken::End) => 100,
        Err(TakeFault::Failed) => 200,
        Err(TakeFault::NoMemory) => 300,
    }
}

fn listed(alloc: Global, calls: &[u64]) -> Result<List<u64>, NoMemory> {
    let mut list = List::new(alloc);
    for call in calls {
        list.push(*call)?;
    }
    Ok(list)
}

// What a call took, and the faults then.
fn asked(alloc: Global, source: &mut MemSource, room: u32) -> (usize, u64)
    requires { 1 ≤ room }
{
    let taken = took(source.take(alloc, room));
    (taken, source.faults())
}

// Five bytes, two a call, with faults at the calls 1 and 4.
fn source_of_five(alloc: Global) -> Result<MemSource, NoMemory> {
    let failing = listed(alloc, &[1, 4])?;
    Ok(MemSource::new(Bytes::copy_of(alloc, b"abcde")?, failing, 2))
}

fn asked_on(alloc: Global) -> Result<[(usize, u64); 7], NoMemory> {
    let mut source = source_of_five(alloc)?;
    Ok([
        asked(alloc, &mut source, 9),
        asked(alloc, &mut source, 9),
        asked(alloc, &mut source, 1),
        asked(alloc, &mut source, 9),
        asked(alloc, &mut source, 9),
        asked(alloc, &mut source, 9),
        asked(alloc, &mut source, 9),
    ])
}

static ASKED: [(usize, u64); 7] = [
    (2, 0),
    (200, 1),
    (1, 1),
    (2, 1),
    (200, 2),
    (100, 2),
    (100, 2),
];

#[test]
fn a_source_over_memory_fails_at_the_listed_calls_only(rt: HostRuntime) -> Result<(), Fail> {
    same(
        "what each call took, and the faults then",
        &asked_on(rt.alloc())?,
        &ASKED,
    )
}

// What a call answered, and the faults then.
fn gave(sink: &mut MemSink, piece: &[u8]) -> (Result<u32, Failed>, u64)
    requires { 1 ≤ length piece.now }
{
    let answer = sink.give(piece);
    (answer, sink.faults())
}

// Room for five bytes, three a call, with a fault at call 1.
fn sink_of_five(alloc: Global) -> Result<MemSink, NoMemory> {
    MemSink::new(alloc, 5, listed(alloc, &[1])?, 3)
}

type Gave = (Result<u32, Failed>, u64);

fn gave_on(sink: &mut MemSink) -> [Gave; 5] {
    [
        gave(sink, b"abcd"),
        gave(sink, b"d"),
        gave(sink, b"d"),
        gave(sink, b"ef"),
        gave(sink, b"f"),
    ]
}

static GAVE: [Gave; 5] = [
    (Ok(3), 0),
    (Err(Failed), 1),
    (Ok(1), 1),
    (Ok(1), 1),
    (Err(Failed), 2),
];

#[test]
fn a_sink_over_memory_fails_at_the_listed_calls_and_when_full(rt: HostRuntime) -> Result<(), Fail> {
    let mut sink = sink_of_five(rt.alloc())?;
    same(
        "what each call answered, and the faults then",
        &gave_on(&mut sink),
        &GAVE,
    )?;
    same("the bytes", &sink.bytes.as_slice(), &b"abcde".as_slice())
}

// Gives two bytes a call, and fails at its second call.
#[derive(Drop)]
struct Flaky {
    calls: u32,
}

impl Read for Flaky {
    fn read(&mut self, buf: &mut [u8]) -> io::Result<usize> {
        let call = self.calls;
        self.calls = call.saturating_add(1);
        if call == 1 {
            return Err(io::ErrorKind::Other.into());
        }
        if call > 2 || buf.len() < 2 {
            return Ok(0);
        }
        buf[0] = b'a';
        buf[1] = b'b';
        Ok(2)
    }
}

fn read_once(alloc: Global, source: &mut StdSource<Flaky>) -> (usize, u64) {
    let taken = took(source.take(alloc, 8));
    (taken, source.faults())
}

fn read_on(alloc: Global) -> [(usize, u64); 4] {
    let mut source = StdSource::new(Flaky { calls: 0 });
    [
        read_once(alloc, &mut source),
        read_once(alloc, &mut source),
        read_once(alloc, &mut source),
        read_once(alloc, &mut source),
    ]
}

static READ: [(usize, u64); 4] = [(2, 0), (200, 1), (2, 1), (100, 1)];

#[test]
fn a_fault_of_a_reader_is_counted(rt: HostRuntime) -> Result<(), Fail> {
    same(
        "what each call took, and the faults then",
        &read_on(rt.alloc()),
        &READ,
    )
}

fn write_once(sink: &mut StdSink<Cursor<[u8; 4]>>) -> Gave {
    let answer = sink.give(b"xyz");
    (answer, sink.faults())
}

// A writer with room for four bytes, and then for none.
fn written_on() -> [Gave; 3] {
    let mut sink = StdSink::new(Cursor::new([0u8; 4]));
    [
        write_once(&mut sink),
        write_once(&mut sink),
        write_once(&mut sink),
    ]
}

static WRITTEN: [Gave; 3] = [(Ok(3), 0), (Ok(1), 0), (Err(Failed), 1)];

#[test]
fn a_fault_of_a_writer_is_counted() -> Result<(), Fail> {
    same(
        "what each call answered, and the faults then",
        &written_on(),
        &WRITTEN,
    )
}

// A long text, asked for at most in pieces of 64 KB.
fn read_long(alloc: Global) -> [usize; 4] {
    let mut source = StdSource::new(Cursor::new([7; 20000]));
    [
        took(source.take(alloc, 65536)),
        took(source.take(alloc, 65536)),
        took(source.take(alloc, 65536)),
        took(source.take(alloc, 65536)),
    ]
}

// A short text, asked for in pieces of two bytes, of one and of all that is left.
fn read_short(alloc: Global) -> Result<Bytes, NoMemory> {
    let mut bytes = Bytes::new(alloc);
    let mut source = StdSource::new(Cursor::new(b"abcde"));
    read_piece(alloc, &mut source, 2, &mut bytes)?;
    read_piece(alloc, &mut source, 1, &mut bytes)?;
    read_piece(alloc, &mut source, 65536, &mut bytes)?;
    Ok(bytes)
}

fn read_piece(
    alloc: Global,
    source: &mut StdSource<Cursor<&[u8; 5]>>,
    room: u32,
    bytes: &mut Bytes,
) -> Result<(), NoMemory>
    requires some { 1 ≤ room }
{
    match source.take(alloc, room) {
        Ok(Taken::Got(piece)) => bytes.extend(piece.as_slice()),
        _ => Ok(()),
    }
}

#[test]
fn a_long_text_is_read_in_longer_pieces(rt: HostRuntime) -> Result<(), Fail> {
    let alloc = rt.alloc();
    same("long", &read_long(alloc), &[2048, 16384, 1568, 100])?;
    let short = read_short(alloc)?;
    same("short", &short.as_slice(), &b"abcde".as_slice())
}
