//! Standard input and output as a source and a sink. They tell nothing of what they have left or hold.
ghost use Rattle.std.specs.Prelude.{◌≡◌, ◌≤◌, None, IfOk, length};
ghost use Rattle.t32_base.specs.Streams.{TakeCause, Took, is_end};

use crate::lists::Bytes;
use crate::streams::{Failed, NoMemory, Sink, Source, TakeFault, Taken};
use std::alloc::Global;
use std::io::{Read, Write};

/// The most bytes of one read or write.
pub const PIECE: usize = 16384;

// The most bytes of a read until one has filled its place: a short text needs no larger one.
const SHORT_PIECE: usize = 2048;

/// A reader as a source. An error of the reader is a fault.
#[derive(Drop)]
pub struct StdSource<R: Read> {
    pub reader: R,
    pub fault_calls: u64,
    pub at_end: bool,
    // Where a read puts its bytes. It stays from read to read, as it is cleared when it is made.
    place: Option<Vec<u8>>,
    // A read filled its place, so more may be left than that holds.
    filled: bool,
}

impl<R: Read> StdSource<R> {
    pub fn new(reader: R) -> Self {
        StdSource {
            reader,
            fault_calls: 0,
            at_end: false,
            place: None,
            filled: false,
        }
    }

    // Reads into a place, and answers a copy of what was read.
    fn take_by(&mut self, alloc: Global, place: &mut [u8]) -> Result<Taken, TakeFault>
        requires { 1 ≤ length place.old }
        ensures bytes { Took (length place.old) None None result }
        ensures end { self.new.at_end ≡ is_end result }
        ensures cause { TakeCause self.old.fault_calls self.new.fault_calls result }
    {
        self.at_end = false;
        match self.reader.read(place) {
            Ok(0) => {
                self.at_end = true;
                Ok(Taken::End)
            }
            Ok(count) => {
                self.filled = self.filled || count == place.len();
                match Bytes::copy_of(alloc, &place[..count]) {
                    Ok(piece) => Ok(Taken::Got(piece)),
                    Err(_) => Err(TakeFault::NoMemory),
                }
            }
            Err(_) => {
                self.fault_calls = self.fault_calls.saturating_add(1);
                Err(TakeFault::Failed)
            }
        }
    }
}

impl<R: Read> Source for StdSource<R> {
    ghost left = { λ _. None };

    ghost ended = { λ s. s.at_end };

    ghost fault_count = { λ s. s.fault_calls };

    fn faults(&self) -> u64 {
        self.fault_calls
    }

    fn take(&mut self, alloc: Global, room: u32) -> Result<Taken, TakeFault> {
        let size = if self.filled { PIECE } else { SHORT_PIECE };
        match grown(alloc, self.place.take(), size) {
            Ok(mut place) => {
                let most = place.len().min(room as usize);
                let taken = self.take_by(alloc, &mut place[..most]);
                self.place = Some(place);
                taken
            }
            Err(NoMemory) => {
                self.at_end = false;
                Err(TakeFault::NoMemory)
            }
        }
    }
}

// A place of at least so many bytes: the one that was there, if there was one.
fn grown(alloc: Global, place: Option<Vec<u8>>, size: usize) -> Result<Vec<u8>, NoMemory>
    ensures { IfOk result (λ grown. size ≤ length grown.items) }
{
    let mut grown = place.unwrap_or(Vec::new(alloc));
    if grown.len() < size {
        grown.resize(size, 0)?;
    }
    Ok(grown)
}

/// A writer as a sink. An error of the writer is a fault, and so is a write that takes nothing.
#[derive(Drop)]
pub struct StdSink<W: Write> {
    pub writer: W,
    pub fault_calls: u64,
}

impl<W: Write> StdSink<W> {
    pub fn new(writer: W) -> Self {
        StdSink {
            writer,
            fault_calls: 0,
        }
    }
}

impl<W: Write> Sink for StdSink<W> {
    ghost holds = { λ _. None };

    ghost fault_count = { λ s. s.fault_calls };

    fn faults(&self) -> u64 {
        self.fault_calls
    }

    fn give(&mut self, piece: &[u8]) -> Result<u32, Failed> {
        let size = PIECE.min(piece.len());
        match self.writer.write(&piece[..size]) {
            Ok(count) if count > 0 => Ok(count as u32),
            _ => {
                self.fault_calls = self.fault_calls.saturating_add(1);
                Err(Failed)
            }
        }
    }
}
