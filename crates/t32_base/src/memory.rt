//! A source and a sink over bytes in memory, which fail at the calls of a list.
ghost use Rattle.std.specs.Prelude.{◌≡◌, ◌≤◌, ◌+◌, ◌^◌, [], ◌∷◌, ◌++◌, length, drop, false, Some, IfOk, IsErr, IsErrOf, IsTrue, Contains, ◌↔◌, ◌⊎◌, vec_len, vec_capacity};
ghost use Rattle.t32_base.specs.Streams.{one_more, Took, is_end, TakeCause, Gave, GiveCause};

use crate::lists::{Bytes, List};
use crate::streams::{Failed, NoMemory, Sink, Source, TakeFault, Taken};
use std::alloc::Global;

/// A source that gives `bytes`, of which the first `at` are taken: at most `most` in one call. The calls
/// whose numbers, from 0, stand in `failing` fail.
#[derive(Drop)]
pub struct MemSource {
    pub bytes: Bytes,
    pub at: usize,
    pub failing: List<u64>,
    pub most: u32,
    pub calls: u64,
    pub fault_calls: u64,
    pub at_end: bool,
    pub ghost within: { at ≤ length bytes },
    pub ghost some: { 1 ≤ most },
}

impl MemSource {
    /// A source that has all these bytes left, with no call made and no fault.
    pub fn new(bytes: Bytes, failing: List<u64>, most: u32) -> MemSource
        requires { 1 ≤ most }
        ensures left { drop result.at result.bytes ≡ bytes }
        ensures listed { (result.failing ≡ failing) × (result.most ≡ most) }
        ensures fresh { (result.calls ≡ 0) × (result.fault_calls ≡ 0) × (result.at_end ≡ false) }
    {
        MemSource {
            bytes,
            at: 0,
            failing,
            most,
            calls: 0,
            fault_calls: 0,
            at_end: false,
        }
    }
}

impl Source for MemSource {
    ghost left = { λ s. Some (drop s.at s.bytes) };

    ghost ended = { λ s. s.at_end };

    ghost fault_count = { λ s. s.fault_calls };

    fn faults(&self) -> u64 {
        self.fault_calls
    }

    fn take(&mut self, alloc: Global, room: u32) -> Result<Taken, TakeFault>
        requires { 1 ≤ room }
        ensures bytes { Took room (Some (drop self.old.at self.old.bytes)) (Some (drop self.new.at self.new.bytes)) result }
        ensures end { self.new.at_end ≡ is_end result }
        ensures cause { TakeCause self.old.fault_calls self.new.fault_calls result }
        ensures listed { IsErrOf result TakeFault.Failed ↔ Contains self.old.failing self.old.calls }
        ensures calls { self.new.calls ≡ one_more self.old.calls }
        ensures kept { (self.new.bytes ≡ self.old.bytes) × (self.new.failing ≡ self.old.failing) × (self.new.most ≡ self.old.most) }
    {
        let call = self.calls;
        self.calls = call.saturating_add(1);
        self.at_end = false;
        if self.failing.as_slice().contains(&call) {
            self.fault_calls = self.fault_calls.saturating_add(1);
            return Err(TakeFault::Failed);
        }
        let rest = self.bytes.len() - self.at;
        if rest == 0 {
            self.at_end = true;
            return Ok(Taken::End);
        }
        let count = rest.min(room.min(self.most) as usize);
        let end = self.at + count;
        match Bytes::copy_of(alloc, &self.bytes.as_slice()[self.at..end]) {
            Ok(piece) => {
                self.at = end;
                Ok(Taken::Got(piece))
            }
            Err(NoMemory) => Err(TakeFault::NoMemory),
        }
    }
}

/// A sink that holds `bytes` and has room for `room` of them: it takes at most `most` in one call. The
/// calls whose numbers, from 0, stand in `failing` fail.
#[derive(Drop)]
pub struct MemSink {
    pub bytes: Vec<u8>,
    pub room: u32,
    pub failing: List<u64>,
    pub most: u32,
    pub calls: u64,
    pub fault_calls: u64,
    pub ghost some: { 1 ≤ most },
    pub ghost within: { vec_len bytes ≤ room },
    pub ghost has_room: { room ≤ vec_capacity bytes },
}

impl MemSink {
    /// A sink that holds nothing, with no call made and no fault. Its room is made here, so that no call
    /// takes memory.
    pub fn new(alloc: Global, room: u32, failing: List<u64>, most: u32) -> Result<MemSink, NoMemory>
        requires { 1 ≤ most }
        ensures holds { IfOk result (λ sink. sink.bytes.items ≡ []) }
        ensures listed { IfOk result (λ sink. (sink.failing ≡ failing) × (sink.room ≡ room) × (sink.most ≡ most)) }
        ensures fresh { IfOk result (λ sink. (sink.calls ≡ 0) × (sink.fault_calls ≡ 0)) }
    {
        let bytes = Vec::with_capacity(alloc, room as usize)?;
        Ok(MemSink {
            bytes,
            room,
            failing,
            most,
            calls: 0,
            fault_calls: 0,
        })
    }

    // Whether the next call fails: it is listed, or the room is used up.
    fn refuses(&self) -> bool
        ensures { IsTrue result ↔ (Contains self.now.failing self.now.calls ⊎ (length self.now.bytes.items ≡ self.now.room)) }
    {
        self.failing.as_slice().contains(&self.calls) || self.bytes.len() == self.room as usize
    }
}

impl Sink for MemSink {
    ghost holds = { λ s. Some s.bytes.items };

    ghost fault_count = { λ s. s.fault_calls };

    fn faults(&self) -> u64 {
        self.fault_calls
    }

    fn give(&mut self, piece: &[u8]) -> Result<u32, Failed>
        requires { 1 ≤ length piece.now }
        ensures bytes { Gave piece.now (Some self.old.bytes.items) (Some self.new.bytes.items) result }
        ensures cause { GiveCause self.old.fault_calls self.new.fault_calls result }
        ensures listed { IsErr result ↔ (Contains self.old.failing self.old.calls ⊎ (length self.old.bytes.items ≡ self.old.room)) }
        ensures calls { self.new.calls ≡ one_more self.old.calls }
        ensures kept { (self.new.failing ≡ self.old.failing) × (self.new.room ≡ self.old.room) × (self.new.most ≡ self.old.most) }
    {
        let refuses = self.refuses();
        self.calls = self.calls.saturating_add(1);
        if refuses {
            self.fault_calls = self.fault_calls.saturating_add(1);
            return Err(Failed);
        }
        let free = self.room as usize - self.bytes.len();
        let count = piece.len().min(free.min(self.most as usize));
        match self.bytes.extend_from_slice(&piece[..count]) {
            Ok(()) => Ok(count as u32),
            Err(_) => unreachable!(),
        }
    }
}
