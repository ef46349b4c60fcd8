//! A source of bytes and a sink for bytes. Each may tell what it has left or holds, and counts its faults.
ghost use Rattle.std.specs.Prelude.{◌≡◌, ◌≤◌, ◌<◌, ◌^◌, List, ℕ, Bool, Option, length};
ghost use Rattle.t32_base.specs.Streams.{Took, is_end, TakeCause, Gave, GiveCause};

use crate::lists::Bytes;
use std::alloc::{AllocError, AllocFailed, Global};
use thiserror::Error;

/// A read or a write that failed.
#[derive(Clone, Copy, PartialEq, Eq, Debug, Error)]
#[error("the outside failed")]
pub struct Failed;

/// Memory was refused.
#[derive(Clone, Copy, PartialEq, Eq, Debug, Error)]
#[error("memory was refused")]
pub struct NoMemory;

impl From<AllocError> for NoMemory {
    fn from(_: AllocError) -> Self {
        NoMemory
    }
}

impl<T: Drop> From<AllocFailed<T>> for NoMemory {
    fn from(_: AllocFailed<T>) -> Self {
        NoMemory
    }
}

/// What a source gave: 1 byte or more, or its end.
#[derive(Drop)]
pub enum Taken {
    Got(Bytes),
    End,
}

/// Why a source gave nothing.
#[derive(Clone, Copy, PartialEq, Eq, Debug, Error)]
pub enum TakeFault {
    #[error("the input could not be read")]
    Failed,
    #[error("memory was refused")]
    NoMemory,
}

/// A source of bytes.
pub trait Source {
    /// The bytes that are left, where the source tells them.
    ghost left: { Self → Option (List ℕ) };

    /// Its last call answered that it is at its end.
    ghost ended: { Self → Bool };

    /// How often a call has failed. It stays at the greatest u64 once it is there.
    ghost fault_count: { Self → ℕ };

    /// How often a call has failed.
    fn faults(&self) -> u64
        ensures { result ≡ fault_count self.now };

    /// Takes 1 to `room` bytes from the front of those that are left, or answers the end. `Failed` comes
    /// only where the count of faults rose in this call. A refused call takes nothing.
    fn take(&mut self, alloc: Global, room: u32) -> Result<Taken, TakeFault>
        requires { 1 ≤ room }
        ensures bytes { Took room (left self.old) (left self.new) result }
        ensures end { ended self.new ≡ is_end result }
        ensures cause { TakeCause (fault_count self.old) (fault_count self.new) result };
}

/// A sink for bytes.
pub trait Sink {
    /// The bytes that it holds, where the sink tells them.
    ghost holds: { Self → Option (List ℕ) };

    /// How often a call has failed. It stays at the greatest u64 once it is there.
    ghost fault_count: { Self → ℕ };

    /// How often a call has failed.
    fn faults(&self) -> u64
        ensures { result ≡ fault_count self.now };

    /// Takes at least one byte from the front of a piece, puts what it took after what it holds, and
    /// answers how many bytes those are. `Failed` comes only where the count of faults rose in this
    /// call, and then nothing was put.
    fn give(&mut self, piece: &[u8]) -> Result<u32, Failed>
        requires { 1 ≤ length piece.now }
        ensures bytes { Gave piece.now (holds self.old) (holds self.new) result }
        ensures cause { GiveCause (fault_count self.old) (fault_count self.new) result };
}
