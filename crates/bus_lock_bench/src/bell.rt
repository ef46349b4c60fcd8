//! A bell behind a lock, with an entry for each stroke.
ghost use Rattle.std.specs.Prelude.{◌≡◌, ◌++◌, ◌∷◌, [], ◌⊎◌, None, false, All};
ghost use Rattle.bus_lock.specs.Seats.{IsOf, has_entered};

use bus_lock::{LogLock, LogSeat, LogValue};
use std::alloc::{AllocError, AllocFailed, Global};
use std::sync::Wait;
use std::thread::{Threads, map_vec};

#[derive(Drop)]
pub struct Bell {
    strokes: Vec<u64>,
}

impl Bell {
    pub fn new(alloc: Global) -> Bell
        ensures { result.strokes.items ≡ [] }
    {
        Bell {
            strokes: Vec::new(alloc),
        }
    }

    // One stroke more, or none where memory is refused.
    fn strike(&mut self)
        ensures { (self.new.strokes.items ≡ self.old.strokes.items) ⊎ (self.new.strokes.items ≡ self.old.strokes.items ++ 7 ∷ []) }
    {
        match self.strokes.push(7) {
            Ok(()) => (),
            Err(AllocFailed { value: _ }) => (),
        }
    }
}

impl LogValue for Bell {
    type Entry = u64;

    type Origin = ();

    ghost entries = { λ bell. bell.strokes.items };

    ghost origin = { λ _. tt };

    ghost author = { λ _. None };

    fn length(&self) -> u64 {
        self.strokes.len() as u64
    }
}

// Enters and leaves once, and adds a stroke if it is to.
fn ring_once<R: Wait>(rt: &R, lock: &LogLock<Bell>, seat: &mut LogSeat<Bell>, adds: bool)
    requires { IsOf lock.now seat.old × (has_entered seat.old ≡ false) }
    ensures { IsOf lock.now seat.new × (has_entered seat.new ≡ false) }
{
    let mut bell = lock.enter(rt, seat);
    if adds {
        bell.strike();
    }
    lock.leave(seat, bell);
}

fn ring<R: Wait>(
    rt: &R,
    lock: &LogLock<Bell>,
    seat: LogSeat<Bell>,
    rounds: u64,
    adds: bool,
) -> LogSeat<Bell>
    requires { IsOf lock.now seat × (has_entered seat ≡ false) }
    ensures { IsOf lock.now result × (has_entered result ≡ false) }
{
    let mut mine = seat;
    for _ in 0..rounds {
        ring_once(rt, lock, &mut mine, adds);
    }
    mine
}

/// Each seat rings so many times, in a thread of its own.
pub fn ring_all<R: Threads + Wait + Sync>(
    rt: &R,
    lock: &LogLock<Bell>,
    seats: Vec<LogSeat<Bell>>,
    rounds: u64,
    adds: bool,
) -> Result<Vec<LogSeat<Bell>>, AllocError>
    requires { All (λ seat. IsOf lock.now seat × (has_entered seat ≡ false)) seats.items }
{
    map_vec(rt, seats, &|seat| ring(rt, lock, seat, rounds, adds))
}
