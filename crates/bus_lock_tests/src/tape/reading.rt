//! Reading a tape through its lock.
ghost use Rattle.std.specs.Prelude.{◌≡◌, ◌<◌, false, slice_get, Some, IfSome};
ghost use Rattle.bus_lock.specs.Seats.{IsOf, has_entered, seen};

use super::Tape;
use bus_lock::{LogLock, LogSeat};
use std::sync::Wait;

/// The first digit, which is below ten, whoever wrote it. It stands first in what the seat has then seen.
pub fn first_digit<R: Wait>(rt: &R, lock: &LogLock<Tape>, seat: &mut LogSeat<Tape>) -> Option<u64>
    requires { IsOf lock.now seat.old × (has_entered seat.old ≡ false) }
    ensures seat { IsOf lock.now seat.new × (has_entered seat.new ≡ false) }
    ensures value { result ≡ slice_get (seen seat.new) 0 }
    ensures digit { IfSome result (λ x. x < 10) }
{
    let tape = lock.enter(rt, seat);
    let first = tape.first();
    lock.leave(seat, tape);
    first
}
