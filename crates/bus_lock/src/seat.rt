//! What a thread holds of a lock.
ghost use Rattle.std.specs.Prelude.{◌≡◌, true, false, [], ◌∷◌, None};

use crate::rule::Place;
use crate::value::LogValue;

/// A seat: a token with no bytes, which carries what its thread knows of the list.
///
/// A seat that is dropped takes its numbers with it: its lock can then no longer be closed, and where it
/// is dropped between `enter` and `leave` no other seat enters any more.
pub struct LogSeat<V: LogValue> {
    pub(crate) seat: Place<V>,
    ghost live: { seat.me.0.live ≡ true },
    ghost outside: { seat.me.0.inside ≡ false → seat.me.1 ≡ [] },
    ghost inside: { seat.me.0.inside ≡ true → seat.me.1 ≡ (0, None) ∷ [] },
}

impl<V: LogValue> LogSeat<V> {
    // The seat at the table.
    pub(crate) fn into_place(self) -> Place<V>
        ensures place { result ≡ self.seat }
        ensures live { result.me.0.live ≡ true }
        ensures empty { result.me.0.inside ≡ false → result.me.1 ≡ [] }
    {
        let Self { seat } = self;
        seat
    }
}

impl<V: LogValue> Drop for LogSeat<V> {
    fn drop(self) {
        let Self { seat: _ } = self;
    }
}
