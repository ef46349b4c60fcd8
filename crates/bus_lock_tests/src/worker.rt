//! What one thread does.
ghost use Rattle.std.specs.Prelude.{◌+◌, length, ◌≡◌, ◌++◌, ◌∷◌, [], true, false, map, MatchResult, ◌<◌, OnOk};
ghost use Rattle.bus_lock.specs.Seats.{IsOf, added, has_entered, name, numbers, own, seen, seat_origin};
ghost use Rattle.bus_lock_tests.specs.Written.{note, written_by};

use crate::notes::{Note, Notes};
use bus_lock::{LogLock, LogSeat, LogValue};
use std::sync::Wait;
use t32_base::streams::NoMemory;

/// Adds one note by the seat's name. Where memory is refused, none is added.
pub fn add_one<R: Wait>(
    rt: &R,
    lock: &LogLock<Notes>,
    seat: &mut LogSeat<Notes>,
    me: u64,
    value: u64,
) -> Result<(), NoMemory>
    requires of { IsOf lock.now seat.old }
    requires out { has_entered seat.old ≡ false }
    requires me { name seat.old ≡ me }
    ensures of { IsOf lock.now seat.new }
    ensures out { has_entered seat.new ≡ false }
    ensures same { (name seat.new ≡ name seat.old) × (numbers seat.new ≡ numbers seat.old) × (seat_origin seat.new ≡ seat_origin seat.old) }
    ensures added { MatchResult result (λ _. own seat.new ≡ own seat.old ++ note me value ∷ []) (λ _. own seat.new ≡ own seat.old) }
    ensures count { MatchResult result (λ _. added seat.new ≡ added seat.old + 1) (λ _. added seat.new ≡ added seat.old) }
    ensures stands { written_by me (seen seat.new) ≡ written_by me (own seat.new) }
{
    let mut notes = lock.enter(rt, seat);
    let pushed = notes.push(Note {
        by: Some(me),
        value,
    });
    lock.leave(seat, notes);
    pushed
}

/// Adds a note for each value, in order, by the name of a new seat. It stops where memory is refused.
pub fn append<R: Wait>(
    rt: &R,
    lock: &LogLock<Notes>,
    seat: LogSeat<Notes>,
    me: u64,
    values: &[u64],
) -> (LogSeat<Notes>, Result<(), NoMemory>)
    requires of { IsOf lock.now seat }
    requires new { (has_entered seat ≡ false) × (own seat ≡ []) × (seen seat ≡ []) × (added seat ≡ 0) }
    requires me { name seat ≡ me }
    ensures of { IsOf lock.now result.0 }
    ensures out { has_entered result.0 ≡ false }
    ensures same { (name result.0 ≡ name seat) × (numbers result.0 ≡ numbers seat) × (seat_origin result.0 ≡ seat_origin seat) }
    ensures added { OnOk result.1 ((own result.0 ≡ map (note me) values.now) × (added result.0 ≡ length values.now)) }
    ensures stands { written_by me (seen result.0) ≡ written_by me (own result.0) }
{
    let mut mine = seat;
    for value in values {
        if let Err(refused) = add_one(rt, lock, &mut mine, me, *value) {
            return (mine, Err(refused));
        }
    }
    (mine, Ok(()))
}

/// Waits until there are more notes than this, and answers how many there then are.
pub fn wait_for<R: Wait>(
    rt: &R,
    lock: &LogLock<Notes>,
    seat: &mut LogSeat<Notes>,
    count: u64,
) -> u64
    requires of { IsOf lock.now seat.old }
    requires out { has_entered seat.old ≡ false }
    ensures of { IsOf lock.now seat.new }
    ensures out { has_entered seat.new ≡ false }
    ensures same { (name seat.new ≡ name seat.old) × (numbers seat.new ≡ numbers seat.old) × (seat_origin seat.new ≡ seat_origin seat.old) }
    ensures more { count < result }
{
    lock.wait_past(rt, seat, count);
    let notes = lock.enter(rt, seat);
    let found = notes.length();
    lock.leave(seat, notes);
    found
}
