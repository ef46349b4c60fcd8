//! Any number of threads, each started by a call that cannot be refused.
ghost use Rattle.std.specs.Prelude.{◌≡◌, ◌<◌, ◌+◌, ◌*◌, ◌∷◌, [], true, false, ℕ, Option, OnOk, IfOk, length, map, vec_len};
ghost use denote.Param.Send.{IsSync};
ghost use Rattle.bus_lock.specs.Seats.{AllFresh, IsOf, added, has_entered, name, numbers, own, seen};
ghost use Rattle.bus_lock_tests.specs.Written.{HasAll, note, written_by};

use crate::notes::Notes;
use crate::worker::append;
use bus_lock::{LogLock, LogSeat};
use std::alloc::Global;
use std::sync::Wait;
use std::thread::{Threads, join};
use t32_base::streams::NoMemory;

// Each of the seats adds its notes in a thread of its own. They come back as one seat, which says whether all were added.
fn chain<R: Threads + Wait + Sync>(
    rt: &R,
    lock: &LogLock<Notes>,
    seats: Vec<LogSeat<Notes>>,
    values: &[u64],
) -> (LogSeat<Notes>, bool)
    requires some { 0 < vec_len seats }
    requires fresh { (topic : Option ℕ) × AllFresh lock.now topic seats.items }
    ensures of { IsOf lock.now result.0 × (has_entered result.0 ≡ false) }
    ensures all { result.1 ≡ true → HasAll lock.now values.now (vec_len seats) result.0 }
{
    let mut rest = seats;
    let last = rest.pop().unwrap();
    if rest.is_empty() {
        let (seat, added) = append(rt, lock, last, 0, values);
        return (seat, added.is_ok());
    }
    let me = rest.len() as u64;
    let ((seat, added), (mut all, is_whole)) = join(
        rt,
        || -> (LogSeat<Notes>, Result<(), NoMemory>)
            requires { IsOf lock.now last × (has_entered last ≡ false) × (own last ≡ []) × (seen last ≡ []) × (added last ≡ 0) × (name last ≡ me) }
            ensures { IsOf lock.entry.now result.0 × (has_entered result.0 ≡ false) × (numbers result.0 ≡ numbers last) × OnOk result.1 ((own result.0 ≡ map (note me) values.entry.now) × (added result.0 ≡ length values.entry.now)) × (written_by me (seen result.0) ≡ written_by me (own result.0)) }
        { append(rt, lock, last, me, values) },
        || -> (LogSeat<Notes>, bool)
            requires { IsSync R.row × (0 < vec_len rest) × ((topic : Option ℕ) × AllFresh lock.now topic rest.items) }
            ensures { IsOf lock.entry.now result.0 × (has_entered result.0 ≡ false) × (result.1 ≡ true → HasAll lock.entry.now values.entry.now (vec_len rest) result.0) }
        { chain(rt, lock, rest, values) },
    );
    lock.join(&mut all, seat);
    if !added.is_ok() {
        return (all, false);
    }
    (all, is_whole)
}

/// Each of so many threads adds a note for each value: the list then has the notes of each in order, and no other.
pub fn append_each<R: Threads + Wait + Sync>(
    rt: &R,
    alloc: Global,
    threads: u32,
    values: &[u64],
) -> Result<Notes, NoMemory>
    requires { 0 < threads }
    ensures each { IfOk result (λ notes. (writer : ℕ) → writer < threads → written_by writer notes.notes.items ≡ map (note writer) values.now) }
    ensures all { IfOk result (λ notes. length notes.notes.items ≡ threads * length values.now) }
{
    let (lock, seats) = LogLock::with_seats(alloc, Notes::new(alloc, 0), threads)?;
    let (all, is_whole) = chain(rt, &lock, seats.into_vec(), values);
    if !is_whole {
        return Err(NoMemory);
    }
    Ok(lock.close(all))
}
