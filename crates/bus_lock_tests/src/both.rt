//! Two threads.
ghost use Rattle.std.specs.Prelude.{◌+◌, length, ◌≡◌, ◌++◌, ◌∷◌, [], true, false, map, Some, IfOk, OnOk, vec_len};
ghost use Rattle.bus_lock.specs.Seats.{IsOf, added, IsFresh, seat_count, has_entered, name, numbers, own, seen, seat_origin};
ghost use Rattle.bus_lock_tests.specs.Written.{note, written_by};

use crate::notes::Notes;
use crate::worker::append;
use bus_lock::{LogLock, LogSeat};
use std::alloc::Global;
use std::sync::Wait;
use std::thread::{Threads, join};
use t32_base::streams::NoMemory;

// The two values of a vector.
fn two_of<T: Drop>(mut all: Vec<T>) -> (T, T)
    requires { vec_len all ≡ 2 }
    ensures { all.items ≡ result.0 ∷ result.1 ∷ [] }
{
    let second = all.pop().unwrap();
    let first = all.pop().unwrap();
    (first, second)
}

// A lock round no notes, with two seats.
pub(crate) fn open_two(
    alloc: Global,
    topic: u64,
) -> Result<(LogLock<Notes>, LogSeat<Notes>, LogSeat<Notes>), NoMemory>
    ensures count { IfOk result (λ r. seat_count r.0 ≡ 2) }
    ensures first { IfOk result (λ r. IsFresh r.0 (Some topic) 0 r.1) }
    ensures second { IfOk result (λ r. IsFresh r.0 (Some topic) 1 r.2) }
{
    let (lock, seats) = LogLock::with_seats(alloc, Notes::new(alloc, topic), 2)?;
    let (first, second) = two_of(seats.into_vec());
    Ok((lock, first, second))
}

// Joins the two seats of a lock, and closes it.
fn finish(lock: LogLock<Notes>, first: LogSeat<Notes>, second: LogSeat<Notes>) -> Notes
    requires of { IsOf lock first × IsOf lock second × (seat_count lock ≡ 2) }
    requires out { (has_entered first ≡ false) × (has_entered second ≡ false) }
    requires numbers { (numbers first ≡ 0 ∷ []) × (numbers second ≡ 1 ∷ []) }
    ensures first { written_by 0 result.notes.items ≡ written_by 0 (seen first) }
    ensures second { written_by 1 result.notes.items ≡ written_by 1 (seen second) }
    ensures all { length result.notes.items ≡ added first + added second }
    ensures topic { seat_origin first ≡ Some result.topic }
{
    let mut all = first;
    lock.join(&mut all, second);
    lock.close(all)
}

/// Two threads add notes to one list: it then has the notes of each in order, and no other.
#[tactic(auto, using(crate::proofs::Written::written_all))]
pub fn append_both<R: Threads + Wait + Sync>(
    rt: &R,
    alloc: Global,
    topic: u64,
    first: &[u64],
    second: &[u64],
) -> Result<Notes, NoMemory>
    ensures first { IfOk result (λ n. written_by 0 n.notes.items ≡ map (note 0) first.now) }
    ensures second { IfOk result (λ n. written_by 1 n.notes.items ≡ map (note 1) second.now) }
    ensures all { IfOk result (λ n. length n.notes.items ≡ length first.now + length second.now) }
    ensures topic { IfOk result (λ n. n.topic ≡ topic) }
{
    let (lock, a, b) = open_two(alloc, topic)?;
    let shared = &lock;
    let ((a, a_done), (b, b_done)) = join(
        rt,
        || -> (LogSeat<Notes>, Result<(), NoMemory>)
            requires { IsOf shared.now a × (has_entered a ≡ false) × (own a ≡ []) × (seen a ≡ []) × (added a ≡ 0) × (name a ≡ 0) }
            ensures of { IsOf shared.entry.now result.0 }
            ensures out { has_entered result.0 ≡ false }
            ensures same { (name result.0 ≡ name a) × (numbers result.0 ≡ numbers a) × (seat_origin result.0 ≡ seat_origin a) }
            ensures added { OnOk result.1 ((own result.0 ≡ map (note 0) first.entry.now) × (added result.0 ≡ length first.entry.now)) }
            ensures stands { written_by 0 (seen result.0) ≡ written_by 0 (own result.0) }
        { append(rt, shared, a, 0, first) },
        || -> (LogSeat<Notes>, Result<(), NoMemory>)
            requires { IsOf shared.now b × (has_entered b ≡ false) × (own b ≡ []) × (seen b ≡ []) × (added b ≡ 0) × (name b ≡ 1) }
            ensures of { IsOf shared.entry.now result.0 }
            ensures out { has_entered result.0 ≡ false }
            ensures same { (name result.0 ≡ name b) × (numbers result.0 ≡ numbers b) × (seat_origin result.0 ≡ seat_origin b) }
            ensures added { OnOk result.1 ((own result.0 ≡ map (note 1) second.entry.now) × (added result.0 ≡ length second.entry.now)) }
            ensures stands { written_by 1 (seen result.0) ≡ written_by 1 (own result.0) }
        { append(rt, shared, b, 1, second) },
    );
    a_done?;
    b_done?;
    Ok(finish(lock, a, b))
}
