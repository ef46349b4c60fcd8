//! Threads that really run: they lose no note, and wake each other.
ghost use Rattle.std.specs.Prelude.{◌≡◌, ◌<◌, [], false, IfOk};
ghost use Rattle.bus_lock.specs.Seats.{IsOf, added, has_entered, name, own, seen};

use super::both::open_two;
use super::*;
use bus_lock::{LogLock, LogSeat, LogValue};
use std::alloc::Global;
use std::sync::Wait;
use std::test::Fail;
use std::thread::{Threads, join};
use t32_base::streams::NoMemory;

// How many notes of this writer have the values 0, 1, 2 and so on, in order.
fn values_of(notes: &Notes, by: u64) -> u64 {
    let mut next = 0;
    for note in &notes.notes {
        if note.by == Some(by) && note.value == next && next < 1000 {
            next += 1;
        }
    }
    next
}

#[test]
fn two_threads_lose_nothing(rt: HostRuntime) -> Result<(), Fail> {
    let mut values = Vec::new(rt.alloc());
    for value in 0..500 {
        values.push(value)?;
    }
    let notes = append_both(&rt, rt.alloc(), 7, &values, &values)
        .ok()
        .ok_or("memory")?;
    assert_eq!(rt; notes.length(), 1000);
    assert_eq!(rt; values_of(&notes, 0), 500);
    assert_eq!(rt; values_of(&notes, 1), 500);
    assert_eq!(rt; notes.topic, 7);
    Ok(())
}

#[test]
fn many_threads_lose_nothing(rt: HostRuntime) -> Result<(), Fail> {
    let mut values = Vec::new(rt.alloc());
    for value in 0..250 {
        values.push(value)?;
    }
    for threads in [1u32, 2, 4] {
        let notes = append_each(&rt, rt.alloc(), threads, &values)
            .ok()
            .ok_or("memory")?;
        assert_eq!(rt; notes.length(), threads as u64 * 250);
        for by in 0..threads {
            assert_eq!(rt; values_of(&notes, by as u64), 250);
        }
    }
    Ok(())
}

// What a waiter found, with its seat.
fn watched<R: Wait>(
    rt: &R,
    lock: &LogLock<Notes>,
    seat: LogSeat<Notes>,
    count: u64,
) -> (LogSeat<Notes>, u64)
    requires { IsOf lock.now seat × (has_entered seat ≡ false) }
    ensures { count < result.1 }
{
    let mut mine = seat;
    let found = wait_for(rt, lock, &mut mine, count);
    (mine, found)
}

// One thread adds, and the other waits for it.
fn add_and_wait<R: Threads + Wait + Sync>(
    rt: &R,
    alloc: Global,
    values: &[u64],
) -> Result<u64, NoMemory>
    ensures { IfOk result (λ found. 2 < found) }
{
    let (lock, a, b) = open_two(alloc, 0)?;
    let shared = &lock;
    let ((_a, done), (_b, found)) = join(
        rt,
        || -> (LogSeat<Notes>, Result<(), NoMemory>)
            requires { IsOf shared.now a × (has_entered a ≡ false) × (own a ≡ []) × (seen a ≡ []) × (added a ≡ 0) × (name a ≡ 0) }
        { append(rt, shared, a, 0, values) },
        || -> (LogSeat<Notes>, u64)
            requires { IsOf shared.now b × (has_entered b ≡ false) }
            ensures { 2 < result.1 }
        { watched(rt, shared, b, 2) },
    );
    done?;
    Ok(found)
}

#[test]
fn a_waiter_sees_what_it_waited_for(rt: HostRuntime) -> Result<(), Fail> {
    let found = add_and_wait(&rt, rt.alloc(), &[1, 2, 3, 4])
        .ok()
        .ok_or("memory")?;
    assert!(rt; found == 3 || found == 4);
    Ok(())
}

// Adds a note each time that the other thread has added one: the thread of name 0 begins.
fn take_turns<R: Wait>(
    rt: &R,
    lock: &LogLock<Notes>,
    seat: LogSeat<Notes>,
    me: u64,
    rounds: u32,
) -> (LogSeat<Notes>, Result<(), NoMemory>)
    requires of { IsOf lock.now seat × (has_entered seat ≡ false) }
    requires me { (name seat ≡ me) × (me < 2) }
    ensures { IsOf lock.now result.0 }
{
    let mut mine = seat;
    for round in 0..rounds {
        let before = 2 * round as u64 + me;
        if before > 0 {
            lock.wait_past(rt, &mut mine, before - 1);
        }
        if let Err(refused) = add_one(rt, lock, &mut mine, me, round as u64) {
            return (mine, Err(refused));
        }
    }
    (mine, Ok(()))
}

// Two threads wait for each other so often. Answers how many notes there then are.
fn alternate<R: Threads + Wait + Sync>(
    rt: &R,
    alloc: Global,
    rounds: u32,
) -> Result<u64, NoMemory> {
    let (lock, a, b) = open_two(alloc, 0)?;
    let shared = &lock;
    let ((mut a, a_done), (_b, b_done)) = join(
        rt,
        || -> (LogSeat<Notes>, Result<(), NoMemory>)
            requires { IsOf shared.now a × (has_entered a ≡ false) × (name a ≡ 0) }
            ensures { IsOf shared.entry.now result.0 }
        { take_turns(rt, shared, a, 0, rounds) },
        || -> (LogSeat<Notes>, Result<(), NoMemory>)
            requires { IsOf shared.now b × (has_entered b ≡ false) × (name b ≡ 1) }
        { take_turns(rt, shared, b, 1, rounds) },
    );
    a_done?;
    b_done?;
    Ok(lock.length_now(&mut a))
}

#[test]
fn threads_that_wait_for_each_other_miss_no_wake_up(rt: HostRuntime) -> Result<(), Fail> {
    let found = alternate(&rt, rt.alloc(), 5000).ok().ok_or("memory")?;
    assert_eq!(rt; found, 10000);
    Ok(())
}
