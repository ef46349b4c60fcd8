//! Measures how long threads take to enter and leave a lock. Its one argument is the number of rounds of each
//! thread; it then prints a line for each measurement: what was done, the threads, the rounds and the
//! nanoseconds. With no argument it ends at once and prints nothing.
#![tactic(auto)]

ghost use Rattle.std.specs.Prelude.{◌<◌};

mod bell;

use bell::{Bell, ring_all};
use bus_lock::LogLock;
use std::alloc::Global;
use std::sync::Wait;
use std::thread::Threads;
use std::time::Instant;
use std::{env, io};

fn main(rt: HostRuntime) -> io::Result<()> {
    let mut words = env::args(&rt)?;
    let Some(word) = words.nth(1) else {
        return Ok(());
    };
    let Ok(rounds) = word.parse::<u64>() else {
        return Ok(());
    };
    for adds in [false, true] {
        let what = if adds { "add" } else { "look" };
        for threads in [1u32, 2, 4] {
            let start = Instant::now(&rt)?;
            if measure(&rt, rt.alloc(), threads, rounds, adds) {
                let nanos = start.elapsed(&rt)?.as_nanos();
                println!(rt; "{what} {threads} {rounds} {nanos}")?;
            }
        }
    }
    Ok(())
}

// Rings a bell in so many threads. It answers false where memory is refused.
fn measure<R: Threads + Wait + Sync>(
    rt: &R,
    alloc: Global,
    threads: u32,
    rounds: u64,
    adds: bool,
) -> bool
    requires { 0 < threads }
{
    let Ok((lock, seats)) = LogLock::with_seats(alloc, Bell::new(alloc), threads) else {
        return false;
    };
    ring_all(rt, &lock, seats.into_vec(), rounds, adds).is_ok()
}
