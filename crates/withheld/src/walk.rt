//! A walk over a log that keeps where each process is placed, what is counted of it, and how many emissions were to be
//! withheld so far.
ghost use Rattle.std.specs.Prelude.{◌≡◌, ◌+◌, ◌-◌, ◌^◌, ◌<◌, true, [], IfOk, OnOk};
ghost use Rattle.std.specs.Option.{option_map_or};
ghost use Rattle.t32_base.specs.declared.process.Pid.{Pid};
ghost use Rattle.sys_text.specs.Valid.{is_system};
ghost use Rattle.bus_msg.specs.Places.{is_moved_by};
ghost use Rattle.bus_msg.specs.PlacedAfter.{what};
ghost use Rattle.channel_table.specs.Changes.{CanBeAbsorbed};
ghost use Rattle.withheld.specs.Counts.{count_if_moved, count_of, moved_count, withheld_at};
ghost use Rattle.withheld.specs.Walks.{HasWalked, WalksOver};

use crate::counts::{Counts, count_of, note};
use bus_msg::entry::{Entry, What};
use bus_msg::placed::Placed;
use cert_sched::start::placement_at_boot;
use channel_table::placement::Placement;
use std::alloc::Global;
use std::collections::BTreeMap;
use sys_text::system::System;
use t32_base::process::ClusterNo;
use t32_base::streams::NoMemory;

/// How far a walk has come.
#[derive(Drop)]
pub struct Walk {
    places: Placement,
    counts: Counts,
    total: u64,
}

impl Walk {
    /// Before the first entry.
    pub fn start(alloc: Global, system: &System) -> Result<Walk, NoMemory>
        requires valid { is_system system.now ≡ true }
        ensures { IfOk result (HasWalked system.now []) }
    {
        Ok(Walk {
            places: placement_at_boot(alloc, system)?,
            counts: BTreeMap::new(alloc),
            total: 0,
        })
    }

    /// Goes over one entry more: at a loss the counts of the processes that it moves are added. After want of memory
    /// nothing is said.
    pub fn take(&mut self, entry: &Entry) -> Result<(), NoMemory>
        requires next { CanBeAbsorbed self.old.places (what entry.now) }
        requires room { (p : Pid) → count_of self.old.counts p < 2 ^ 64 - 1 }
        ensures { OnOk result (WalksOver (what entry.now) self.old self.new) }
    {
        self.total = total_after(&self.counts, &self.places, self.total, entry)?;
        note(&mut self.counts, entry)?;
        self.places.absorb(entry)
    }

    /// How many emissions were to be withheld so far.
    pub fn total(&self) -> u64
        ensures { result ≡ self.now.total }
    {
        self.total
    }
}

// The sum with what an entry adds to it: nothing but by a loss.
fn total_after(
    counts: &Counts,
    places: &Placement,
    total: u64,
    entry: &Entry,
) -> Result<u64, NoMemory>
    ensures { IfOk result (λ sum. sum ≡ total + withheld_at (count_of counts.now) places.now (what entry.now)) }
{
    match &entry.post.what {
        What::Crash { k, .. } => with_moved(counts, places, *k, total),
        What::Mail { .. }
        | What::Birth { .. }
        | What::Exit { .. }
        | What::Page { .. }
        | What::Sync { .. }
        | What::Fetch { .. }
        | What::PageIs { .. }
        | What::Return { .. }
        | What::Rebackup { .. }
        | What::Done { .. }
        | What::Stop => Ok(total),
    }
}

// The sum with the counts of the processes that the loss of the cluster `k` moves.
fn with_moved(
    counts: &Counts,
    places: &Placement,
    k: ClusterNo,
    total: u64,
) -> Result<u64, NoMemory>
    ensures { IfOk result (λ sum. sum ≡ total + moved_count (count_of counts.now) places.now k) }
{
    let mut sum = total;
    for index in 0..places.len() {
        sum = plus(sum, count_if_moved(counts, k, places.at(index)))?;
    }
    Ok(sum)
}

// The count of a process, if the loss of the cluster `k` moves it.
fn count_if_moved(counts: &Counts, k: ClusterNo, placed: Option<Placed>) -> u64
    ensures { result ≡ option_map_or (count_if_moved (count_of counts.now) k) placed 0 }
{
    match placed {
        Some(placed) => {
            if is_moved_by(k, &placed) {
                count_of(counts, placed.pid)
            } else {
                0
            }
        }
        None => 0,
    }
}

// Whether the loss of the cluster `k` moves a process.
fn is_moved_by(k: ClusterNo, placed: &Placed) -> bool
    ensures { result ≡ is_moved_by k placed.now }
{
    placed.home == k && !placed.ended && placed.backup.is_some()
}

// One loss adds no more than the log has entries, but a process may be moved by several with the same letters. A sum that
// does not fit is refused like want of memory; it takes a log of more than 2 ^ 32 entries.
fn plus(sum: u64, more: u64) -> Result<u64, NoMemory>
    ensures { IfOk result (λ total. total ≡ sum + more) }
{
    sum.checked_add(more).ok_or(NoMemory)
}
