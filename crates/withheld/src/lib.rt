//! How many emissions were to be withheld in a run, read from its log.
#![tactic(auto)]

mod counts;
#[cfg(test)]
mod tests;
mod walk;

ghost use Rattle.std.specs.Prelude.{◌≡◌, true, false, Ok, is_some, IfOk};
ghost use Rattle.sys_text.specs.Valid.{is_system};
ghost use Rattle.bus_msg.specs.PlacedAfter.{what};
ghost use Rattle.cert_sched.specs.Counted.{counted};
ghost use Rattle.cert_sched.specs.Legal.{IsLegalBy, Stands};
ghost use Rattle.cert_sched.specs.Told.{cluster_lost};
ghost use Rattle.withheld.specs.Losses.{has_loss};

use crate::walk::Walk;
use bus_msg::entry::{Entry, What};
use std::alloc::Global;
use sys_text::system::System;
use t32_base::streams::NoMemory;

/// How many emissions of a run were to be withheld: at each loss of a cluster, the letters and births of the processes that
/// it moves, of each those since it last synchronised, got a new backup after it had run, or was born. Where no cluster
/// was lost it takes no memory. Else it walks the log once, and at each loss the processes. A sum past 64 bits is refused
/// like want of memory, after which nothing is said.
pub fn withheld(alloc: Global, system: &System, log: &[Entry]) -> Result<u64, NoMemory>
    requires valid { is_system system.now ≡ true }
    requires legal { IsLegalBy Stands system.now log.now }
    ensures count { IfOk result (λ w. w ≡ counted system.now log.now) }
    ensures unlost { has_loss log.now ≡ false → result ≡ Ok 0 }
{
    if !has_loss(log) {
        return Ok(0);
    }
    let mut walk = Walk::start(alloc, system)?;
    for entry in log {
        walk.take(entry)?;
    }
    Ok(walk.total())
}

fn has_loss(log: &[Entry]) -> bool
    ensures { result ≡ has_loss log.now }
{
    log.iter().any(|entry| is_loss(entry))
}

fn is_loss(entry: &Entry) -> bool
    ensures { result ≡ is_some (cluster_lost (what entry.now)) }
{
    match &entry.post.what {
        What::Crash { .. } => true,
        What::Mail { .. }
        | What::Birth { .. }
        | What::Exit { .. }
        | What::Page { .. }
        | What::Sync { .. }
        | What::Fetch { .. }
        | What::PageIs { .. }
        | What::Return { .. }
        | What::Rebackup { .. }
        | What::Done { .. }
        | What::Stop => false,
    }
}
