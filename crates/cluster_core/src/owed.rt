//! The processes here that wait for their new backup, as an entry changes them.
ghost use Rattle.std.specs.Prelude.{◌≡◌, ◌∷◌, [], IfOk, OnOk, true};
ghost use Rattle.bus_msg.specs.PlacedAfter.{what};
ghost use Rattle.cert_sched.specs.Rules.{is_full};
ghost use Rattle.standing_backups.specs.Standing.{CanBeNext, IsNextStanding};
ghost use Rattle.cluster_core.specs.Owed.{begins_wait, pids_waiting, settled, to_back, waited, with_pids};

use backup_mode::next::next_backup;
use birth_notice::family::Family;
use bus_msg::entry::{Entry, Post, What};
use bus_msg::placed::Placed;
use channel_table::placement::Placement;
use residents::residents::Residents;
use standing_backups::standing::next_standing;
use std::alloc::Global;
use std::collections::BTreeSet;
use std::marker::Model;
use t32_base::process::{ClusterNo, Mode, Pid};
use t32_base::streams::NoMemory;

/// The fullbacks that a loss moved here and that wait for their new backup, by rising pid.
#[derive(Drop)]
pub struct Owed {
    pids: BTreeSet<u32>,
}

impl Model for Owed {
    ghost use Rattle.std.specs.Prelude.{List, ℕ};

    ghost Value = { List ℕ };

    ghost view = { λ o. o.pids.keys };
}

impl Owed {
    /// None waits yet. Takes no memory.
    pub fn none(alloc: Global) -> Owed
        ensures { result ≡ [] }
    {
        Owed {
            pids: BTreeSet::new(alloc),
        }
    }

    /// Whether none waits. Takes no memory.
    pub fn has_none(&self) -> bool
        ensures { result ≡ true → self.now ≡ [] }
    {
        self.pids.is_empty()
    }

    /// At the loss of another cluster each fullback waits that it moves to the cluster with a number. The placement is
    /// the one before the entry. After want of memory nothing is said of those that wait.
    #[inline(always)]
    pub fn wait(
        &mut self,
        number: ClusterNo,
        before: &Placement,
        entry: &Entry,
    ) -> Result<(), NoMemory>
        ensures { OnOk result (self.new ≡ waited number before.now (what entry.now) self.old) }
    {
        match &entry.post.what {
            What::Crash { k, .. } => self.wait_moved(number, before, *k),
            What::Mail { .. } => Ok(()),
            What::Birth { .. } => Ok(()),
            What::Exit { .. } => Ok(()),
            What::Page { .. } => Ok(()),
            What::Sync { .. } => Ok(()),
            What::Fetch { .. } => Ok(()),
            What::PageIs { .. } => Ok(()),
            What::Return { .. } => Ok(()),
            What::Rebackup { .. } => Ok(()),
            What::Done { .. } => Ok(()),
            What::Stop => Ok(()),
        }
    }

    /// At a loss, an exit and a new backup those that are not to get one wait no longer. The placement is the one after
    /// the entry. Takes no memory.
    #[inline(always)]
    pub fn settle(&mut self, after: &Placement, entry: &Entry)
        ensures { self.new ≡ settled after.now (what entry.now) self.old }
    {
        match &entry.post.what {
            What::Crash { .. } => self.keep(after),
            What::Exit { .. } => self.keep(after),
            What::Rebackup { .. } => self.keep(after),
            What::Mail { .. } => {}
            What::Birth { .. } => {}
            What::Page { .. } => {}
            What::Sync { .. } => {}
            What::Fetch { .. } => {}
            What::PageIs { .. } => {}
            What::Return { .. } => {}
            What::Done { .. } => {}
            What::Stop => {}
        }
    }

    /// The post by which the cluster with a number gives the next of them, and its family, its new backup. None exactly where
    /// none waits.
    pub fn next_post(
        &self,
        alloc: Global,
        number: ClusterNo,
        places: &Placement,
        family: &Family,
        here: &Residents,
    ) -> Result<Option<Post>, NoMemory>
        requires { CanBeNext places.now family.now here.now.here self.now }
        ensures { IfOk result (λ next. IsNextStanding number places.now family.now here.now.here self.now next) }
    {
        next_standing(alloc, number, places, &self.pids, family, here)
    }

    // Each fullback waits that the loss of a cluster moves to the one with a number. It stands by itself so that no
    // other entry pays for it.
    #[cold]
    #[inline(never)]
    fn wait_moved(
        &mut self,
        number: ClusterNo,
        before: &Placement,
        lost: ClusterNo,
    ) -> Result<(), NoMemory>
        ensures { OnOk result (self.new ≡ with_pids self.old (pids_waiting lost number before.now.placed)) }
    {
        for index in 0..before.len() {
            if let Some(placed) = before.at(index) {
                self.wait_if_moved(number, &placed, lost)?;
            }
        }
        Ok(())
    }

    // One process waits, if the loss moves it there and it is a fullback.
    fn wait_if_moved(
        &mut self,
        number: ClusterNo,
        placed: &Placed,
        lost: ClusterNo,
    ) -> Result<(), NoMemory>
        ensures { OnOk result (self.new ≡ with_pids self.old (pids_waiting lost number (placed.now ∷ []))) }
    {
        if begins_wait(placed, lost, number) {
            self.pids.insert(placed.pid.0)?;
        }
        Ok(())
    }

    // Those stay that are to get a backup.
    fn keep(&mut self, after: &Placement)
        ensures { self.new ≡ to_back after.now self.old }
    {
        self.pids
            .retain(|pid| next_backup(after, Pid(*pid)).is_some());
    }
}

// Whether the loss of a cluster moves a process here, and it is a fullback.
fn begins_wait(placed: &Placed, lost: ClusterNo, here: ClusterNo) -> bool
    ensures { result ≡ begins_wait lost here placed.now }
{
    let is_backup = match placed.backup {
        Some(backup) => backup.0 == here.0,
        None => false,
    };
    placed.home.0 == lost.0 && !placed.ended && is_backup && is_full(placed.mode)
}

// Whether a process is a fullback.
fn is_full(mode: Mode) -> bool
    ensures { result ≡ is_full mode }
{
    match mode {
        Mode::Full => true,
        Mode::Half => false,
        Mode::Quarter => false,
    }
}
