//! The pages that processes ask for after a loss moved them: which were asked for, and which have come.
ghost use Rattle.std.specs.Prelude.{◌≡◌, ◌≤◌, ◌∷◌, true, [], List, IfOk, OnOk};
ghost use Rattle.sys_text.specs.declared.system.System.{System};
ghost use Rattle.sys_text.specs.Valid.{is_system};
ghost use Rattle.bus_msg.specs.declared.entry.Entry.{Entry};
ghost use Rattle.cert_sched.specs.Moved.{any_since_moved, is_fetch, moved_with_state};
ghost use Rattle.cert_sched.specs.Rules.{has_its_pages};
ghost use Rattle.cert_sched.specs.Steps.{page_count};
ghost use Rattle.log_fetches.specs.Fetches.{IsFetchesOf, KeepsFetches};
ghost use Rattle.log_fetches.specs.Kept.{ChangesAmong, with_state};

use crate::kept::{ByPid, kept_of, note, state};
use crate::pages::{has_first, has_page};
use bus_msg::entry::Entry;
use cert_sched::start::placement_at_boot;
use channel_table::placement::Placement;
use std::alloc::Global;
use std::collections::BTreeMap;
use std::marker::Model;
use sys_text::system::System;
use t32_base::process::Pid;
use t32_base::streams::NoMemory;

/// What is kept of the processes of a log: which records have a state, which processes a loss moved with one, and
/// which of their pages were asked for and have come since.
#[derive(Drop)]
pub struct Fetches {
    kept: ByPid,
}

impl Model for Fetches {
    ghost use Rattle.std.specs.Prelude.{List, ℕ};
    ghost use Rattle.log_fetches.specs.declared.kept.Kept.{Kept};

    ghost Value = { List (ℕ × Kept) };

    ghost view = { λ f. f.kept.entries };
}

impl Fetches {
    /// Those of the log with no entry.
    pub fn start(alloc: Global, system: &System) -> Result<Fetches, NoMemory>
        requires valid { is_system system.now ≡ true }
        ensures { IfOk result (IsFetchesOf system.now []) }
    {
        let roots = placement_at_boot(alloc, system)?;
        let mut kept = BTreeMap::new(alloc);
        state_each(&mut kept, &roots)?;
        Ok(Fetches { kept })
    }

    /// Takes in an entry, where the placement is the one before it. After want of memory nothing is said.
    pub fn take(&mut self, before: &Placement, entry: &Entry) -> Result<(), NoMemory>
        ensures { OnOk result (KeepsFetches before.now self.old self.new entry.now) }
    {
        note(&mut self.kept, before, &entry.post.what)
    }

    /// Whether the last loss that moved a process found a state in its record. Takes no memory.
    pub fn moved(&self, pid: Pid) -> bool
        ensures { (system : System) (log : List Entry) → IsFetchesOf system log self.now → result ≡ moved_with_state system log pid }
    {
        kept_of(&self.kept, pid).moved
    }

    /// Whether a page of a process was asked for since the last loss that moved it. Takes no memory.
    pub fn asked(&self, pid: Pid, index: u64) -> bool
        ensures { (system : System) (log : List Entry) → IsFetchesOf system log self.now →
            result ≡ any_since_moved system log pid (is_fetch pid index) }
    {
        has_page(&kept_of(&self.kept, pid).asked, index)
    }

    /// Whether a process, of so many pages, has got each of them since the last loss that moved it. One whose record had
    /// no state then, or that no loss moved, has them all. Takes no memory.
    pub fn all_come(&self, pid: Pid, pages: u16) -> bool
        requires { pages ≤ 256 }
        ensures { (system : System) (log : List Entry) → IsFetchesOf system log self.now → page_count system log pid ≡ pages →
            result ≡ has_its_pages system log pid }
    {
        let kept = kept_of(&self.kept, pid);
        !kept.moved || has_first(&kept.come, pages)
    }
}

// The record of each of these processes has a state.
fn state_each(kept: &mut ByPid, placed: &Placement) -> Result<(), NoMemory>
    ensures { OnOk result (ChangesAmong (λ _. true) with_state placed.now.placed kept.old.entries kept.new.entries) }
{
    for index in 0..placed.len() {
        if let Some(root) = placed.at(index) {
            state(kept, root.pid)?;
        }
    }
    Ok(())
}
