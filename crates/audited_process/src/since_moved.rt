//! What a process did since a loss moved it.
ghost use Rattle.std.specs.Prelude.{◌≡◌, ◌&&◌, not, OnOk};
ghost use Rattle.bus_msg.specs.PlacedAfter.{what};
ghost use Rattle.log_renewals.specs.Moved.{KeepsMovedOnly};
ghost use Rattle.audited_process.specs.SinceMoved.{BeginsUnmoved, KeepsOnly, SaysWait, TakesEntry};
ghost use Rattle.audited_process.specs.Pages.{TakesPages};

use crate::concerns::{is_moved, page_sent};
use crate::waiting::{follow as wait_on, is_alone};
use bus_msg::entry::Entry;
use channel_table::placement::Placement;
use log_cuts::sent_pages::SentPages;
use log_renewals::moved::follow;
use std::alloc::Global;
use t32_base::process::Pid;
use t32_base::streams::NoMemory;

/// What is kept of a process that a loss may have moved: which pages it sent since, whether it has only been moved, and whether it
/// waited for its new backup before the last placement, of which it is asked whether another cluster lives.
#[derive(Drop)]
pub struct SinceMoved {
    pub sent: SentPages,
    pub only: bool,
    pub waits: bool,
}

impl SinceMoved {
    /// Of a process that no loss moved, as at boot and at its birth. Takes no memory.
    pub fn unmoved(alloc: Global) -> SinceMoved
        ensures { BeginsUnmoved result }
    {
        SinceMoved {
            sent: SentPages::none(alloc),
            only: false,
            waits: false,
        }
    }

    /// Takes in an entry that ends neither the process nor the run, where the placement is the one before it. After want of memory
    /// nothing is said.
    pub fn take(&mut self, pid: Pid, before: &Placement, entry: &Entry) -> Result<(), NoMemory>
        ensures { OnOk result (TakesEntry pid before.now self.old self.new entry.now) }
    {
        let moved = is_moved(pid, before, &entry.post.what);
        take_page(pid, moved, entry, &mut self.sent)?;
        self.only = only_on(pid, moved, self.only, entry);
        self.waits = wait_on(self.waits, pid, moved, before, entry);
        Ok(())
    }

    /// Whether the process waits for its new backup, where this is the placement. Takes no memory.
    pub fn waits(&self, pid: Pid, places: &Placement) -> bool
        ensures { SaysWait pid places.now self.now result }
    {
        self.waits && !is_alone(places, pid)
    }
}

// It has only been moved right after that, and until it does something.
fn only_on(pid: Pid, moved: bool, only: bool, entry: &Entry) -> bool
    ensures { KeepsOnly pid moved only result entry.now }
{
    if moved {
        true
    } else {
        follow(pid, only, entry)
    }
}

// A loss that moves the process leaves no page, and a page of it is one more.
fn take_page(pid: Pid, moved: bool, entry: &Entry, sent: &mut SentPages) -> Result<(), NoMemory>
    ensures { OnOk result (TakesPages pid moved sent.old sent.new entry.now) }
{
    if moved {
        sent.clear();
        return Ok(());
    }
    match page_sent(pid, &entry.post.what) {
        Some((index, at)) => sent.put(index, at),
        None => Ok(()),
    }
}
