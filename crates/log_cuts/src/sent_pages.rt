//! Which pages of a process were sent, and as they were at which step counts.
ghost use Rattle.std.specs.Prelude.{◌≡◌, [], OnOk};
ghost use Rattle.log_cuts.specs.SentPages.{LeavesSent, NoneSent, PutsAt, PutsPage, sent_at, was_sent};

use log_fetches::pages::{NO_PAGES, Pages, has_page, put_page};
use std::alloc::Global;
use std::collections::BTreeMap;
use std::marker::Model;
use t32_base::streams::NoMemory;

/// The pages of a process that were sent since a loss moved it, by the step counts at which they were as they were sent.
#[derive(Drop)]
pub struct SentPages {
    by_count: BTreeMap<u64, Pages>,
}

impl Model for SentPages {
    ghost use Rattle.std.specs.Prelude.{List, ℕ};

    ghost Value = { List (ℕ × List ℕ) };

    ghost view = { λ s. s.by_count.entries };
}

impl SentPages {
    /// No page, as of a process at boot and of a child that is born. Takes no memory.
    pub fn none(alloc: Global) -> SentPages
        ensures empty { result ≡ [] }
        ensures none { NoneSent result }
    {
        SentPages {
            by_count: BTreeMap::new(alloc),
        }
    }

    /// Leaves no page: a loss moved the process. Takes no memory.
    pub fn clear(&mut self)
        ensures empty { self.new ≡ [] }
        ensures none { NoneSent self.new }
    {
        self.by_count.clear();
    }

    /// Whether a page was sent as it was at a step count. Takes no memory.
    pub fn has(&self, index: u64, at: u64) -> bool
        ensures { result ≡ was_sent self.now index at }
    {
        has_page(&sent_at(&self.by_count, at), index)
    }

    /// Takes in a page that is sent. After want of memory nothing is said.
    pub fn put(&mut self, index: u16, at: u64) -> Result<(), NoMemory>
        ensures { OnOk result (PutsPage self.old self.new index at) }
    {
        let mut pages = sent_at(&self.by_count, at);
        put_page(&mut pages, index);
        put_at(&mut self.by_count, at, pages)
    }
}

// The pages that were sent as they were at a step count.
fn sent_at(by_count: &BTreeMap<u64, Pages>, at: u64) -> Pages
    ensures { result ≡ sent_at by_count.now.entries at }
{
    by_count.get(&at).copied().unwrap_or(NO_PAGES)
}

// These are the pages that were sent as they were at a step count from now on.
fn put_at(by_count: &mut BTreeMap<u64, Pages>, at: u64, pages: Pages) -> Result<(), NoMemory>
    ensures { OnOk result (PutsAt by_count.old.entries by_count.new.entries at pages) }
{
    by_count.insert(at, pages)?;
    Ok(())
}

/// A law and no code: which entries leave the pages that were sent.
pub fn others_leave_them()
    ensures { LeavesSent }
{}
