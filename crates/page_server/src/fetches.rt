//! The fetches that wait, in the order in which they came.
ghost use Rattle.std.specs.Prelude.{◌≡◌, [], ◌∷◌, ◌++◌, OnOk, OnErr, Some, true, false, slice_get};
ghost use Rattle.page_server.specs.Account.{fetches_without, fetches_but};
ghost use Rattle.page_server.specs.Fetches.{notes_without};

use std::alloc::Global;
use std::collections::{BTreeMap, VecDeque};
use std::marker::Model;
use t32_base::process::Pid;
use t32_base::streams::NoMemory;

/// The fetches that wait, the earliest first. Each page that is fetched is noted by its process and number,
/// with false where it was fetched once: the answer to the earliest fetch then need not look for another of
/// its page.
#[derive(Drop)]
pub struct Fetches {
    waiting: VecDeque<(Pid, u16)>,
    notes: BTreeMap<(u32, u16), bool>,
}

impl Model for Fetches {
    ghost use Rattle.std.specs.Prelude.{ℕ, List};
    ghost use Rattle.t32_base.specs.declared.process.Pid.{Pid};
    ghost use Rattle.page_server.specs.Fetches.{Noted};

    ghost Value = { List (Pid × ℕ) };

    ghost view = { λ f. f.waiting.items };

    ghost invariant = { λ f. Noted f.notes f.waiting.items };
}

impl Fetches {
    /// No fetch. Takes no memory.
    pub fn none(alloc: Global) -> Self
        ensures { result ≡ [] }
    {
        Fetches {
            waiting: VecDeque::new(alloc),
            notes: BTreeMap::new(alloc),
        }
    }

    /// A fetch of a page of a process waits, behind the others. After want of memory none does that did not.
    pub fn push(&mut self, pid: Pid, i: u16) -> Result<(), NoMemory>
        ensures ok { OnOk result (self.new ≡ self.old ++ (pid, i) ∷ []) }
        ensures err { OnErr result (self.new ≡ self.old) }
    {
        let again = self.notes.contains_key(&(pid.0, i));
        self.notes.insert((pid.0, i), again)?;
        self.waiting.push_back((pid, i))?;
        Ok(())
    }

    /// The earliest fetch.
    pub fn first(&self) -> Option<(Pid, u16)>
        ensures { result ≡ slice_get self.now 0 }
    {
        self.waiting.front().copied()
    }

    /// The fetches of a page wait no longer.
    pub fn drop_page(&mut self, pid: Pid, i: u16)
        ensures { self.new ≡ fetches_but pid i self.old }
    {
        let note = self.notes.remove(&(pid.0, i));
        if is_first_alone(&self.waiting, note, pid, i) {
            self.waiting.pop_front();
        } else {
            drop_fetch(&mut self.waiting, pid, i);
        }
    }

    /// The fetches of a process wait no longer.
    pub fn drop_process(&mut self, pid: Pid)
        ensures { self.new ≡ fetches_without pid self.old }
    {
        drop_fetches(&mut self.waiting, pid);
        drop_notes(&mut self.notes, pid);
    }
}

// Whether the earliest fetch is one of this page, and by its note no other of the page waits.
fn is_first_alone(waiting: &VecDeque<(Pid, u16)>, note: Option<bool>, pid: Pid, i: u16) -> bool
    ensures first { result ≡ true → slice_get waiting.now.items 0 ≡ Some (pid, i) }
    ensures alone { result ≡ true → note ≡ Some false }
{
    match (waiting.front(), note) {
        (Some(first), Some(false)) => first.0.0 == pid.0 && first.1 == i,
        _ => false,
    }
}

// Drops the fetches of a process.
fn drop_fetches(fetches: &mut VecDeque<(Pid, u16)>, pid: Pid)
    ensures { fetches.new.items ≡ fetches_without pid fetches.old.items }
{
    fetches.retain(|fetch| fetch.0.0 != pid.0);
}

// Drops the notes of the pages of a process.
fn drop_notes(notes: &mut BTreeMap<(u32, u16), bool>, pid: Pid)
    ensures { notes.new.entries ≡ notes_without pid notes.old.entries }
{
    notes.retain(|page, _| page.0 != pid.0);
}

// Drops the fetches of a page.
fn drop_fetch(fetches: &mut VecDeque<(Pid, u16)>, pid: Pid, i: u16)
    ensures { fetches.new.items ≡ fetches_but pid i fetches.old.items }
{
    fetches.retain(|fetch| !(fetch.0.0 == pid.0 && fetch.1 == i));
}
