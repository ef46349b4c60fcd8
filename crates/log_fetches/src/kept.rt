//! What is kept of each process of a log, and what an entry makes of it.
ghost use Rattle.std.specs.Prelude.{◌≡◌, OnOk, [], ◌∷◌};
ghost use Rattle.t32_base.specs.declared.process.Pid.{Pid};
ghost use Rattle.bus_msg.specs.Places.{is_moved_by};
ghost use Rattle.log_fetches.specs.Kept.{Asks, ChangesAmong, ChangesOnly, Comes, Notes, begun_again, kept_in, stated_first, with_state};

use crate::pages::{NO_PAGES, Pages, put_page};
use bus_msg::entry::What;
use bus_msg::placed::Placed;
use channel_table::placement::Placement;
use std::collections::BTreeMap;
use t32_base::letter::BackRec;
use t32_base::process::{ClusterNo, Pid};
use t32_base::streams::NoMemory;

/// What is kept of a process: whether its record has a state, and whether the last loss that moved it found one; and
/// which of its pages it asked for since, and which have come.
#[derive(Clone, Copy, PartialEq, Eq, Debug)]
pub struct Kept {
    pub stated: bool,
    pub moved: bool,
    pub asked: Pages,
    pub come: Pages,
}

const NOTHING: Kept = Kept {
    stated: false,
    moved: false,
    asked: NO_PAGES,
    come: NO_PAGES,
};

/// By the numbers of the processes. Of one that is not there is nothing to keep.
pub type ByPid = BTreeMap<u32, Kept>;

/// What is kept of a process. Takes no memory.
pub fn kept_of(kept: &ByPid, pid: Pid) -> Kept
    ensures { result ≡ kept_in kept.now.entries pid }
{
    kept.get(&pid.0).copied().unwrap_or(NOTHING)
}

/// The record of a process has a state from now on. After want of memory nothing is said.
pub fn state(kept: &mut ByPid, pid: Pid) -> Result<(), NoMemory>
    ensures { OnOk result (ChangesOnly kept.old.entries kept.new.entries pid (with_state (kept_in kept.old.entries pid))) }
{
    let stated = Kept {
        stated: true,
        ..kept_of(kept, pid)
    };
    put(kept, pid, stated)
}

/// Takes in what an entry says, where the placement is the one before it. After want of memory nothing is said.
pub fn note(kept: &mut ByPid, before: &Placement, what: &What) -> Result<(), NoMemory>
    ensures { OnOk result (Notes before.now what.now kept.old.entries kept.new.entries) }
{
    match what {
        What::Sync { pid, .. } => state(kept, *pid),
        What::Rebackup { fresh, recs, .. } => state_first(kept, *fresh, recs.get().as_slice()),
        What::Fetch { pid, index } => ask(kept, *pid, *index),
        What::PageIs { pid, index, .. } => come(kept, *pid, *index),
        What::Crash { k, .. } => {
            lose(kept, before, *k);
            Ok(())
        }
        What::Mail { .. }
        | What::Birth { .. }
        | What::Exit { .. }
        | What::Page { .. }
        | What::Return { .. }
        | What::Done { .. }
        | What::Stop => Ok(()),
    }
}

// This is kept of a process from now on.
fn put(kept: &mut ByPid, pid: Pid, now: Kept) -> Result<(), NoMemory>
    ensures { OnOk result (ChangesOnly kept.old.entries kept.new.entries pid now) }
{
    kept.insert(pid.0, now)?;
    Ok(())
}

// The first process of these records has a state from now on, if it has run.
fn state_first(kept: &mut ByPid, fresh: bool, recs: &[BackRec]) -> Result<(), NoMemory>
    ensures { OnOk result ((p : Pid) → kept_in kept.new.entries p ≡ stated_first fresh recs.now p (kept_in kept.old.entries p)) }
{
    if !fresh {
        return Ok(());
    }
    match recs.first() {
        Some(first) => state(kept, first.pid),
        None => Ok(()),
    }
}

// A page is asked for.
fn ask(kept: &mut ByPid, pid: Pid, index: u16) -> Result<(), NoMemory>
    ensures { OnOk result (Asks kept.old.entries kept.new.entries pid index) }
{
    let mut now = kept_of(kept, pid);
    put_page(&mut now.asked, index);
    put(kept, pid, now)
}

// A page has come.
fn come(kept: &mut ByPid, pid: Pid, index: u16) -> Result<(), NoMemory>
    ensures { OnOk result (Comes kept.old.entries kept.new.entries pid index) }
{
    let mut now = kept_of(kept, pid);
    put_page(&mut now.come, index);
    put(kept, pid, now)
}

// Each process that the loss of the cluster `k` moves begins again. Takes no memory.
fn lose(kept: &mut ByPid, before: &Placement, k: ClusterNo)
    ensures { ChangesAmong (is_moved_by k) begun_again before.now.placed kept.old.entries kept.new.entries }
{
    for index in 0..before.len() {
        if let Some(placed) = before.at(index) {
            lose_if_moved(kept, &placed, k);
        }
    }
}

// So does one process, if the loss moves it.
fn lose_if_moved(kept: &mut ByPid, placed: &Placed, k: ClusterNo)
    ensures { ChangesAmong (is_moved_by k) begun_again (placed.now ∷ []) kept.old.entries kept.new.entries }
{
    if is_moved_by(k, placed) {
        begin_again(kept, placed.pid);
    }
}

// Whether the loss of the cluster `k` moves a process.
fn is_moved_by(k: ClusterNo, placed: &Placed) -> bool
    ensures { result ≡ is_moved_by k placed.now }
{
    placed.home == k && !placed.ended && placed.backup.is_some()
}

// A loss moved the process: none of its pages was asked for since, and none has come.
fn begin_again(kept: &mut ByPid, pid: Pid)
    ensures { ChangesOnly kept.old.entries kept.new.entries pid (begun_again (kept_in kept.old.entries pid)) }
{
    if let Some(now) = kept.get_mut(&pid.0) {
        *now = Kept {
            moved: now.stated,
            asked: NO_PAGES,
            come: NO_PAGES,
            ..*now
        };
    }
}
