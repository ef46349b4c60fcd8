//! The processes that the loss of another cluster moves here.
ghost use Rattle.std.specs.Prelude.{◌≡◌, ◌≤◌, ◌⊎◌, [], filter, IfOk, OnErr, OnOk, is_some, true};
ghost use Rattle.bus_msg.specs.PlacedAfter.{what};
ghost use Rattle.backup_records.specs.Records.{are_rising};
ghost use Rattle.crash_notice.specs.Splitting.{moves_here, stays};
ghost use Rattle.page_waits.specs.Waiting.{page_count};
ghost use Rattle.replay_laws.specs.pages.Waits.{first_wait};
ghost use Rattle.cluster_core.specs.Recovered.{CanWait, left_by, moved_by, with_all_waiting};

use backup_queue::record::Record;
use backup_records::records::Records;
use bus_msg::entry::{Entry, What};
use channel_table::placement::Placement;
use page_waits::waiting::Waiting;
use residents::resident::Resident;
use residents::residents::Residents;
use std::alloc::Global;
use std::collections::VecDeque;
use t32_base::lists::List;
use t32_base::process::ClusterNo;
use t32_base::streams::NoMemory;

/// Takes over, at the loss of another cluster, the processes that it moves to the cluster with a number: each waits for
/// its pages, or for its parent's fork, beside its record, which leaves the records. No other entry moves any. The placement is the one before the
/// entry. After want of memory nothing is said of the records, and either all are here that were, or none is.
#[inline(always)]
pub fn take_over(
    alloc: Global,
    number: ClusterNo,
    before: &Placement,
    records: &mut Records,
    here: &mut Residents,
    entry: &Entry,
) -> Result<(), NoMemory>
    requires { CanWait (moved_by before.now number (what entry.now) records.old) here.old.here }
    ensures records { OnOk result (records.new ≡ left_by before.now number (what entry.now) records.old) }
    ensures rising { OnOk result (are_rising (moved_by before.now number (what entry.now) records.old) ≡ true) }
    ensures here { OnOk result (here.new.here ≡ with_all_waiting (moved_by before.now number (what entry.now) records.old) here.old.here) }
    ensures err { OnErr result ((here.new.here ≡ here.old.here) ⊎ (here.new.here ≡ [])) }
    ensures duty { here.new.duty ≡ here.old.duty }
{
    match &entry.post.what {
        What::Crash { k, .. } => move_here(alloc, number, before, records, here, *k),
        What::Mail { .. } => Ok(()),
        What::Birth { .. } => Ok(()),
        What::Exit { .. } => Ok(()),
        What::Page { .. } => Ok(()),
        What::Sync { .. } => Ok(()),
        What::Fetch { .. } => Ok(()),
        What::PageIs { .. } => Ok(()),
        What::Return { .. } => Ok(()),
        What::Rebackup { .. } => Ok(()),
        What::Done { .. } => Ok(()),
        What::Stop => Ok(()),
    }
}

// The processes that the loss of a cluster moves to the cluster with a number wait here, and their records leave the
// records. It stands by itself so that no other entry pays for it.
#[cold]
#[inline(never)]
fn move_here(
    alloc: Global,
    number: ClusterNo,
    before: &Placement,
    records: &mut Records,
    here: &mut Residents,
    lost: ClusterNo,
) -> Result<(), NoMemory>
    requires { CanWait (filter (moves_here before.now lost number) records.old) here.old.here }
    ensures records { OnOk result (records.new ≡ filter (stays before.now lost number) records.old) }
    ensures rising { OnOk result (are_rising (filter (moves_here before.now lost number) records.old) ≡ true) }
    ensures here { OnOk result (here.new.here ≡ with_all_waiting (filter (moves_here before.now lost number) records.old) here.old.here) }
    ensures err { OnErr result ((here.new.here ≡ here.old.here) ⊎ (here.new.here ≡ [])) }
    ensures duty { here.new.duty ≡ here.old.duty }
{
    let moved = records.take_moved(alloc, lost, number, before)?;
    if let Err(NoMemory) = begin_waits(alloc, moved, here) {
        here.let_all_go(alloc);
        return Err(NoMemory);
    }
    Ok(())
}

// The processes of these records, which stand by rising pid, wait beside those that are here. After want of
// memory some of them do.
fn begin_waits(alloc: Global, moved: List<Record>, here: &mut Residents) -> Result<(), NoMemory>
    requires rising { are_rising moved ≡ true }
    requires can { CanWait moved here.old.here }
    ensures here { OnOk result (here.new.here ≡ with_all_waiting moved here.old.here) }
    ensures duty { here.new.duty ≡ here.old.duty }
{
    let mut left = VecDeque::from_vec(moved.into_vec());
    'records: while let Some(kept) = left.pop_front() {
        let pid = kept.pid();
        let waiting = waiting_of(alloc, kept)?;
        here.add(pid, Resident::waiting(waiting))?;
    }
    Ok(())
}

// The process of a record waits for its pages; where the record has no state it waits for its parent's fork. After want of
// memory the record is dropped.
fn waiting_of(alloc: Global, kept: Record) -> Result<Waiting, NoMemory>
    requires some { is_some kept.state ≡ true → 1 ≤ page_count kept }
    requires at_most { page_count kept ≤ 256 }
    ensures { IfOk result (λ w. w ≡ first_wait kept) }
{
    if kept.state().is_none() {
        return Ok(Waiting::for_fork(alloc, kept));
    }
    Waiting::begin(alloc, kept)
}
