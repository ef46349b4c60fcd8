//! How many letters and births of each process are counted since it last started again.
ghost use Rattle.std.specs.Prelude.{◌≡◌, ◌+◌, ◌-◌, ◌^◌, ◌<◌, ◌&&◌, OnOk, if◌then◌else◌};
ghost use Rattle.t32_base.specs.declared.process.Pid.{Pid};
ghost use Rattle.bus_msg.specs.PlacedAfter.{what};
ghost use Rattle.cert_sched.specs.Deeds.{is_first};
ghost use Rattle.withheld.specs.Counts.{ChangesOnly, NotesCounts, count_of};

use bus_msg::entry::{Entry, What};
use std::collections::BTreeMap;
use t32_base::letter::BackRec;
use t32_base::process::Pid;
use t32_base::streams::NoMemory;

/// The counts by the numbers of the processes. Of one that is not there nothing is counted.
pub type Counts = BTreeMap<u32, u64>;

/// The count of a process.
pub fn count_of(counts: &Counts, pid: Pid) -> u64
    ensures { result ≡ count_of counts.now pid }
{
    counts.get(&pid.0).copied().unwrap_or(0)
}

/// Takes in an entry of the log: a letter or a birth more is counted of its process, and of one that starts again
/// nothing. After want of memory nothing is said.
pub fn note(counts: &mut Counts, entry: &Entry) -> Result<(), NoMemory>
    requires { (p : Pid) → count_of counts.old p < 2 ^ 64 - 1 }
    ensures { OnOk result (NotesCounts (what entry.now) counts.old counts.new) }
{
    match &entry.post.what {
        What::Mail { letter, .. } => raise(counts, letter.from),
        What::Birth { parent, child, .. } => {
            raise(counts, *parent)?;
            clear(counts, *child);
            Ok(())
        }
        What::Sync { pid, .. } => {
            clear(counts, *pid);
            Ok(())
        }
        What::Rebackup { fresh, recs, .. } => {
            clear_first(counts, *fresh, recs.get().as_slice());
            Ok(())
        }
        What::Exit { .. }
        | What::Page { .. }
        | What::Fetch { .. }
        | What::PageIs { .. }
        | What::Crash { .. }
        | What::Return { .. }
        | What::Done { .. }
        | What::Stop => Ok(()),
    }
}

// One more is counted of a process.
fn raise(counts: &mut Counts, pid: Pid) -> Result<(), NoMemory>
    requires { count_of counts.old pid < 2 ^ 64 - 1 }
    ensures { OnOk result (ChangesOnly counts.old counts.new pid (count_of counts.old pid + 1)) }
{
    if let Some(count) = counts.get_mut(&pid.0) {
        *count += 1;
        return Ok(());
    }
    counts.insert(pid.0, 1)?;
    Ok(())
}

// Nothing is counted of a process any more.
fn clear(counts: &mut Counts, pid: Pid)
    ensures { ChangesOnly counts.old counts.new pid 0 }
{
    counts.remove(&pid.0);
}

// Nor of the process of the first record, if its backup is for a process that has run.
fn clear_first(counts: &mut Counts, fresh: bool, recs: &[BackRec])
    ensures { (p : Pid) → count_of counts.new p ≡ (if fresh && is_first p recs.now then 0 else count_of counts.old p) }
{
    if !fresh {
        return;
    }
    if let Some(first) = recs.first() {
        clear(counts, first.pid);
    }
}
