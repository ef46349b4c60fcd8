//! The map of the records, by the numbers of the processes.
ghost use Rattle.std.specs.Prelude.{◌≡◌, ◌-◌, ◌^◌, ◌<◌, Some, filter, IfOk, OnOk, OnErr};
ghost use Rattle.std.specs.BTreeMap.{get};
ghost use Rattle.std.specs.Map.{keys_of};
ghost use Rattle.std.specs.Ordering.{nat_cmp};
ghost use Rattle.t32_base.specs.declared.letter.BackRec.{BackRec};
ghost use Rattle.write_count.specs.Counting.{count_for};
ghost use Rattle.crash_notice.specs.Splitting.{moves_here};
ghost use Rattle.backup_records.specs.Records.{with_child, with_counted, with_cut, with_saved};
ghost use Rattle.backup_queue.specs.Fronts.{AreFronts, AreOnEnds};
ghost use Rattle.backup_records.specs.ByPid.{changed_at, left_after, taken_at};

use backup_queue::record::Record;
use channel_table::placement::Placement;
use crash_notice::splitting::moves_here;
use std::alloc::Global;
use std::collections::{BTreeMap, VecDeque};
use t32_base::letter::Letter;
use t32_base::lists::List;
use t32_base::process::{ClusterNo, Pid, Small};
use t32_base::streams::NoMemory;

/// The record of a process saves a letter, if it is there. The letter's bytes are shared. After want of memory no
/// record has changed.
pub fn save_at(
    records: &mut BTreeMap<u32, Record>,
    pid: u32,
    letter: &Letter,
) -> Result<(), NoMemory>
    requires { (r : BackRec) → get nat_cmp records.old pid ≡ Some r → r.next < 2 ^ 64 - 1 }
    ensures ok { OnOk result (records.new.entries ≡ changed_at pid (with_saved letter.now) records.old.entries) }
    ensures err { OnErr result (records.new.entries ≡ records.old.entries) }
{
    match records.get_mut(&pid) {
        Some(record) => record.save(letter.copy()?),
        None => Ok(()),
    }
}

/// The record of a process counts a letter, if it is there. Takes no memory.
pub fn count_at(records: &mut BTreeMap<u32, Record>, pid: u32, letter: &Letter)
    requires { (r : BackRec) → get nat_cmp records.old pid ≡ Some r → (letter.now.out < 32) × (count_for r.counts letter.now < 2 ^ 32 - 1) }
    ensures { records.new.entries ≡ changed_at pid (with_counted letter.now) records.old.entries }
{
    if let Some(record) = records.get_mut(&pid) {
        record.count(letter);
    }
}

/// The record of a process gets a child last in its births, if it is there. After want of memory no record has changed.
pub fn bear_at(records: &mut BTreeMap<u32, Record>, pid: u32, child: Pid) -> Result<(), NoMemory>
    ensures ok { OnOk result (records.new.entries ≡ changed_at pid (with_child child) records.old.entries) }
    ensures err { OnErr result (records.new.entries ≡ records.old.entries) }
{
    match records.get_mut(&pid) {
        Some(record) => record.add_birth(child),
        None => Ok(()),
    }
}

/// The record of a process is cut, if it is there. The state is copied only then. Takes no memory.
pub fn cut_at(records: &mut BTreeMap<u32, Record>, pid: u32, state: &Small, read: &[u64])
    requires { (r : BackRec) → get nat_cmp records.old pid ≡ Some r → AreFronts read.now r.saved × AreOnEnds read.now r.saved }
    ensures { records.new.entries ≡ changed_at pid (with_cut state.now read.now) records.old.entries }
{
    if let Some(record) = records.get_mut(&pid) {
        record.cut(state.copy(), read);
    }
}

/// The numbers of the processes whose records move here at the loss of a cluster, rising.
pub fn moved_pids(
    alloc: Global,
    records: &BTreeMap<u32, Record>,
    lost: ClusterNo,
    here: ClusterNo,
    before: &Placement,
) -> Result<Vec<u32>, NoMemory>
    ensures { IfOk result (λ pids. pids.items ≡ keys_of (filter (λ e. moves_here before.now lost here e.1) records.now.entries)) }
{
    let mut pids = Vec::new(alloc);
    for (pid, record) in records {
        if moves_here(record, before, lost, here) {
            pids.push(*pid)?;
        }
    }
    Ok(pids)
}

/// The records of processes leave, in this order. Memory is taken first: where it is refused, all stay.
pub fn take_out(
    alloc: Global,
    records: &mut BTreeMap<u32, Record>,
    pids: Vec<u32>,
) -> Result<List<Record>, NoMemory>
    ensures taken { IfOk result (λ taken. taken ≡ taken_at pids.items records.old.entries) }
    ensures left { OnOk result (records.new.entries ≡ left_after pids.items records.old.entries) }
    ensures err { OnErr result (records.new.entries ≡ records.old.entries) }
{
    let mut taken = Vec::with_capacity(alloc, pids.len())?;
    let mut left = VecDeque::from_vec(pids);
    'pids: while let Some(pid) = left.pop_front() {
        if let Some(record) = records.remove(&pid) {
            taken.push_reserved(record);
        }
    }
    Ok(List::from_vec(taken))
}
