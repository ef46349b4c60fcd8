//! Lines of new backups of processes that wait, each with its family.
ghost use Rattle.std.specs.Prelude.{◌≡◌, ◌∷◌, IfOk, true};
ghost use Rattle.std.specs.Option.{option_copied};
ghost use Rattle.log_renewals.specs.Standing.{AnswersStanding, TakesRecords, backup_told, home_next, is_family, is_stated, may_wait, record_told, standing_entry};

use crate::numbers::are_same_numbers;
use backup_mode::next::next_backup;
use backup_queue::record::Record;
use backup_records::records::Records;
use birth_notice::family::Family;
use bus_msg::entry::{By, Entry, Post, What};
use bus_msg::shared::Shared;
use entry_lines::ToldBy;
use log_audit::front::Front;
use std::alloc::Global;
use std::collections::BTreeSet;
use t32_base::letter::BackRec;
use t32_base::lists::List;
use t32_base::process::{ClusterNo, Mode, Pid};
use t32_base::streams::NoMemory;

/// The head of a line by which a process that waits gets a new backup: its place, who sent it, the process, which it names
/// first, and the cluster.
#[derive(Clone, Copy, PartialEq, Eq, Debug)]
pub struct StandingHead {
    pub place: u64,
    pub by: ToldBy,
    pub pid: Pid,
    pub to: u64,
}

/// The entry of a line by which a process that a loss moved, and that has done nothing since, gets a new backup with its family, of
/// which the line names the `others`; where the front, whether the process has only been moved, the children that never synchronised,
/// and the records of all processes that have not ended are those of the log before it. None where no such entry may follow.
pub fn next_standing(
    alloc: Global,
    front: &Front,
    head: StandingHead,
    others: &[u64],
    moved_only: bool,
    family: &Family,
    records: &Records,
) -> Result<Option<Entry>, NoMemory>
    ensures { IfOk result (AnswersStanding front.now head others.now moved_only family.now records.now) }
{
    let Some(home) = home_next(front, head) else {
        return Ok(None);
    };
    if !may_wait(front, head.pid, moved_only) {
        return Ok(None);
    }
    let Some(to) = backup_told(front, head.pid, head.to) else {
        return Ok(None);
    };
    if !is_family(alloc, family, head.pid, others)? {
        return Ok(None);
    }
    let Some(recs) = records_told(alloc, records, head.pid, others)? else {
        return Ok(None);
    };
    if !is_stated(recs.as_slice()) {
        return Ok(None);
    }
    Ok(Some(standing_entry(alloc, front, head, home, to, recs)?))
}

// The home of the process, where such an entry may stand next and the line says that this cluster sent it.
fn home_next(front: &Front, head: StandingHead) -> Option<ClusterNo>
    ensures { result ≡ home_next front.now head }
{
    if front.is_next(head.place) {
        front.home(head.by, head.pid)
    } else {
        None
    }
}

// Whether a process is a fullback that has only been moved.
fn may_wait(front: &Front, pid: Pid, moved_only: bool) -> bool
    ensures { result ≡ may_wait front.now.places pid moved_only }
{
    if !moved_only {
        return false;
    }
    match front.places().unended(pid) {
        Some(placed) => matches!(placed.mode, Mode::Full),
        None => false,
    }
}

/// The cluster that a process gets as its backup now, where a line names it. Takes no memory.
pub(crate) fn backup_told(front: &Front, pid: Pid, to: u64) -> Option<ClusterNo>
    ensures { result ≡ backup_told front.now.places pid to }
{
    match next_backup(front.places(), pid) {
        Some(k) => { if u64::from(k.0) == to { Some(k) } else { None } }
        None => None,
    }
}

// Whether these are the others of the family of a process, in any order.
fn is_family(alloc: Global, family: &Family, pid: Pid, others: &[u64]) -> Result<bool, NoMemory>
    ensures { IfOk result (λ is. is ≡ is_family family.now pid others.now) }
{
    let own = family.others(alloc, pid)?;
    let wanted = numbers_of(alloc, pid, &own)?;
    let told = named(alloc, pid, others)?;
    are_same_numbers(alloc, told.as_slice(), wanted.as_slice())
}

// The numbers of a process and of these pids.
fn numbers_of(alloc: Global, pid: Pid, others: &BTreeSet<u32>) -> Result<Vec<u64>, NoMemory>
    ensures { IfOk result (λ numbers. numbers.items ≡ pid.0 ∷ others.now.keys) }
{
    let mut numbers = Vec::new(alloc);
    numbers.push(u64::from(pid.0))?;
    for other in others.iter() {
        numbers.push(u64::from(*other))?;
    }
    Ok(numbers)
}

// The numbers of a process and of others.
fn named(alloc: Global, pid: Pid, others: &[u64]) -> Result<Vec<u64>, NoMemory>
    ensures { IfOk result (λ named. named.items ≡ pid.0 ∷ others.now) }
{
    let mut named = Vec::new(alloc);
    named.push(u64::from(pid.0))?;
    for other in others {
        named.push(*other)?;
    }
    Ok(named)
}

// The records of a process and of others; or one of them has none.
fn records_told(
    alloc: Global,
    records: &Records,
    pid: Pid,
    others: &[u64],
) -> Result<Option<List<BackRec>>, NoMemory>
    ensures { IfOk result (TakesRecords records.now (pid.0 ∷ others.now)) }
{
    let told = named(alloc, pid, others)?;
    records_of(alloc, records, told.as_slice())
}

// The records of the processes with these numbers; or one of them has none.
fn records_of(
    alloc: Global,
    records: &Records,
    numbers: &[u64],
) -> Result<Option<List<BackRec>>, NoMemory>
    ensures { IfOk result (TakesRecords records.now numbers.now) }
{
    let mut recs = List::new(alloc);
    for number in numbers {
        match record_told(records, *number) {
            Some(record) => recs.push(record.told()?)?,
            None => return Ok(None),
        }
    }
    Ok(Some(recs))
}

// The record of the process with this number.
fn record_told(records: &Records, number: u64) -> Option<&Record>
    ensures { option_copied result ≡ record_told records.now number }
{
    if number <= u64::from(u32::MAX) {
        records.get(Pid(number as u32))
    } else {
        None
    }
}

// Whether the first of these records has a state.
fn is_stated(recs: &[BackRec]) -> bool
    ensures { result ≡ is_stated recs.now }
{
    match recs.first() {
        Some(first) => first.state.is_some(),
        None => false,
    }
}

// The entry by which its home hands on these records.
fn standing_entry(
    alloc: Global,
    front: &Front,
    head: StandingHead,
    home: ClusterNo,
    to: ClusterNo,
    recs: List<BackRec>,
) -> Result<Entry, NoMemory>
    ensures { IfOk result (λ entry. entry ≡ standing_entry front.now head home to recs) }
{
    let what = What::Rebackup {
        to,
        fresh: false,
        recs: Shared::new(alloc, recs)?,
    };
    let by = By::Cluster(home);
    Ok(front.entry_at(head.place, Post { by, what }))
}
