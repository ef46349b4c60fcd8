//! The backup records of all processes of a log, and what an entry makes of them.
ghost use Rattle.std.specs.Prelude.{◌≡◌, ◌-◌, ◌^◌, ◌<◌, List, [], ◌∷◌, ◌++◌, length, true, IfOk, OnErr, OnOk};
ghost use Rattle.std.specs.Map.{lookup};
ghost use Rattle.t32_base.specs.declared.letter.BackRec.{BackRec};
ghost use Rattle.sys_text.specs.declared.system.System.{System};
ghost use Rattle.sys_text.specs.Valid.{is_system};
ghost use Rattle.bus_msg.specs.declared.entry.Entry.{Entry};
ghost use Rattle.bus_msg.specs.PlacedAfter.{what};
ghost use Rattle.cert_sched.specs.Legal.{IsLegalBy, Stands};
ghost use Rattle.plain_kernel.specs.Maps.{at_key};
ghost use Rattle.log_records.specs.Records.{AreFirstOf, AreRecordsOf, CanRenew, CanTake, TakesEntry, all_after, with_first, with_renewed};

use backup_queue::record::Record;
use backup_records::records::Records;
use bus_msg::entry::{Entry, What};
use cert_sched::start::placement_at_boot;
use channel_table::placement::Placement;
use plain_kernel::booting::starts_of;
use plain_kernel::start::Start;
use std::alloc::Global;
use std::collections::BTreeMap;
use std::marker::Model;
use sys_text::system::System;
use t32_base::letter::BackRec;
use t32_base::process::{ClusterNo, Pid};
use t32_base::streams::NoMemory;

/// The records of all processes of a log that have not ended, wherever their backups are, by rising pid.
#[derive(Drop)]
pub struct LogRecords {
    records: Records,
}

impl Model for LogRecords {
    ghost use Rattle.std.specs.Prelude.{List};
    ghost use Rattle.t32_base.specs.declared.letter.BackRec.{BackRec};

    ghost Value = { List BackRec };

    ghost view = { λ r. r.records };
}

impl LogRecords {
    /// Those of the log with no entry: each root has its state at the start.
    pub fn start(alloc: Global, system: &System) -> Result<LogRecords, NoMemory>
        requires valid { is_system system.now ≡ true }
        ensures { IfOk result (AreRecordsOf system.now []) }
    {
        let placed = placement_at_boot(alloc, system)?;
        let starts = starts_of(alloc, system)?;
        let records = first_records(alloc, &placed, &starts)?;
        Ok(LogRecords { records })
    }

    /// Takes in the next entry. A letter is saved by the record of its receiver and counted by that of its sender, a child
    /// gets a record, that of a process that synchronised is cut, that of one that ended goes, and that of one that gets a new
    /// backup after it has run is the one that the entry carries. After want of memory the records are as they were.
    pub fn take(&mut self, entry: &Entry) -> Result<(), NoMemory>
        requires { CanTake (what entry.now) self.old }
        ensures ok { OnOk result (TakesEntry self.old self.new entry.now) }
        ensures err { OnErr result (self.new ≡ self.old) }
    {
        note(&mut self.records, &entry.post.what)
    }

    /// The records, for who looks one up. Takes no memory.
    pub fn records(&self) -> &Records
        ensures { result.now ≡ self.now }
    {
        &self.records
    }
}

/// A law and no code: where the records are those of a log, an entry that stands next in it can be taken in.
pub fn entries_can_be_taken()
    ensures { (system : System) (log : List Entry) (e : Entry) (recs : List BackRec) → is_system system ≡ true →
        IsLegalBy Stands system (log ++ e ∷ []) → length log < 2 ^ 64 - 1 → AreRecordsOf system log recs → CanTake (what e) recs }
{}

// The records of those of these processes that are there at the start.
fn first_records(
    alloc: Global,
    placed: &Placement,
    starts: &BTreeMap<u32, Start>,
) -> Result<Records, NoMemory>
    ensures { IfOk result (AreFirstOf placed.now.placed starts.now.entries) }
{
    let mut records = Records::none(alloc);
    for index in 0..placed.len() {
        if let Some(root) = placed.at(index) {
            add_first(alloc, &mut records, root.pid, starts)?;
        }
    }
    Ok(records)
}

// One record more: that of a process at its start, if it is there.
fn add_first(
    alloc: Global,
    records: &mut Records,
    pid: Pid,
    starts: &BTreeMap<u32, Start>,
) -> Result<(), NoMemory>
    ensures { OnOk result (records.new ≡ with_first pid (lookup (at_key pid.0) starts.now.entries) records.old) }
{
    match starts.get(&pid.0) {
        Some(start) => records.add(Record::new(alloc, pid, Some(start.small().copy()))),
        None => Ok(()),
    }
}

// Takes in what an entry says. The number of no cluster matters to an entry that is no new backup.
fn note(records: &mut Records, what: &What) -> Result<(), NoMemory>
    requires { CanTake what.now records.old }
    ensures ok { OnOk result (records.new ≡ all_after what.now records.old) }
    ensures err { OnErr result (records.new ≡ records.old) }
{
    match what {
        What::Rebackup { fresh, recs, .. } => renew(records, *fresh, recs.get().as_slice()),
        _ => records.note(ClusterNo(0), what),
    }
}

// A process that has run gets a new backup: its record is the first that the entry carries. Those of processes that wait
// are as they were.
fn renew(records: &mut Records, fresh: bool, recs: &[BackRec]) -> Result<(), NoMemory>
    requires { CanRenew fresh recs.now }
    ensures ok { OnOk result (records.new ≡ with_renewed fresh recs.now records.old) }
    ensures err { OnErr result (records.new ≡ records.old) }
{
    if !fresh {
        return Ok(());
    }
    match recs.first() {
        Some(first) => records.add(Record::of(first)?),
        None => Ok(()),
    }
}
