//! The records of a cluster, and what an entry changes in them.
ghost use Rattle.std.specs.Prelude.{◌≡◌, ◌-◌, ◌^◌, ◌<◌, ℕ, None, Some, [], All, IfOk, OnOk, OnErr, filter, length, map, not, take, true, if◌then◌else◌};
ghost use Rattle.std.specs.Option.{option_copied};
ghost use Rattle.t32_base.specs.declared.letter.BackRec.{BackRec};
ghost use Rattle.proc_state.specs.Mail.{RiseTo};
ghost use Rattle.bus_msg.specs.Places.{same_pid};
ghost use Rattle.crash_notice.specs.Splitting.{moves_here, stays};
ghost use Rattle.backup_records.specs.Records.{CanBring, CanCount, CanCut, CanNote, CanSave, after_birth, are_rising, counted_by_sender, cut_of_synced, record_in, records_after, records_renewed, saved_by_receiver, with_child_of, with_record, with_records, with_saved, without_each};

use crate::by_pid::{bear_at, count_at, cut_at, moved_pids, save_at, take_out};
use backup_queue::record::Record;
use bus_msg::entry::What;
use channel_table::placement::Placement;
use std::alloc::Global;
use std::collections::BTreeMap;
use std::marker::Model;
use t32_base::letter::{BackRec, Letter, To};
use t32_base::lists::List;
use t32_base::process::{ClusterNo, Pid, Small};
use t32_base::streams::NoMemory;

/// The records that a cluster keeps of the processes whose backup it has, by rising pid; and the memory for those of
/// children.
#[derive(Drop)]
pub struct Records {
    by_pid: BTreeMap<u32, Record>,
    alloc: Global,
}

impl Model for Records {
    ghost use Rattle.std.specs.Prelude.{List};
    ghost use Rattle.std.specs.Map.{values_of};
    ghost use Rattle.t32_base.specs.declared.letter.BackRec.{BackRec};
    ghost use Rattle.backup_records.specs.ByPid.{IsByPid};

    ghost Value = { List BackRec };

    ghost view = { λ r. values_of r.by_pid.entries };

    ghost invariant = { λ r. IsByPid r.by_pid.entries };
}

impl Records {
    /// No records. Takes no memory.
    pub fn none(alloc: Global) -> Records
        ensures { result ≡ [] }
    {
        Records {
            by_pid: BTreeMap::new(alloc),
            alloc,
        }
    }

    /// One record more: that of a process that starts with its backup here. It takes the place of one of the
    /// same process. After want of memory the records are as they were.
    pub fn add(&mut self, kept: Record) -> Result<(), NoMemory>
        ensures ok { OnOk result (self.new ≡ with_record kept self.old) }
        ensures err { OnErr result (self.new ≡ self.old) }
    {
        let pid = kept.pid();
        self.by_pid.insert(pid.0, kept)?;
        Ok(())
    }

    /// The record of a process.
    pub fn get(&self, pid: Pid) -> Option<&Record>
        ensures { option_copied result ≡ record_in self.now pid }
    {
        self.by_pid.get(&pid.0)
    }

    /// The number of records, which stand by rising pid.
    pub fn len(&self) -> usize
        ensures number { result ≡ length self.now }
        ensures rising { are_rising self.now ≡ true }
    {
        self.by_pid.len()
    }

    /// What an entry changes in the records of the cluster with a number: a letter is saved by the record of its
    /// receiver and counted by that of its sender, a child gets a record where that of its parent is here, which then
    /// has it last in its births, the record of a process that synchronised is cut, that of one that ended goes, and
    /// those of a new backup here come. A cluster calls it for each entry that goes to it. After want of memory the
    /// records are as they were.
    pub fn note(&mut self, number: ClusterNo, what: &What) -> Result<(), NoMemory>
        requires { CanNote what.now self.old }
        ensures ok { OnOk result (self.new ≡ records_after number what.now self.old) }
        ensures err { OnErr result (self.new ≡ self.old) }
    {
        match what {
            What::Mail { letter, .. } => self.note_letter(letter),
            What::Exit { pid, .. } => {
                self.let_go(*pid);
                Ok(())
            }
            What::Birth { parent, child, .. } => self.note_birth(*parent, *child),
            What::Sync {
                pid,
                small,
                read,
                ..
            } => {
                self.cut(*pid, small.get(), read.as_slice());
                Ok(())
            }
            What::Rebackup { to, recs, .. } => {
                self.note_backup(number, *to, recs.get().as_slice())
            }
            // The records of processes that move here leave by `take_moved`.
            What::Crash { .. } => Ok(()),
            What::Page { .. } => Ok(()),
            What::Fetch { .. } => Ok(()),
            What::PageIs { .. } => Ok(()),
            What::Return { .. } => Ok(()),
            What::Done { .. } => Ok(()),
            What::Stop => Ok(()),
        }
    }

    /// The record of a process is cut, if it is here: the process has synchronised with this state, and had read
    /// the letters with these numbers. They are dropped, the others stay in order, and nothing was sent and no
    /// child born since. Takes no memory.
    pub fn cut(&mut self, pid: Pid, state: &Small, read: &[u64])
        requires { CanCut pid read.now self.old }
        ensures { self.new ≡ map (cut_of_synced pid state.now read.now) self.old }
    {
        cut_at(&mut self.by_pid, pid.0, state, read);
    }

    /// At the loss of a cluster the records of the processes that it moves here leave, by rising pid; the
    /// placement is the one before the loss. Memory is taken first: where it is refused, all stay.
    pub fn take_moved(
        &mut self,
        alloc: Global,
        lost: ClusterNo,
        here: ClusterNo,
        before: &Placement,
    ) -> Result<List<Record>, NoMemory>
        ensures moved { IfOk result (λ moved. moved ≡ filter (moves_here before.now lost here) self.old) }
        ensures stay { OnOk result (self.new ≡ filter (stays before.now lost here) self.old) }
        ensures rising { IfOk result (λ moved. are_rising moved ≡ true) }
        ensures err { OnErr result (self.new ≡ self.old) }
    {
        let pids = moved_pids(alloc, &self.by_pid, lost, here, before)?;
        take_out(alloc, &mut self.by_pid, pids)
    }

    // A letter is saved, which can fail, and then counted.
    fn note_letter(&mut self, letter: &Letter) -> Result<(), NoMemory>
        requires saved { CanSave letter.now self.old }
        requires counted { CanCount letter.now self.old }
        ensures ok { OnOk result (self.new ≡ map (λ r. counted_by_sender letter.now (saved_by_receiver letter.now r)) self.old) }
        ensures err { OnErr result (self.new ≡ self.old) }
    {
        self.save(letter)?;
        self.count(letter);
        Ok(())
    }

    // A child is born: where the record of its parent is here, the child gets one too, and is last in the births of
    // that. Where the parent's is refused memory, the child's goes again.
    fn note_birth(&mut self, parent: Pid, child: Pid) -> Result<(), NoMemory>
        requires { record_in self.old child ≡ None }
        ensures ok { OnOk result (self.new ≡ after_birth parent child self.old) }
        ensures err { OnErr result (self.new ≡ self.old) }
    {
        if self.get(parent).is_none() {
            return Ok(());
        }
        self.add(Record::new(self.alloc, child, None))?;
        let born = self.bear(parent, child);
        if born.is_err() {
            self.let_go(child);
        }
        born
    }

    // Processes get a new backup in the cluster `to`: where that is the one with the number, their records come.
    fn note_backup(
        &mut self,
        number: ClusterNo,
        to: ClusterNo,
        recs: &[BackRec],
    ) -> Result<(), NoMemory>
        requires { CanBring recs.now self.old }
        ensures ok { OnOk result (self.new ≡ records_renewed to number recs.now self.old) }
        ensures err { OnErr result (self.new ≡ self.old) }
    {
        if to == number {
            self.bring(recs)
        } else {
            Ok(())
        }
    }

    // Records come of processes that have none here. Where memory is refused, those that came go again.
    fn bring(&mut self, recs: &[BackRec]) -> Result<(), NoMemory>
        requires { CanBring recs.now self.old }
        ensures ok { OnOk result (self.new ≡ with_records recs.now self.old) }
        ensures err { OnErr result (self.new ≡ self.old) }
    {
        let brought = self.add_each(recs);
        if brought.is_err() {
            self.let_go_each(recs);
        }
        brought
    }

    // Each of these records comes. After want of memory the first of them have come.
    fn add_each(&mut self, recs: &[BackRec]) -> Result<(), NoMemory>
        requires { All (λ (r : BackRec). RiseTo 0 r.saved r.next) recs.now }
        ensures ok { OnOk result (self.new ≡ with_records recs.now self.old) }
        ensures err { OnErr result ((k : ℕ) × (self.new ≡ with_records (take k recs.now) self.old)) }
    {
        for rec in recs {
            self.add(Record::of(rec)?)?;
        }
        Ok(())
    }

    // The records of these processes go, if they are here. Takes no memory.
    fn let_go_each(&mut self, recs: &[BackRec])
        ensures { self.new ≡ without_each recs.now self.old }
    {
        for rec in recs {
            self.let_go(rec.pid);
        }
    }

    // The record of a parent has a child last in its births.
    fn bear(&mut self, parent: Pid, child: Pid) -> Result<(), NoMemory>
        ensures ok { OnOk result (self.new ≡ map (with_child_of parent child) self.old) }
        ensures err { OnErr result (self.new ≡ self.old) }
    {
        bear_at(&mut self.by_pid, parent.0, child)
    }

    // The record of its receiver saves a letter.
    fn save(&mut self, letter: &Letter) -> Result<(), NoMemory>
        requires { CanSave letter.now self.old }
        ensures ok { OnOk result (self.new ≡ map (saved_by_receiver letter.now) self.old) }
        ensures err { OnErr result (self.new ≡ self.old) }
    {
        match letter.to {
            To::Proc(pid, _) => self.save_for(pid, letter),
            To::Tty(_) => Ok(()),
        }
    }

    // The record of a process saves a letter, if it is here.
    fn save_for(&mut self, pid: Pid, letter: &Letter) -> Result<(), NoMemory>
        requires { (r : BackRec) → record_in self.old pid ≡ Some r → r.next < 2 ^ 64 - 1 }
        ensures ok { OnOk result (self.new ≡ map (λ r. if same_pid pid r.pid then with_saved letter.now r else r) self.old) }
        ensures err { OnErr result (self.new ≡ self.old) }
    {
        save_at(&mut self.by_pid, pid.0, letter)
    }

    // The record of its sender counts a letter. Takes no memory.
    fn count(&mut self, letter: &Letter)
        requires { CanCount letter.now self.old }
        ensures { self.new ≡ map (counted_by_sender letter.now) self.old }
    {
        count_at(&mut self.by_pid, letter.from.0, letter);
    }

    // The record of a process goes, if it is here. Takes no memory.
    fn let_go(&mut self, pid: Pid)
        ensures { self.new ≡ filter (λ r. not (same_pid r.pid pid)) self.old }
    {
        self.by_pid.remove(&pid.0);
    }
}
