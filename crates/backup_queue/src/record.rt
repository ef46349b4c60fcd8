//! What a backup keeps of a process.
ghost use Rattle.std.specs.Prelude.{◌≡◌, ◌+◌, ◌-◌, ◌^◌, ◌<◌, [], ◌∷◌, ◌++◌, Some, IfOk, OnOk, OnErr};
ghost use Rattle.std.specs.Option.{option_copied};
ghost use Rattle.proc_state.specs.Mail.{RiseTo};
ghost use Rattle.backup_queue.specs.Queue.{saved_with, unread};
ghost use Rattle.backup_queue.specs.Fronts.{AreFronts, AreOnEnds};
ghost use Rattle.backup_queue.specs.Record.{record_of};
ghost use Rattle.write_count.specs.Counting.{count_for, no_counts, raised};

use crate::fronts::drop_fronts;
use proc_state::mailbox::Mailbox;
use std::alloc::Global;
use std::marker::Model;
use t32_base::letter::{BackRec, Letter};
use t32_base::lists::List;
use t32_base::process::{Counts, Pid, Small};
use t32_base::streams::NoMemory;
use write_count::count;

/// The parts of a record, for who takes the process over: the saved letters lie in the queues from which
/// the process reads them.
#[derive(Drop)]
pub struct RecordParts {
    pub pid: Pid,
    pub state: Option<Small>,
    pub saved: Mailbox,
    pub counts: Counts,
    pub births: List<Pid>,
}

/// What a backup keeps of a process: its state at the last synchronisation, if it had one; the letters that
/// were saved, and how many have arrived; what it sent since, and the children born since, in order.
#[derive(Drop)]
pub struct Record {
    parts: RecordParts,
}

impl Model for Record {
    ghost use Rattle.t32_base.specs.declared.letter.BackRec.{BackRec};
    ghost use Rattle.backup_queue.specs.Record.{record_of};

    ghost Value = { BackRec };

    ghost view = { λ r. record_of r.parts };
}

impl Record {
    /// The record of a process of which nothing was saved yet, with the state of its last synchronisation, if
    /// it had one. Takes no memory.
    pub fn new(alloc: Global, pid: Pid, state: Option<Small>) -> Self
        ensures { result ≡ record { pid = pid; state = state; saved = []; next = 0; counts = no_counts; births = [] } }
    {
        Record {
            parts: RecordParts {
                pid,
                state,
                saved: Mailbox::new(alloc),
                counts: Counts {
                    ends: [0; 32],
                    signals: 0,
                },
                births: List::new(alloc),
            },
        }
    }

    /// The record of an entry of the log. The letters' texts are shared.
    pub fn of(rec: &BackRec) -> Result<Self, NoMemory>
        requires { RiseTo 0 rec.now.saved rec.now.next }
        ensures { IfOk result (λ r. r ≡ rec.now) }
    {
        let alloc = rec.births.allocator();
        Ok(Record {
            parts: RecordParts {
                pid: rec.pid,
                state: copied_state(&rec.state),
                saved: Mailbox::of(alloc, rec.saved.as_slice(), rec.next)?,
                counts: rec.counts,
                births: copied_pids(alloc, rec.births.as_slice())?,
            },
        })
    }

    /// The record as an entry of the log has it. The letters' texts are shared.
    pub fn told(&self) -> Result<BackRec, NoMemory>
        ensures record { IfOk result (λ rec. rec ≡ self.now) }
        ensures numbers { IfOk result (λ rec. RiseTo 0 rec.saved rec.next) }
    {
        let alloc = self.parts.births.allocator();
        Ok(BackRec {
            pid: self.parts.pid,
            state: copied_state(&self.parts.state),
            saved: self.parts.saved.listed(alloc)?,
            next: self.parts.saved.next(),
            counts: self.parts.counts,
            births: copied_pids(alloc, self.parts.births.as_slice())?,
        })
    }

    /// Saves a letter: it is put last, with the number `next`, which is then one more. After want of memory
    /// the record is as it was, and the letter is dropped.
    pub fn save(&mut self, letter: Letter) -> Result<(), NoMemory>
        requires { self.old.next < 2 ^ 64 - 1 }
        ensures ok { OnOk result (self.new ≡ record self.old {
          saved = saved_with self.old.saved letter self.old.next;
          next = self.old.next + 1;
        }) }
        ensures err { OnErr result (self.new ≡ self.old) }
    {
        self.parts.saved.receive(letter)
    }

    /// Counts a letter that the process sent, by the end that it left from, or as a signal. Takes no memory.
    pub fn count(&mut self, letter: &Letter)
        requires end { letter.now.out < 32 }
        requires room { count_for self.old.counts letter.now < 2 ^ 32 - 1 }
        ensures { self.new ≡ record self.old { counts = raised self.old.counts letter.now } }
    {
        count(&mut self.parts.counts, letter);
    }

    /// Puts a child last that was born. After want of memory the record is as it was.
    pub fn add_birth(&mut self, child: Pid) -> Result<(), NoMemory>
        ensures ok { OnOk result (self.new ≡ record self.old { births = self.old.births ++ child ∷ [] }) }
        ensures err { OnErr result (self.new ≡ self.old) }
    {
        self.parts.births.push(child)?;
        Ok(())
    }

    /// The process has synchronised with this state, and had read the letters with these numbers: they are
    /// dropped, the others stay in order, and nothing was sent and no child born since. Takes no memory.
    pub fn cut(&mut self, state: Small, read: &[u64])
        requires fronts { AreFronts read.now self.old.saved }
        requires ends { AreOnEnds read.now self.old.saved }
        ensures { self.new ≡ record self.old {
          state = Some state;
          saved = unread read.now self.old.saved;
          counts = no_counts;
          births = [];
        } }
    {
        drop_fronts(&mut self.parts.saved, read);
        self.parts.state = Some(state);
        self.parts.counts = Counts {
            ends: [0; 32],
            signals: 0,
        };
        self.parts.births = List::new(self.parts.births.allocator());
    }

    /// The process that it is the record of.
    pub fn pid(&self) -> Pid
        ensures { result ≡ self.now.pid }
    {
        self.parts.pid
    }

    /// The state of its last synchronisation, if it had one.
    pub fn state(&self) -> Option<&Small>
        ensures { option_copied result ≡ self.now.state }
    {
        self.parts.state.as_ref()
    }

    /// The number of letters that have arrived, which the next one gets as its number.
    pub fn next(&self) -> u64
        ensures { result ≡ self.now.next }
    {
        self.parts.saved.next()
    }

    /// The counts of the letters that it sent since.
    pub fn counts(&self) -> &Counts
        ensures { result.now ≡ self.now.counts }
    {
        &self.parts.counts
    }

    /// The children born since, in order.
    pub fn births(&self) -> &[Pid]
        ensures { result.now ≡ self.now.births }
    {
        self.parts.births.as_slice()
    }

    /// Its parts, for who takes the process over. Takes no memory.
    pub fn into_parts(self) -> RecordParts
        ensures { record_of result ≡ self }
    {
        self.parts
    }
}

fn copied_state(state: &Option<Small>) -> Option<Small>
    ensures { result ≡ state.now }
{
    match state {
        Some(small) => Some(small.copy()),
        None => None,
    }
}

fn copied_pids(alloc: Global, pids: &[Pid]) -> Result<List<Pid>, NoMemory>
    ensures { IfOk result (λ c. c ≡ pids.now) }
{
    let mut copies = List::new(alloc);
    for pid in pids {
        copies.push(*pid)?;
    }
    Ok(copies)
}
