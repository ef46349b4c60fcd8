//! What is kept of a log that is checked, from line to line.
ghost use Rattle.std.specs.Prelude.{◌≡◌, [], true, IfOk};
ghost use Rattle.std.specs.Option.{IfSome};
ghost use Rattle.sys_text.specs.Valid.{is_system};
ghost use Rattle.audited_log.specs.State.{IsOfSomeLog, IsStateOf, KeepsState};
ghost use Rattle.audited_log.specs.Answers.{AnswersTold, CanTake, FollowsTold, IsReady, Leads, TakesAnswer, entry_of};

use crate::answer::Answer;
use crate::backups::keeps_backups;
use crate::common::Common;
use crate::lines::answer_to;
use crate::processes::{self, Processes};
use bus_msg::entry::Entry;
use entry_lines::Told;
use log_records::records::entries_can_be_taken;
use std::alloc::Global;
use sys_text::system::System;
use t32_base::streams::NoMemory;

/// What is kept of a log: of all processes together, and of each one that has not ended.
#[derive(Drop)]
pub struct AuditedLog {
    pub common: Common,
    pub processes: Processes,
}

impl AuditedLog {
    /// Of the log with no entry.
    pub fn start(alloc: Global, system: &System) -> Result<AuditedLog, NoMemory>
        requires valid { is_system system.now ≡ true }
        ensures state { IfOk result (IsStateOf system.now []) }
        ensures some { IfOk result IsOfSomeLog }
    {
        Ok(AuditedLog {
            common: Common::start(alloc, system)?,
            processes: processes::start(alloc, system)?,
        })
    }

    /// The entry of the next line, which is taken in then. None where no entry with the line may follow: the log is refused there, and
    /// nothing is said of what is kept, as after want of memory. A log with as many entries as there are places has no memory for one more.
    pub fn next(&mut self, alloc: Global, told: &Told) -> Result<Option<Entry>, NoMemory>
        requires { IsOfSomeLog self.old }
        ensures decides { IfOk result (FollowsTold self.old told.now) }
        ensures keeps { IfOk result (λ answer. IfSome answer (KeepsState self.old self.new)) }
        ensures some { IfOk result (λ answer. IfSome answer (λ _. IsOfSomeLog self.new)) }
    {
        if !self.common.front.is_next(told.place) {
            return Ok(None);
        }
        if told.place == u64::MAX {
            return Err(NoMemory);
        }
        if !keeps_backups(told, self) {
            return Ok(None);
        }
        match answer_to(alloc, told, self)? {
            Some(answer) => Ok(Some(self.take(alloc, answer)?)),
            None => Ok(None),
        }
    }

    // Takes in an entry, which led each process to where it stands.
    fn take(&mut self, alloc: Global, answer: Answer) -> Result<Entry, NoMemory>
        requires { CanTake self.old answer }
        ensures takes { IfOk result (λ _. TakesAnswer self.old self.new answer) }
        ensures entry { IfOk result (λ entry. entry ≡ answer.entry) }
    {
        let Answer { entry, child } = answer;
        let before = self.common.front.places();
        processes::take(alloc, before, &entry, child, &mut self.processes)?;
        entries_can_be_taken();
        self.common.take(&entry)?;
        Ok(entry)
    }
}
