//! What is kept of one process of a log that is checked.
ghost use Rattle.std.specs.Prelude.{◌≡◌, ◌-◌, ◌<◌, ◌^◌, true, false, None, IfOk, OnOk};
ghost use Rattle.proc_state.specs.State.{state_of};
ghost use Rattle.bus_msg.specs.PlacedAfter.{what};
ghost use Rattle.log_cuts.specs.Ahead.{IsAhead};
ghost use Rattle.audited_process.specs.Concerns.{changes};
ghost use Rattle.audited_process.specs.Audited.{Begins, BeginsAsChild, BeginsAsRoot, TakesEntry};

use crate::begun::{Begun, begun_at, go_on};
use crate::concerns::changes;
use crate::since_moved::SinceMoved;
use bus_msg::entry::Entry;
use channel_table::placement::Placement;
use log_cuts::ahead::Ahead;
use proc_state::process::Process;
use std::alloc::Global;
use t32_base::process::Pid;
use t32_base::streams::NoMemory;

/// A process that has not ended, as the kernel without backups has it after the log: no loss moves it. Beside it a copy that may
/// stand ahead of it, where it started, and what it did since a loss moved it. Whether it has its pages, and whether a child of it
/// never synchronised, is kept of all processes together.
#[derive(Drop)]
pub struct Audited {
    pub process: Process,
    pub ahead: Ahead,
    pub begun: Begun,
    pub since_moved: SinceMoved,
}

impl Audited {
    /// Of a root that stands so at boot.
    pub fn root(alloc: Global, process: Process) -> Result<Audited, NoMemory>
        ensures audited { IfOk result (BeginsAsRoot (state_of process)) }
        ensures ahead { IfOk result (λ a. IsAhead (state_of a.process) a.ahead) }
    {
        begin(alloc, process, true)
    }

    /// Of a child that stands so at its birth.
    pub fn child(alloc: Global, process: Process) -> Result<Audited, NoMemory>
        ensures audited { IfOk result (BeginsAsChild (state_of process)) }
        ensures ahead { IfOk result (λ a. IsAhead (state_of a.process) a.ahead) }
    {
        begin(alloc, process, false)
    }

    /// Takes in an entry that ends neither the process nor the run, where the placement is the one before it, and the process
    /// stands where its own step by the entry led it. After want of memory nothing is said.
    pub fn take(
        &mut self,
        alloc: Global,
        pid: Pid,
        before: &Placement,
        entry: &Entry,
    ) -> Result<(), NoMemory>
        requires letters { self.old.process.mail.next < 2 ^ 64 - 1 }
        requires saved { self.old.begun.saved < 2 ^ 64 - 1 }
        requires ahead { changes pid (what entry.now) ≡ false → IsAhead (state_of self.old.process) self.old.ahead }
        ensures takes { OnOk result (TakesEntry pid before.now self.old self.new entry.now) }
        ensures ahead { OnOk result (IsAhead (state_of self.new.process) self.new.ahead) }
    {
        drop_copy(pid, entry, &mut self.ahead);
        self.since_moved.take(pid, before, entry)?;
        go_on(alloc, pid, entry, &mut self.begun, &mut self.process)
    }
}

// A copy that was led ahead of the process is dropped where the entry changes that.
fn drop_copy(pid: Pid, entry: &Entry, ahead: &mut Ahead)
    ensures dropped { changes pid (what entry.now) ≡ true → ahead.new ≡ None }
    ensures kept { changes pid (what entry.now) ≡ false → ahead.new ≡ ahead.old }
{
    if changes(pid, &entry.post.what) {
        ahead.clear();
    }
}

// Of a process that starts where it stands, with a state in its record or without one.
fn begin(alloc: Global, process: Process, stated: bool) -> Result<Audited, NoMemory>
    ensures { IfOk result (Begins (state_of process) stated) }
{
    let begun = begun_at(alloc, &process, stated)?;
    Ok(Audited {
        process,
        ahead: Ahead::none(),
        begun,
        since_moved: SinceMoved::unmoved(alloc),
    })
}
