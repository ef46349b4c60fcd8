//! A copy of a process, led ahead of it by silent steps.
ghost use Rattle.std.specs.Prelude.{◌≡◌, ◌*◌, ◌<◌, ◌==◌, false, length, None, option_map, IfOk, OnOk, IfSome};
ghost use Rattle.rv_mem.specs.Memory.{page_at};
ghost use Rattle.proc_state.specs.State.{ProcState, state_of};
ghost use Rattle.log_cuts.specs.Ahead.{ComesTo, IsAhead, upto};

use counted_steps::counted::make_silent_steps;
use log_processes::sender::steps_upto;
use proc_state::process::Process;
use rv_mem::Ram;
use std::alloc::Global;
use std::marker::Model;
use t32_base::lists::List;
use t32_base::streams::NoMemory;

/// A copy of a process that may stand ahead of it, if there is one. All pages of one synchronisation are sent as they are at
/// one step count, so that the steps up to there are made once.
#[derive(Drop)]
pub struct Ahead {
    copy: Option<Process>,
}

impl Model for Ahead {
    ghost use Rattle.std.specs.Prelude.{Option, option_map};
    ghost use Rattle.proc_state.specs.State.{ProcState, state_of};

    ghost Value = { Option ProcState };

    ghost view = { λ a. option_map state_of a.copy };
}

impl Ahead {
    /// No copy. Takes no memory.
    pub fn none() -> Ahead
        ensures { result ≡ None }
    {
        Ahead { copy: None }
    }

    /// Leaves no copy, as where the process has changed. Takes no memory.
    pub fn clear(&mut self)
        ensures { self.new ≡ None }
    {
        self.copy = None;
    }

    /// Leads the copy to a step count, from where the process stands. Where no silent steps lead there, there is no copy then, as
    /// after want of memory.
    pub fn lead(&mut self, alloc: Global, process: &Process, at: u64) -> Result<(), NoMemory>
        requires { IsAhead (state_of process.now) self.old }
        ensures leads { OnOk result (self.new ≡ upto at (state_of process.now)) }
        ensures ahead { IsAhead (state_of process.now) self.new }
    {
        if self.stands_at(at) {
            return Ok(());
        }
        self.copy = None;
        self.copy = led_copy(alloc, process, at)?;
        Ok(())
    }

    // Whether there is a copy with this step count.
    fn stands_at(&self, at: u64) -> bool
        ensures stands { IfSome self.now (λ t. result ≡ (t.small.steps == at)) }
        ensures there { self.now ≡ None → result ≡ false }
    {
        match &self.copy {
            Some(copy) => copy.small.steps == at,
            None => false,
        }
    }

    /// A page of the copy, if there is one.
    pub fn page(&self, index: u16) -> Option<[u8; 256]>
        requires { IfSome self.now (λ t. 256 * index < length t.memory) }
        ensures { result ≡ option_map (λ (t : ProcState). page_at t.memory index) self.now }
    {
        match &self.copy {
            Some(copy) => Some(page_of(&copy.ram, index)),
            None => None,
        }
    }

    /// The process itself makes the silent steps up to a step count, or becomes the copy, where that stands there. False exactly
    /// where no silent steps lead there: it has then made some, as it may have after want of memory. There is no copy then.
    pub fn catch_up(
        &mut self,
        alloc: Global,
        process: &mut Process,
        at: u64,
    ) -> Result<bool, NoMemory>
        requires { IsAhead (state_of process.old) self.old }
        ensures comes { IfOk result (λ came. ComesTo at (state_of process.old) came (state_of process.new)) }
        ensures none { self.new ≡ None }
    {
        if let Some(copy) = self.copy.take() {
            if copy.small.steps == at {
                *process = copy;
                return Ok(true);
            }
        }
        come_to(alloc, process, at)
    }
}

// A copy of a process, led to a step count, where silent steps lead there.
fn led_copy(alloc: Global, process: &Process, at: u64) -> Result<Option<Process>, NoMemory>
    ensures { IfOk result (λ copy. option_map state_of copy ≡ upto at (state_of process.now)) }
{
    let mut copy = copy_of(alloc, process)?;
    if come_to(alloc, &mut copy, at)? {
        Ok(Some(copy))
    } else {
        Ok(None)
    }
}

// Makes the silent steps up to a step count.
fn come_to(alloc: Global, process: &mut Process, at: u64) -> Result<bool, NoMemory>
    ensures { IfOk result (λ came. ComesTo at (state_of process.old) came (state_of process.new)) }
{
    let steps = steps_upto(process, at);
    make_silent_steps(alloc, process, steps)
}

// A process in the same state.
fn copy_of(alloc: Global, process: &Process) -> Result<Process, NoMemory>
    ensures { IfOk result (λ copy. state_of copy ≡ state_of process.now) }
{
    let Ok(ram) = process.ram.child() else {
        return Err(NoMemory);
    };
    Ok(Process {
        small: process.small.copy(),
        ram,
        mail: process.mail.copy(alloc)?,
        read: List::new(alloc),
        since: process.since,
    })
}

// A page of a memory that has it.
fn page_of(ram: &Ram, index: u16) -> [u8; 256]
    requires { 256 * index < length ram.now.bytes }
    ensures { result ≡ page_at ram.now.bytes index }
{
    if index >= ram.pages() {
        unreachable!()
    }
    ram.page(index)
}
