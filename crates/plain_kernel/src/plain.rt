//! The kernel without failures, and its schedules.
ghost use Rattle.std.specs.Prelude.{◌≡◌, ◌^◌, ◌<◌, ◌≤◌, ◌+◌, [], IfOk, OnOk, map, not, option_map, true, length, Result};
ghost use Rattle.std.specs.Option.{option_copied};
ghost use Rattle.proc_state.specs.State.{state_of};
ghost use Rattle.sys_text.specs.Valid.{is_system};
ghost use Rattle.plain_kernel.specs.Kernel.{boot as boot_of, process_at, tty_at};
ghost use Rattle.plain_kernel.specs.Still.{IsDefaultRun, is_still};
ghost use Rattle.plain_kernel.specs.Answers.{Applies, Runs, fork_answer, take_answer};

use crate::births::{fork_at, stands_at_fork};
use crate::booting::{processes_of, ttys_of};
use crate::item::{Item, NotApplied, RunRefused};
use crate::processes::{pids_of, some_can_act};
use crate::running::{run_steps, run_to_end};
use crate::signals::take_at;
use proc_state::process::Process;
use std::alloc::Global;
use std::collections::BTreeMap;
use std::marker::Model;
use sys_text::system::System;
use t32_base::lists::{Bytes, List};
use t32_base::process::Pid;
use t32_base::streams::NoMemory;

/// A kernel without failures: its processes by pid, and the bytes that each terminal was sent.
#[derive(Drop)]
pub struct Plain {
    alloc: Global,
    processes: BTreeMap<u32, Process>,
    ttys: BTreeMap<u8, Bytes>,
}

impl Model for Plain {
    ghost use Rattle.plain_kernel.specs.Kernel.{Kernel};

    ghost Value = { Kernel };

    ghost use Rattle.std.specs.Prelude.{◌^◌, ◌<◌};
    ghost use Rattle.plain_kernel.specs.Maps.{kernel_of, total_load};

    ghost view = { λ k. kernel_of k.processes.entries k.ttys.entries };

    ghost invariant = { λ k. total_load k.processes.entries < 2 ^ 64 };
}

impl Plain {
    /// The kernel of a system at its start: each root with its image, linked by the channels, and the
    /// terminals that the roots name, to which nothing was sent.
    pub fn boot(alloc: Global, system: &System) -> Result<Plain, NoMemory>
        requires { is_system system.now ≡ true }
        ensures { IfOk result (λ k. k ≡ boot_of system.now) }
    {
        let processes = processes_of(alloc, system)?;
        let ttys = ttys_of(alloc, system.roots.as_slice())?;
        Ok(Plain {
            alloc,
            processes,
            ttys,
        })
    }

    /// Applies an item. `Disabled { done }` comes exactly where the item cannot be applied after `done` of
    /// its steps. After it, and after want of memory, the kernel stands after those steps: fewer than a run
    /// asks for, and none where it asks for none or the item is no run.
    pub fn apply(&mut self, item: &Item) -> Result<(), NotApplied>
        ensures { Applies item.now result self.old self.new }
    {
        match item {
            Item::Run(pid, most) => self.run_process(*pid, *most),
            Item::Fork(pid, child) => self.fork_process(*pid, *child),
            Item::Take(pid) => self.take_for(*pid),
        }
    }

    // Makes so many steps of a process, one at least.
    fn run_process(&mut self, pid: Pid, most: u64) -> Result<(), NotApplied>
        ensures { Applies (Item.Run pid most) result self.old self.new }
    {
        if most == 0 {
            return Err(NotApplied::Disabled { done: 0 });
        }
        if !self.processes.contains_key(&pid.0) {
            return Err(NotApplied::Disabled { done: 0 });
        }
        run_steps(self.alloc, &mut self.processes, &mut self.ttys, pid.0, most)
    }

    // A process whose next step is a fork makes it, where the child's pid is no process's.
    fn fork_process(&mut self, pid: Pid, child: Pid) -> Result<(), NotApplied>
        ensures { Applies (Item.Fork pid child) result self.old self.new }
    {
        if !stands_at_fork(&self.processes, pid.0) {
            return Err(NotApplied::Disabled { done: 0 });
        }
        if self.processes.contains_key(&child.0) {
            return Err(NotApplied::Disabled { done: 0 });
        }
        fork_answer(fork_at(self.alloc, &mut self.processes, pid.0, child))
    }

    // A process takes the first signal that waits for it, where it is there and can take one.
    fn take_for(&mut self, pid: Pid) -> Result<(), NotApplied>
        ensures { Applies (Item.Take pid) result self.old self.new }
    {
        take_answer(take_at(&mut self.processes, pid.0))
    }

    /// Whether a process has a step or can take a signal. Takes no memory.
    pub fn can_move(&self) -> bool
        ensures { result ≡ not (is_still self.now) }
    {
        some_can_act(&self.processes)
    }

    /// Every pid, rising.
    pub fn pids(&self) -> Result<List<Pid>, NoMemory>
        ensures { IfOk result (λ pids. pids ≡ map (λ e. e.0) self.now.processes) }
    {
        pids_of(self.alloc, &self.processes)
    }

    /// The process with a pid: None exactly where it is not there. Takes no memory.
    pub fn process(&self, pid: Pid) -> Option<&Process>
        ensures { option_map state_of (option_copied result) ≡ process_at self.now pid }
    {
        self.processes.get(&pid.0)
    }

    /// The bytes that a terminal was sent: None exactly where no root names it. Takes no memory.
    pub fn tty(&self, tty: u8) -> Option<&[u8]>
        ensures { option_copied result ≡ tty_at self.now tty }
    {
        match self.ttys.get(&tty) {
            Some(text) => Some(text.as_slice()),
            None => None,
        }
    }
}

// A fork is applied whole, or memory was refused before it.
fn fork_answer(forked: Result<(), NoMemory>) -> Result<(), NotApplied>
    ensures { result ≡ fork_answer forked }
{
    match forked {
        Ok(()) => Ok(()),
        Err(NoMemory) => Err(NotApplied::NoMemory { done: 0 }),
    }
}

// A take is applied whole, or it cannot be applied, or memory was refused before it.
fn take_answer(took: Result<bool, NoMemory>) -> Result<(), NotApplied>
    ensures { result ≡ take_answer took }
{
    match took {
        Ok(true) => Ok(()),
        Ok(false) => Err(NotApplied::Disabled { done: 0 }),
        Err(NoMemory) => Err(NotApplied::NoMemory { done: 0 }),
    }
}

/// Runs a schedule from the start of a system. `BadItem { index }` comes exactly where the items before
/// that index apply and that one does not.
pub fn run(alloc: Global, system: &System, items: &[Item]) -> Result<Plain, RunRefused>
    requires { is_system system.now ≡ true }
    ensures { Runs system.now items.now result }
{
    let mut plain = match Plain::boot(alloc, system) {
        Ok(plain) => plain,
        Err(NoMemory) => return Err(RunRefused::NoMemory),
    };
    for (index, item) in items.iter().enumerate() {
        match plain.apply(item) {
            Ok(()) => {}
            Err(NotApplied::Disabled { .. }) => {
                return Err(RunRefused::BadItem {
                    index: index as u64,
                });
            }
            Err(NotApplied::NoMemory { .. }) => return Err(RunRefused::NoMemory),
        }
    }
    Ok(plain)
}

/// Runs the default schedule from the start of a system: the lowest pid that can take a signal takes it, and
/// where none can the lowest that has a step makes one, until none has.
pub fn default_run(alloc: Global, system: &System) -> Result<Plain, NoMemory>
    requires { is_system system.now ≡ true }
    ensures { IfOk result (λ k. IsDefaultRun system.now k) }
{
    let mut processes = processes_of(alloc, system)?;
    let mut ttys = ttys_of(alloc, system.roots.as_slice())?;
    run_to_end(alloc, &mut processes, &mut ttys)?;
    Ok(Plain {
        alloc,
        processes,
        ttys,
    })
}
