//! Where processes start: at boot, at their birth, and at each cut.
ghost use Rattle.std.specs.Prelude.{◌≡◌, ◌+◌, List, [], ◌∷◌, ◌++◌, length, true, false, Some, ℕ};
ghost use Rattle.t32_base.specs.declared.process.Pid.{Pid};
ghost use Rattle.sys_text.specs.declared.system.System.{System as ASystem};
ghost use Rattle.sys_text.specs.Valid.{is_system};
ghost use Rattle.proc_state.specs.State.{ProcState, state_of};
ghost use Rattle.bus_msg.specs.declared.entry.Entry.{Entry};
ghost use Rattle.bus_msg.specs.PlacedAfter.{what};
ghost use Rattle.cert_sched.specs.Schedule.{process_after};
ghost use Rattle.cert_sched.specs.Deeds.{letter_for, starts};
ghost use Rattle.cert_sched.specs.Legal.{IsLegalBy, MayStand};
ghost use Rattle.cert_sched.specs.Simulation.{IsUnended};
ghost use Rattle.log_processes.specs.Sending.{AreLimits, KeepsProcess};
ghost use Rattle.log_processes.specs.Starting.{BeginsAgain, IsKeptAtBoot};

use crate::sender::{Limits, Sender, letters_waiting, steps_made};
use proc_state::process::Process;
use sys_text::system::System;

/// The limits of a system.
pub fn limits_of(system: &System) -> Limits
    ensures { AreLimits result system.now }
{
    Limits {
        steps: system.syncsteps,
        reads: system.syncreads,
    }
}

/// What is kept of a root at boot.
pub fn at_boot() -> Sender
    ensures { IsKeptAtBoot result }
{
    Sender {
        start: 0,
        saved: 0,
        whole: true,
        parent: false,
    }
}

/// The process starts again where it stands, with the letters that wait, as at its birth and at each cut of it.
pub fn begin_again(kept: &mut Sender, process: &Process)
    ensures counts { kept.new ≡ record kept.old { start = process.now.small.steps; saved = length process.now.mail.letters } }
    ensures keeps { BeginsAgain (state_of process.now) kept.new }
{
    kept.start = steps_made(process);
    kept.saved = letters_waiting(process);
}

/// A law and no code: from any other entry that may follow, as a fork of it, a process does not start again, and the letters of
/// the entry that come to it are saved.
pub fn starts_stay()
    ensures { (system : ASystem) (log : List Entry) (e : Entry) (p : Pid) (t : ProcState) (start saved : ℕ) (s : ProcState) → is_system system ≡ true → IsLegalBy MayStand system log → MayStand system log e → IsUnended system log p → starts p e ≡ false → KeepsProcess p s start saved system log → process_after system (log ++ e ∷ []) p ≡ Some t → KeepsProcess p t start (saved + length (letter_for p (what e))) system (log ++ e ∷ []) }
{}
