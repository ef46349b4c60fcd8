//! A process that has caught up is within its limits.
ghost use Rattle.std.specs.Prelude.{ℕ, ◌≡◌, true, false, List, Some};
ghost use Rattle.t32_base.specs.declared.process.Pid.{Pid};
ghost use Rattle.t32_base.specs.declared.process.Counts.{Counts};
ghost use Rattle.sys_text.specs.declared.system.System.{System};
ghost use Rattle.sys_text.specs.Valid.{is_system};
ghost use Rattle.proc_state.specs.declared.process.Process.{Process};
ghost use Rattle.proc_state.specs.State.{ProcState, state_of};
ghost use Rattle.bus_msg.specs.declared.entry.Entry.{Entry};
ghost use Rattle.roll_forward.specs.RunsOut.{RunsOut, nothing_left};
ghost use Rattle.roll_forward.specs.Advancing.{going, rolled_on};
ghost use Rattle.cert_sched.specs.Schedule.{process_after};
ghost use Rattle.cert_sched.specs.Rules.{is_over, keeps_limits};
ghost use Rattle.cert_sched.specs.Legal.{IsLegalBy, MayStand};
ghost use Rattle.cert_sched.specs.Simulation.{IsUnended};
ghost use Rattle.replay_laws.specs.rolling.Behind.{RollsBehind};

/// A law and no code: in a log of what is built that is not over, each process that has not ended is within its limits
/// where it is in the kernel without failures.
pub fn caught_up_keep_limits()
    ensures there { (system : System) (log : List Entry) (p : Pid) (now : ProcState) → is_system system ≡ true → IsLegalBy MayStand system log → is_over system log ≡ false → IsUnended system log p → process_after system log p ≡ Some now → keeps_limits system log p now ≡ true }
    // So is one that rolls forward, is not beyond where it was and has nothing left to withhold,
    ensures caught { (system : System) (log : List Entry) (p : Pid) (s : ProcState) (counts : Counts) (births : List Pid) → is_system system ≡ true → IsLegalBy MayStand system log → is_over system log ≡ false → IsUnended system log p → RollsBehind system log p s counts births → nothing_left counts births ≡ true → keeps_limits system log p s ≡ true }
    // as it is after all the steps that were ahead.
    ensures after { (system : System) (log : List Entry) (p : Pid) (process q : Process) (counts left : Counts) (births unborn : List Pid) (n : ℕ) → is_system system ≡ true → IsLegalBy MayStand system log → is_over system log ≡ false → IsUnended system log p → RollsBehind system log p (state_of process) counts births → RunsOut (state_of process) counts births n → rolled_on n (going process counts births) ≡ Some (going q left unborn) → keeps_limits system log p (state_of q) ≡ true }
{}
