//! A fork keeps the limits of its process, and its child begins within them.
ghost use Rattle.std.specs.Prelude.{ℕ, ◌≡◌, ◌+◌, true, false, List};
ghost use Rattle.t32_base.specs.declared.process.Pid.{Pid};
ghost use Rattle.sys_text.specs.declared.system.System.{System};
ghost use Rattle.sys_text.specs.Valid.{is_system};
ghost use Rattle.proc_state.specs.declared.process.Process.{Process};
ghost use Rattle.proc_state.specs.State.{ProcState, SameRest, state_of};
ghost use Rattle.sys_calls.specs.Calls.{Forks};
ghost use Rattle.sys_calls.specs.Fork.{fork_parent};
ghost use Rattle.sys_calls.specs.Next.{next_step};
ghost use Rattle.sync_point.specs.Due.{is_due_by};
ghost use Rattle.bus_msg.specs.declared.entry.What.TheVariants.{Birth};
ghost use Rattle.bus_msg.specs.declared.entry.Entry.{Entry};
ghost use Rattle.roll_forward.specs.Advancing.{IsNewborn};
ghost use Rattle.cert_sched.specs.Rules.{keeps_limits};
ghost use Rattle.checkpoint_laws.specs.posts.Running.{RunsMarked};
ghost use Rattle.checkpoint_laws.specs.limits.Within.{KeepsLimits, is_within_by};

/// A law and no code: a process that is not due is within its limits after a fork, which counts as a step.
pub fn forks_stay_within()
    ensures within { (old new : Process) (child : Pid) (reads steps : ℕ) → state_of new ≡ fork_parent (state_of old) child → SameRest old new → is_due_by old reads steps ≡ false → is_within_by new reads steps ≡ true }
    // Where it runs with its marks and stands before its fork, the birth that tells of it keeps the limits of the log.
    ensures birth { (system : System) (log : List Entry) (p child : Pid) (end : ℕ) (process : Process) → RunsMarked system log p process → is_due_by process system.syncreads system.syncsteps ≡ false → next_step (state_of process) ≡ Forks → KeepsLimits system log (Birth p ((process.small).steps + 1) child end) }
{}

/// A law and no code: a child as it was born is not due,
pub fn children_begin_within()
    ensures undue { (system : System) (s : ProcState) (pages : ℕ) (child : Pid) (c : Process) → is_system system ≡ true → IsNewborn s pages child c → is_due_by c system.syncreads system.syncsteps ≡ false }
    // and keeps the limits of the log where it runs with its marks.
    ensures keeps { (system : System) (log : List Entry) (s : ProcState) (pages : ℕ) (child : Pid) (c : Process) → RunsMarked system log child c → IsNewborn s pages child c → keeps_limits system log child (state_of c) ≡ true }
{}
