//! What a process sends that is not due keeps the limits.
ghost use Rattle.std.specs.Prelude.{◌≡◌, true, false, List};
ghost use Rattle.t32_base.specs.declared.process.Pid.{Pid};
ghost use Rattle.t32_base.specs.declared.process.End.{End};
ghost use Rattle.t32_base.specs.declared.letter.Letter.{Letter};
ghost use Rattle.sys_text.specs.declared.system.System.{System};
ghost use Rattle.proc_state.specs.declared.process.Process.{Process};
ghost use Rattle.proc_state.specs.State.{ProcState, state_of};
ghost use Rattle.sys_calls.specs.declared.steps.Emission.{Emission};
ghost use Rattle.sys_calls.specs.declared.steps.Emission.TheVariants.{Mail as SentMail, Exit as SentExit};
ghost use Rattle.sys_calls.specs.Calls.{Emits};
ghost use Rattle.sys_calls.specs.Next.{next_step};
ghost use Rattle.sync_point.specs.Due.{is_due_by};
ghost use Rattle.bus_msg.specs.declared.entry.What.TheVariants.{Mail, Exit};
ghost use Rattle.bus_msg.specs.declared.entry.Entry.{Entry};
ghost use Rattle.cert_sched.specs.Rules.{keeps_limits};
ghost use Rattle.checkpoint_laws.specs.posts.Running.{RunsMarked};
ghost use Rattle.checkpoint_laws.specs.limits.Within.{KeepsLimits};

/// A law and no code: where a process that runs with its marks is not due by its own counts, it keeps the limits after a
/// step that sends something.
pub fn sending_keeps_limits()
    ensures after { (system : System) (log : List Entry) (p : Pid) (process : Process) (e : Emission) (t : ProcState) → RunsMarked system log p process → is_due_by process system.syncreads system.syncsteps ≡ false → next_step (state_of process) ≡ Emits e t → keeps_limits system log p t ≡ true }
    // So the entry that tells of it keeps them, be it a letter
    ensures letter { (system : System) (log : List Entry) (p : Pid) (process : Process) (letter : Letter) (t : ProcState) → RunsMarked system log p process → is_due_by process system.syncreads system.syncsteps ≡ false → next_step (state_of process) ≡ Emits (SentMail letter) t → KeepsLimits system log (Mail (t.small).steps letter) }
    // or its exit.
    ensures exit { (system : System) (log : List Entry) (p : Pid) (process : Process) (end : End) (t : ProcState) → RunsMarked system log p process → is_due_by process system.syncreads system.syncsteps ≡ false → next_step (state_of process) ≡ Emits (SentExit end) t → KeepsLimits system log (Exit p (t.small).steps end) }
{}
