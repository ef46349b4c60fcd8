//! The limits of a process, by its own counts.
ghost use Rattle.std.specs.Prelude.{◌≡◌, List};
ghost use Rattle.t32_base.specs.declared.process.Pid.{Pid};
ghost use Rattle.sys_text.specs.declared.system.System.{System};
ghost use Rattle.proc_state.specs.declared.process.Process.{Process};
ghost use Rattle.proc_state.specs.State.{state_of};
ghost use Rattle.bus_msg.specs.declared.entry.Entry.{Entry};
ghost use Rattle.cert_sched.specs.Rules.{keeps_limits};
ghost use Rattle.checkpoint_laws.specs.posts.Running.{RunsMarked};
ghost use Rattle.checkpoint_laws.specs.limits.Within.{is_within_by};

/// A law and no code: a process that runs with its marks keeps the limits of the log where it is within them by its own
/// counts.
pub fn own_counts_are_limits()
    ensures { (system : System) (log : List Entry) (p : Pid) (process : Process) → RunsMarked system log p process → keeps_limits system log p (state_of process) ≡ is_within_by process system.syncreads system.syncsteps }
{}
