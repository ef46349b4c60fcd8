//! A synchronisation of a process that is within its limits keeps them.
ghost use Rattle.std.specs.Prelude.{ℕ, ◌≡◌, true, List, Option};
ghost use Rattle.t32_base.specs.declared.process.Pid.{Pid};
ghost use Rattle.t32_base.specs.declared.process.ClusterNo.{ClusterNo};
ghost use Rattle.t32_base.specs.Small.{SmallState};
ghost use Rattle.sys_text.specs.declared.system.System.{System};
ghost use Rattle.proc_state.specs.declared.process.Process.{Process};
ghost use Rattle.sync_point.specs.Batch.{batch};
ghost use Rattle.bus_msg.specs.declared.entry.What.TheVariants.{Sync};
ghost use Rattle.bus_msg.specs.declared.entry.Entry.{Entry};
ghost use Rattle.cert_sched.specs.Rules.{is_within_limits};
ghost use Rattle.checkpoint_laws.specs.posts.Running.{RunsMarked};
ghost use Rattle.checkpoint_laws.specs.limits.Within.{AllKeepLimits, KeepsLimits, is_within_by};

/// A law and no code: where a process that runs with its marks is within its limits by its own counts, its
/// synchronisation at its step count keeps them, whatever letters it names as read, and whether a signal is taken or not.
pub fn synchronising_keeps_limits()
    ensures within { (system : System) (log : List Entry) (p : Pid) (process : Process) (small : SmallState) (read : List ℕ) (took : Option ℕ) → RunsMarked system log p process → is_within_by process system.syncreads system.syncsteps ≡ true → small.steps ≡ (process.small).steps → is_within_limits system log (Sync p small read took) p ≡ true }
    ensures keeps { (system : System) (log : List Entry) (p : Pid) (process : Process) (small : SmallState) (read : List ℕ) (took : Option ℕ) → RunsMarked system log p process → is_within_by process system.syncreads system.syncsteps ≡ true → small.steps ≡ (process.small).steps → KeepsLimits system log (Sync p small read took) }
{}

/// A law and no code: so does each post of its batch, after those before it.
pub fn batches_keep_limits()
    ensures { (system : System) (log : List Entry) (p : Pid) (process : Process) (by : ClusterNo) → RunsMarked system log p process → is_within_by process system.syncreads system.syncsteps ≡ true → AllKeepLimits system log (batch process by) }
{}
