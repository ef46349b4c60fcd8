//! The posts of a batch may stand one after the other.
ghost use Rattle.std.specs.Prelude.{◌≡◌, true, not, ◌||◌, List, is_some};
ghost use Rattle.t32_base.specs.declared.process.Pid.{Pid};
ghost use Rattle.t32_base.specs.declared.process.ClusterNo.{ClusterNo};
ghost use Rattle.sys_text.specs.declared.system.System.{System};
ghost use Rattle.proc_state.specs.declared.process.Process.{Process};
ghost use Rattle.proc_state.specs.State.{state_of};
ghost use Rattle.bus_msg.specs.declared.entry.By.TheVariants.{Cluster};
ghost use Rattle.bus_msg.specs.declared.entry.Entry.{Entry};
ghost use Rattle.sync_point.specs.Batch.{batch, synced, took_by};
ghost use Rattle.sync_point.specs.Due.{is_due_by};
ghost use Rattle.cert_sched.specs.Kinds.{ChildrenSynced};
ghost use Rattle.cert_sched.specs.Record.{has_state};
ghost use Rattle.checkpoint_laws.specs.posts.Sending.{MaySend};
ghost use Rattle.checkpoint_laws.specs.posts.Running.{RunsMarked};
ghost use Rattle.checkpoint_laws.specs.posts.Batched.{AllNew, AllStand, log_with};
ghost use Rattle.checkpoint_laws.specs.posts.Marked.{IsMarked};

/// A law and no code: where a process whose children have synchronised is due by its own counts, takes a signal, or is a
/// child that was never cut, its batch may stand, post by post.
pub fn batches_stand()
    ensures { (system : System) (log : List Entry) (p : Pid) (process : Process) (by : ClusterNo) → RunsMarked system log p process → MaySend system log (Cluster by) p (state_of process) → ChildrenSynced system log p → (is_due_by process system.syncreads system.syncsteps || is_some (took_by process) || not (has_state system log p)) ≡ true → AllStand system log (batch process by) }
{}

/// A law and no code: no page of a batch was sent at its step count already.
pub fn batches_are_new()
    ensures { (system : System) (log : List Entry) (p : Pid) (process : Process) (by : ClusterNo) → RunsMarked system log p process → AllNew system log (batch process by) }
{}

/// A law and no code: after its batch the process that was synchronised is marked as the log says.
pub fn batches_leave_marks()
    ensures { (system : System) (log : List Entry) (p : Pid) (process : Process) (by : ClusterNo) → RunsMarked system log p process → MaySend system log (Cluster by) p (state_of process) → ChildrenSynced system log p → IsMarked system (log_with system log (batch process by)) p (synced process) }
{}
