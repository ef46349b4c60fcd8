//! A batch that is queued is under way, with all its pages left.
ghost use Rattle.std.specs.Prelude.{◌≡◌, true, not, ◌||◌, List, is_some};
ghost use Rattle.t32_base.specs.declared.process.Pid.{Pid};
ghost use Rattle.t32_base.specs.declared.process.ClusterNo.{ClusterNo};
ghost use Rattle.sys_text.specs.declared.system.System.{System};
ghost use Rattle.proc_state.specs.declared.process.Process.{Process};
ghost use Rattle.proc_state.specs.State.{state_of};
ghost use Rattle.bus_msg.specs.declared.entry.By.TheVariants.{Cluster};
ghost use Rattle.bus_msg.specs.declared.entry.Entry.{Entry};
ghost use Rattle.sync_point.specs.Batch.{batch, cut_of, marked_pages, took_by};
ghost use Rattle.sync_point.specs.Due.{is_due_by};
ghost use Rattle.cert_sched.specs.Kinds.{ChildrenSynced};
ghost use Rattle.cert_sched.specs.Record.{has_state};
ghost use Rattle.checkpoint_laws.specs.posts.Running.{RunsMarked};
ghost use Rattle.checkpoint_laws.specs.posts.Sending.{MaySend};
ghost use Rattle.checkpoint_laws.specs.batches.Underway.{BatchMay, posts_left};

/// A law and no code: where a process that runs with its marks, and whose children have synchronised, is due by its own
/// counts, takes a signal or is a child that was never cut, its batch is under way with the pages that are marked: as it is
/// after the take, if it can take a signal, and with the letters that it has read then.
pub fn batches_begin()
    ensures may { (system : System) (log : List Entry) (p : Pid) (process : Process) (by : ClusterNo) → RunsMarked system log p process → MaySend system log (Cluster by) p (state_of process) → ChildrenSynced system log p → (is_due_by process system.syncreads system.syncsteps || is_some (took_by process) || not (has_state system log p)) ≡ true → BatchMay system log by p (state_of (cut_of process)) (cut_of process).read (took_by process) (marked_pages process) }
    // The posts that are left are those of the batch.
    ensures posts { (system : System) (log : List Entry) (p : Pid) (process : Process) (by : ClusterNo) → RunsMarked system log p process → batch process by ≡ posts_left by p (state_of (cut_of process)) (cut_of process).read (took_by process) (marked_pages process) }
{}
