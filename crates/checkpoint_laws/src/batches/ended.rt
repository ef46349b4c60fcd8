//! A batch that was sent to its end.
ghost use Rattle.std.specs.Prelude.{ℕ, ◌≡◌, true, false, List, [], replicate, Option};
ghost use Rattle.t32_base.specs.declared.process.Pid.{Pid};
ghost use Rattle.t32_base.specs.declared.process.ClusterNo.{ClusterNo};
ghost use Rattle.sys_text.specs.declared.system.System.{System};
ghost use Rattle.sys_text.specs.Valid.{is_system};
ghost use Rattle.proc_state.specs.declared.process.Process.{Process};
ghost use Rattle.proc_state.specs.State.{ProcState, state_of};
ghost use Rattle.bus_msg.specs.declared.entry.Entry.{Entry};
ghost use Rattle.cert_sched.specs.Appended.{entry_of};
ghost use Rattle.cert_sched.specs.Legal.{IsLegalBy, Stands};
ghost use Rattle.checkpoint_laws.specs.posts.Batched.{log_with};
ghost use Rattle.checkpoint_laws.specs.posts.Cut.{CutsAt};
ghost use Rattle.checkpoint_laws.specs.posts.Marked.{IsMarked};
ghost use Rattle.checkpoint_laws.specs.batches.Underway.{BatchMay, posts_left, sync_left};

/// A law and no code: after the rest of its batch the process, without a mark and with no letter read, is marked as the
/// log says.
pub fn batches_end_marked()
    ensures marked { (system : System) (log : List Entry) (k : ClusterNo) (p : Pid) (s : ProcState) (read : List ℕ) (took : Option ℕ) (indices : List ℕ) (process : Process) (n : ℕ) → is_system system ≡ true → IsLegalBy Stands system log → BatchMay system log k p s read took indices → state_of process ≡ s → process.read ≡ [] → process.since ≡ (process.small).steps → (process.ram).dirty ≡ replicate n false → IsMarked system (log_with system log (posts_left k p s read took indices)) p process }
    // Its last post cuts it, as it is after its take.
    ensures cuts { (system : System) (log : List Entry) (k : ClusterNo) (p : Pid) (s : ProcState) (read : List ℕ) (took : Option ℕ) → BatchMay system log k p s read took [] → CutsAt system log (entry_of system log (sync_left k p s read took)) p s }
{}
