//! The posts of a batch leave the marks of every other process.
ghost use Rattle.std.specs.Prelude.{ℕ, ◌≡◌, false, List, Option};
ghost use Rattle.t32_base.specs.declared.process.Pid.{Pid};
ghost use Rattle.t32_base.specs.declared.process.ClusterNo.{ClusterNo};
ghost use Rattle.sys_text.specs.declared.system.System.{System};
ghost use Rattle.proc_state.specs.State.{ProcState};
ghost use Rattle.bus_msg.specs.declared.entry.Entry.{Entry};
ghost use Rattle.bus_msg.specs.Places.{same_pid};
ghost use Rattle.cert_sched.specs.Appended.{entry_of};
ghost use Rattle.checkpoint_laws.specs.marks.Beside.{LeavesMarks};
ghost use Rattle.checkpoint_laws.specs.batches.Underway.{page_left, sync_left};

/// A law and no code: each page of a batch leaves the marks of every other process,
pub fn batches_leave_marks_of_others()
    ensures pages { (system : System) (log : List Entry) (k : ClusterNo) (p q : Pid) (s : ProcState) (i : ℕ) → same_pid p q ≡ false → LeavesMarks system log (entry_of system log (page_left k p s i)) q }
    // and so does its state.
    ensures sync { (system : System) (log : List Entry) (k : ClusterNo) (p q : Pid) (s : ProcState) (read : List ℕ) (took : Option ℕ) → same_pid p q ≡ false → LeavesMarks system log (entry_of system log (sync_left k p s read took)) q }
{}
