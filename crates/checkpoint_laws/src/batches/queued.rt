//! What the log says of the processes with the rest of a batch at its end.
ghost use Rattle.std.specs.Prelude.{ℕ, ◌≡◌, ◌≤◌, true, false, List, Option};
ghost use Rattle.t32_base.specs.declared.process.Pid.{Pid};
ghost use Rattle.t32_base.specs.declared.process.ClusterNo.{ClusterNo};
ghost use Rattle.sys_text.specs.declared.system.System.{System};
ghost use Rattle.sys_text.specs.Valid.{is_system};
ghost use Rattle.proc_state.specs.declared.process.Process.{Process};
ghost use Rattle.proc_state.specs.State.{ProcState};
ghost use Rattle.bus_msg.specs.declared.entry.Entry.{Entry};
ghost use Rattle.bus_msg.specs.Places.{same_pid};
ghost use Rattle.cert_sched.specs.Deeds.{arrived_count};
ghost use Rattle.cert_sched.specs.Legal.{IsLegalBy, Stands};
ghost use Rattle.cert_sched.specs.Simulation.{IsUnended};
ghost use Rattle.checkpoint_laws.specs.posts.Batched.{log_with};
ghost use Rattle.checkpoint_laws.specs.posts.Marked.{IsMarked};
ghost use Rattle.checkpoint_laws.specs.marks.Sent.{SentUpto};
ghost use Rattle.checkpoint_laws.specs.batches.Underway.{BatchMay, posts_left};

/// A law and no code: a process other than that of a batch, which is marked as the log says, is marked as the log says with
/// the rest of the batch at its end,
pub fn batches_keep_marks_of_others()
    ensures kept { (system : System) (log : List Entry) (k : ClusterNo) (p q : Pid) (s : ProcState) (read : List ℕ) (took : Option ℕ) (indices : List ℕ) (process : Process) → is_system system ≡ true → IsLegalBy Stands system log → BatchMay system log k p s read took indices → same_pid p q ≡ false → IsUnended system log q → (process.mail).next ≤ arrived_count log q → IsMarked system log q process → IsMarked system (log_with system log (posts_left k p s read took indices)) q process }
    // and the other way round.
    ensures before { (system : System) (log : List Entry) (k : ClusterNo) (p q : Pid) (s : ProcState) (read : List ℕ) (took : Option ℕ) (indices : List ℕ) (process : Process) → is_system system ≡ true → IsLegalBy Stands system log → BatchMay system log k p s read took indices → same_pid p q ≡ false → IsUnended system log q → (process.mail).next ≤ arrived_count log q → IsMarked system (log_with system log (posts_left k p s read took indices)) q process → IsMarked system log q process }
{}

/// A law and no code: the rest of a batch at the end of the log has no page of a later step than was sent before it.
pub fn batches_keep_what_was_sent()
    // Of its own process none is later than its step count,
    ensures own { (system : System) (log : List Entry) (k : ClusterNo) (p : Pid) (s : ProcState) (read : List ℕ) (took : Option ℕ) (indices : List ℕ) (n : ℕ) → (s.small).steps ≤ n → SentUpto system log p n → SentUpto system (log_with system log (posts_left k p s read took indices)) p n }
    // and of any other there is none;
    ensures others { (system : System) (log : List Entry) (k : ClusterNo) (p q : Pid) (s : ProcState) (read : List ℕ) (took : Option ℕ) (indices : List ℕ) (n : ℕ) → same_pid p q ≡ false → SentUpto system log q n → SentUpto system (log_with system log (posts_left k p s read took indices)) q n }
    // so none was later before it, too.
    ensures before { (system : System) (log : List Entry) (k : ClusterNo) (p q : Pid) (s : ProcState) (read : List ℕ) (took : Option ℕ) (indices : List ℕ) (n : ℕ) → SentUpto system (log_with system log (posts_left k p s read took indices)) q n → SentUpto system log q n }
{}
