//! Up to which step the pages of the processes were sent, post by post.
ghost use Rattle.std.specs.Prelude.{ℕ, ◌≡◌, ◌≤◌, false, List, [], ◌∷◌, ◌++◌, Option};
ghost use Rattle.t32_base.specs.declared.process.Pid.{Pid};
ghost use Rattle.t32_base.specs.declared.process.ClusterNo.{ClusterNo};
ghost use Rattle.sys_text.specs.declared.system.System.{System};
ghost use Rattle.proc_state.specs.State.{ProcState};
ghost use Rattle.bus_msg.specs.declared.entry.Entry.{Entry};
ghost use Rattle.bus_msg.specs.Places.{same_pid};
ghost use Rattle.cert_sched.specs.Appended.{entry_of};
ghost use Rattle.checkpoint_laws.specs.marks.Sent.{SentUpto};
ghost use Rattle.checkpoint_laws.specs.batches.Underway.{page_left, sync_left};

/// A law and no code: no post of a batch is a page of a later step.
pub fn batches_send_no_later_page()
    // A page is not later than the step count of its process,
    ensures own { (system : System) (log : List Entry) (k : ClusterNo) (p : Pid) (s : ProcState) (i n : ℕ) → (s.small).steps ≤ n → SentUpto system log p n → SentUpto system (log ++ entry_of system log (page_left k p s i) ∷ []) p n }
    // and is none of another process;
    ensures others { (system : System) (log : List Entry) (k : ClusterNo) (p q : Pid) (s : ProcState) (i n : ℕ) → same_pid p q ≡ false → SentUpto system log q n → SentUpto system (log ++ entry_of system log (page_left k p s i) ∷ []) q n }
    // and the state is no page.
    ensures sync { (system : System) (log : List Entry) (k : ClusterNo) (p q : Pid) (s : ProcState) (read : List ℕ) (took : Option ℕ) (n : ℕ) → SentUpto system log q n → SentUpto system (log ++ entry_of system log (sync_left k p s read took) ∷ []) q n }
{}
