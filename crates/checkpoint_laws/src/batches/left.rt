//! What is left of a batch may still be sent.
ghost use Rattle.std.specs.Prelude.{ℕ, ◌≡◌, true, List, [], ◌∷◌, ◌++◌, Option};
ghost use Rattle.t32_base.specs.declared.process.Pid.{Pid};
ghost use Rattle.t32_base.specs.declared.process.ClusterNo.{ClusterNo};
ghost use Rattle.sys_text.specs.declared.system.System.{System};
ghost use Rattle.sys_text.specs.Valid.{is_system};
ghost use Rattle.proc_state.specs.State.{ProcState};
ghost use Rattle.bus_msg.specs.declared.entry.Entry.{Entry};
ghost use Rattle.cert_sched.specs.Appended.{entry_of};
ghost use Rattle.cert_sched.specs.Legal.{IsLegalBy, Stands};
ghost use Rattle.checkpoint_laws.specs.posts.Batched.{AllNew, AllStand};
ghost use Rattle.checkpoint_laws.specs.batches.Underway.{BatchMay, page_left, posts_left};

/// A law and no code: the posts that are left of a batch may stand, post by post.
pub fn posts_left_stand()
    ensures stand { (system : System) (log : List Entry) (k : ClusterNo) (p : Pid) (s : ProcState) (read : List ℕ) (took : Option ℕ) (indices : List ℕ) → is_system system ≡ true → IsLegalBy Stands system log → BatchMay system log k p s read took indices → AllStand system log (posts_left k p s read took indices) }
    // None is a page that was sent at its step count already.
    ensures new { (system : System) (log : List Entry) (k : ClusterNo) (p : Pid) (s : ProcState) (read : List ℕ) (took : Option ℕ) (indices : List ℕ) → BatchMay system log k p s read took indices → AllNew system log (posts_left k p s read took indices) }
{}

/// A law and no code: once its next page was sent, the rest of a batch is under way.
pub fn pages_go_one_by_one()
    ensures { (system : System) (log : List Entry) (k : ClusterNo) (p : Pid) (s : ProcState) (read : List ℕ) (took : Option ℕ) (i : ℕ) (indices : List ℕ) → BatchMay system log k p s read took (i ∷ indices) → BatchMay system (log ++ entry_of system log (page_left k p s i) ∷ []) k p s read took indices }
{}
