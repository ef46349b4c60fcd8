//! What is left of a batch keeps the limits of its process.
ghost use Rattle.std.specs.Prelude.{ℕ, ◌≡◌, true, List, [], ◌∷◌, ◌++◌, Option};
ghost use Rattle.t32_base.specs.declared.process.Pid.{Pid};
ghost use Rattle.t32_base.specs.declared.process.ClusterNo.{ClusterNo};
ghost use Rattle.t32_base.specs.Small.{SmallState};
ghost use Rattle.sys_text.specs.declared.system.System.{System};
ghost use Rattle.proc_state.specs.State.{ProcState};
ghost use Rattle.bus_msg.specs.declared.entry.What.TheVariants.{Sync};
ghost use Rattle.bus_msg.specs.declared.entry.Entry.{Entry};
ghost use Rattle.cert_sched.specs.Appended.{entry_of};
ghost use Rattle.cert_sched.specs.Rules.{is_within_limits, keeps_limits};
ghost use Rattle.checkpoint_laws.specs.batches.Between.{ComesBetween};
ghost use Rattle.checkpoint_laws.specs.batches.Underway.{BatchMay, page_left, posts_left};
ghost use Rattle.checkpoint_laws.specs.limits.Within.{AllKeepLimits, KeepsLimits};

/// A law and no code: where the synchronisation that ends a batch keeps the limits, so does each post that is left of it,
/// after those before it.
pub fn posts_left_keep_limits()
    ensures posts { (system : System) (log : List Entry) (k : ClusterNo) (p : Pid) (s : ProcState) (read : List ℕ) (took : Option ℕ) (indices : List ℕ) → KeepsLimits system log (Sync p s.small read took) → AllKeepLimits system log (posts_left k p s read took indices) }
    // A page of it changes nothing of that, nor of the limits of its process,
    ensures sync { (system : System) (log : List Entry) (k : ClusterNo) (p : Pid) (s : ProcState) (i : ℕ) (small : SmallState) (read : List ℕ) (took : Option ℕ) → is_within_limits system (log ++ entry_of system log (page_left k p s i) ∷ []) (Sync p small read took) p ≡ is_within_limits system log (Sync p small read took) p }
    ensures page { (system : System) (log : List Entry) (k : ClusterNo) (p : Pid) (s : ProcState) (i : ℕ) → keeps_limits system (log ++ entry_of system log (page_left k p s i) ∷ []) p s ≡ keeps_limits system log p s }
    // nor does an entry that comes between its posts.
    ensures between { (system : System) (log : List Entry) (e : Entry) (k : ClusterNo) (p : Pid) (s : ProcState) (read : List ℕ) (took : Option ℕ) (indices : List ℕ) → ComesBetween system log e k p → BatchMay system log k p s read took indices → KeepsLimits system log (Sync p s.small read took) → KeepsLimits system (log ++ e ∷ []) (Sync p s.small read took) }
{}
