//! Entries that come between the posts of a batch.
ghost use Rattle.std.specs.Prelude.{ℕ, ◌≡◌, true, false, List, [], ◌∷◌, ◌++◌, Some, Option};
ghost use Rattle.t32_base.specs.declared.process.Pid.{Pid};
ghost use Rattle.t32_base.specs.declared.process.ClusterNo.{ClusterNo};
ghost use Rattle.t32_base.specs.declared.letter.Letter.{Letter};
ghost use Rattle.sys_text.specs.declared.system.System.{System};
ghost use Rattle.sys_text.specs.Valid.{is_system};
ghost use Rattle.proc_state.specs.State.{ProcState};
ghost use Rattle.bus_msg.specs.declared.entry.By.TheVariants.{Cluster};
ghost use Rattle.bus_msg.specs.declared.entry.Entry.{Entry};
ghost use Rattle.bus_msg.specs.PlacedAfter.{what};
ghost use Rattle.cert_sched.specs.Schedule.{placement};
ghost use Rattle.cert_sched.specs.Deeds.{deeds_in, letter_for};
ghost use Rattle.cert_sched.specs.Losses.{is_by_cluster};
ghost use Rattle.cert_sched.specs.Steps.{silent_upto};
ghost use Rattle.cert_sched.specs.Rules.{is_by_home, is_over};
ghost use Rattle.cert_sched.specs.Legal.{IsLegalBy, Stands};
ghost use Rattle.log_laws.specs.pages.Next.{moves_next};
ghost use Rattle.checkpoint_laws.specs.posts.Cut.{TakesTo};
ghost use Rattle.checkpoint_laws.specs.marks.Beside.{LeavesMarks};
ghost use Rattle.checkpoint_laws.specs.batches.Between.{ComesBetween};
ghost use Rattle.checkpoint_laws.specs.batches.Underway.{BatchMay, posts_left, with_letters};

/// A law and no code: an entry that the home of a process did not send tells nothing that the process did.
pub fn others_tell_no_deeds()
    ensures deeds { (system : System) (log : List Entry) (e : Entry) (k : ClusterNo) (p : Pid) → Stands system log e → is_by_cluster k e ≡ false → is_by_home (placement system log) (Cluster k) (Some p) ≡ true → deeds_in p (what e) ≡ [] }
    // So it leaves its marks, where it does not move the process,
    ensures leaves { (system : System) (log : List Entry) (e : Entry) (k : ClusterNo) (p : Pid) → Stands system log e → is_by_cluster k e ≡ false → is_by_home (placement system log) (Cluster k) (Some p) ≡ true → is_system system ≡ true → IsLegalBy Stands system log → moves_next system log e p ≡ false → LeavesMarks system log e p }
    // and comes between the posts of its batch where the log goes on after it and the process is still at that home.
    ensures between { (system : System) (log : List Entry) (e : Entry) (k : ClusterNo) (p : Pid) → is_system system ≡ true → IsLegalBy Stands system log → Stands system log e → is_by_cluster k e ≡ false → is_by_home (placement system log) (Cluster k) (Some p) ≡ true → is_over system (log ++ e ∷ []) ≡ false → is_by_home (placement system (log ++ e ∷ [])) (Cluster k) (Some p) ≡ true → ComesBetween system log e k p }
{}

/// A law and no code: an entry that comes between the posts of a batch leaves it under way, with the letters that it
/// brings the process.
pub fn entries_leave_batches()
    ensures stays { (system : System) (log : List Entry) (e : Entry) (k : ClusterNo) (p : Pid) (s : ProcState) (read : List ℕ) (took : Option ℕ) (indices : List ℕ) → ComesBetween system log e k p → BatchMay system log k p s read took indices → BatchMay system (log ++ e ∷ []) k p (with_letters s (letter_for p (what e))) read took indices }
    // Silent steps lead to where they did, with these letters,
    ensures reached { (system : System) (log : List Entry) (e : Entry) (k : ClusterNo) (p : Pid) (s t : ProcState) (read : List ℕ) (took : Option ℕ) (indices : List ℕ) → ComesBetween system log e k p → BatchMay system log k p s read took indices → silent_upto system log p (s.small).steps ≡ Some t → silent_upto system (log ++ e ∷ []) p (s.small).steps ≡ Some (with_letters t (letter_for p (what e))) }
    // so the batch is under way with the process as it is after the take from what is found there,
    ensures found { (system : System) (log : List Entry) (e : Entry) (k : ClusterNo) (p : Pid) (s at t : ProcState) (read : List ℕ) (took : Option ℕ) (indices : List ℕ) → ComesBetween system log e k p → BatchMay system log k p s read took indices → silent_upto system (log ++ e ∷ []) p (s.small).steps ≡ Some at → TakesTo took at t → BatchMay system (log ++ e ∷ []) k p t read took indices }
    // which takes the same signal with the letters as without;
    ensures takes { (took : Option ℕ) (at t : ProcState) (letters : List Letter) → TakesTo took at t → TakesTo took (with_letters at letters) (with_letters t letters) }
    // and the posts that are left are the same.
    ensures posts { (k : ClusterNo) (p : Pid) (s : ProcState) (letters : List Letter) (read : List ℕ) (took : Option ℕ) (indices : List ℕ) → posts_left k p (with_letters s letters) read took indices ≡ posts_left k p s read took indices }
{}
