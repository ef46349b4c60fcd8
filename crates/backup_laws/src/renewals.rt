//! The posts by which processes get new backups, page by page, and the marks of processes after them.
ghost use Rattle.std.specs.Prelude.{ℕ, ◌≡◌, ◌≤◌, true, false, List, [], ◌∷◌, ◌++◌, map, replicate, Some};
ghost use Rattle.t32_base.specs.declared.process.Pid.{Pid};
ghost use Rattle.t32_base.specs.declared.process.ClusterNo.{ClusterNo};
ghost use Rattle.t32_base.specs.declared.letter.BackRec.{BackRec};
ghost use Rattle.sys_text.specs.declared.system.System.{System};
ghost use Rattle.sys_text.specs.Valid.{is_system};
ghost use Rattle.proc_state.specs.declared.process.Process.{Process};
ghost use Rattle.proc_state.specs.State.{ProcState, state_of};
ghost use Rattle.bus_msg.specs.declared.entry.By.TheVariants.{Cluster};
ghost use Rattle.bus_msg.specs.declared.entry.Entry.{Entry};
ghost use Rattle.bus_msg.specs.NewBackup.{next_backup_at};
ghost use Rattle.bus_msg.specs.PlacedAfter.{what};
ghost use Rattle.bus_msg.specs.Places.{same_pid};
ghost use Rattle.sync_point.specs.Batch.{marked_pages};
ghost use Rattle.cert_sched.specs.Account.{account_after, all_pages};
ghost use Rattle.cert_sched.specs.Appended.{entry_of};
ghost use Rattle.cert_sched.specs.Deeds.{arrived_count, letter_for};
ghost use Rattle.cert_sched.specs.Kinds.{ChildrenSynced};
ghost use Rattle.cert_sched.specs.Legal.{IsLegalBy, Stands};
ghost use Rattle.cert_sched.specs.Rules.{keeps_limits};
ghost use Rattle.cert_sched.specs.Schedule.{placement};
ghost use Rattle.cert_sched.specs.Simulation.{IsUnended};
ghost use Rattle.checkpoint_laws.specs.batches.Between.{ComesBetween};
ghost use Rattle.checkpoint_laws.specs.batches.Underway.{PagesMay, page_left, with_letters};
ghost use Rattle.checkpoint_laws.specs.limits.Within.{AllKeepLimits};
ghost use Rattle.checkpoint_laws.specs.marks.Beside.{LeavesMarks};
ghost use Rattle.checkpoint_laws.specs.marks.Sent.{SentUpto};
ghost use Rattle.checkpoint_laws.specs.posts.Batched.{AllNew, AllStand, log_with};
ghost use Rattle.checkpoint_laws.specs.posts.Marked.{IsMarked};
ghost use Rattle.checkpoint_laws.specs.posts.Running.{RunsMarked};
ghost use Rattle.checkpoint_laws.specs.posts.Sending.{MaySend};
ghost use Rattle.backup_mode.specs.Posts.{fresh_post, standing_post};
ghost use Rattle.backup_mode.specs.Renewal.{renewal};
ghost use Rattle.backup_laws.specs.Posts.{CountsFrom, renewal_left};

/// A law and no code: the marks behind a new backup.
pub fn new_backups_leave_marks()
    // After that of a process that has run, whose pages that came are its memory, the process is marked as the log says, without a mark and with no
    // letter read.
    ensures marked { (system : System) (log : List Entry) (k to : ClusterNo) (p : Pid) (process : Process) (n : ℕ) → is_system system ≡ true
        → MaySend system log (Cluster k) p (state_of process) → (account_after system log p).now ≡ all_pages (process.ram).bytes
        → process.read ≡ [] → process.since ≡ (process.small).steps → (process.ram).dirty ≡ replicate n false
        → IsMarked system (log ++ entry_of system log (fresh_post k to p (state_of process)) ∷ []) p process }
    // It leaves the marks of every other process,
    ensures others { (system : System) (log : List Entry) (k to : ClusterNo) (p q : Pid) (s : ProcState) → same_pid p q ≡ false
        → LeavesMarks system log (entry_of system log (fresh_post k to p s)) q }
    // and that of a family that was moved leaves those of all.
    ensures standing { (system : System) (log : List Entry) (k to : ClusterNo) (recs : List BackRec) (q : Pid)
        → LeavesMarks system log (entry_of system log (standing_post k to recs)) q }
{}

/// A law and no code: where a process runs with its marks, its home may send it and its children have synchronised, the
/// pages that are left of its new backup are those that are marked.
pub fn renewals_begin()
    ensures pages { (system : System) (log : List Entry) (p : Pid) (process : Process) (by : ClusterNo) → RunsMarked system log p process
        → MaySend system log (Cluster by) p (state_of process) → ChildrenSynced system log p
        → PagesMay system log by p (state_of process) (marked_pages process) }
    // The posts are these pages and its record as it is.
    ensures posts { (system : System) (log : List Entry) (p : Pid) (process : Process) (to by : ClusterNo) → RunsMarked system log p process
        → renewal process to by ≡ renewal_left by to p (state_of process) (marked_pages process) }
{}

/// A law and no code: the pages that are left, and the new backup behind them where it is owed, may stand post by post.
pub fn renewals_stand()
    ensures pages { (system : System) (log : List Entry) (k : ClusterNo) (p : Pid) (s : ProcState) (indices : List ℕ)
        → PagesMay system log k p s indices → AllStand system log (map (page_left k p s) indices) }
    ensures stand { (system : System) (log : List Entry) (k to : ClusterNo) (p : Pid) (s : ProcState) (indices : List ℕ) → is_system system ≡ true
        → IsLegalBy Stands system log → PagesMay system log k p s indices → next_backup_at (placement system log) p ≡ Some to
        → AllStand system log (renewal_left k to p s indices) }
    // None is a page that was sent at its step count already,
    ensures new_pages { (system : System) (log : List Entry) (k : ClusterNo) (p : Pid) (s : ProcState) (indices : List ℕ)
        → PagesMay system log k p s indices → AllNew system log (map (page_left k p s) indices) }
    ensures new { (system : System) (log : List Entry) (k to : ClusterNo) (p : Pid) (s : ProcState) (indices : List ℕ)
        → PagesMay system log k p s indices → AllNew system log (renewal_left k to p s indices) }
    // and each keeps the limits, where the process does.
    ensures page_limits { (system : System) (log : List Entry) (k : ClusterNo) (p : Pid) (s : ProcState) (indices : List ℕ)
        → AllKeepLimits system log (map (page_left k p s) indices) }
    ensures limits { (system : System) (log : List Entry) (k to : ClusterNo) (p : Pid) (s : ProcState) (indices : List ℕ)
        → PagesMay system log k p s indices → keeps_limits system log p s ≡ true → AllKeepLimits system log (renewal_left k to p s indices) }
{}

/// A law and no code: the rest of the pages is left once the next was sent,
pub fn renewals_go_on()
    ensures sent { (system : System) (log : List Entry) (k : ClusterNo) (p : Pid) (s : ProcState) (i : ℕ) (indices : List ℕ)
        → PagesMay system log k p s (i ∷ indices) → PagesMay system (log ++ entry_of system log (page_left k p s i) ∷ []) k p s indices }
    // and the same pages after an entry that comes between them, with the letters that it brings the process.
    ensures between { (system : System) (log : List Entry) (e : Entry) (k : ClusterNo) (p : Pid) (s : ProcState) (indices : List ℕ)
        → ComesBetween system log e k p → PagesMay system log k p s indices
        → PagesMay system (log ++ e ∷ []) k p (with_letters s (letter_for p (what e))) indices }
{}

/// A law and no code: the marks of processes behind the posts that are left.
pub fn renewals_leave_marks()
    // With its pages at the end a process without a mark is marked as the log says, where it counts from its start and has read what it has,
    ensures own { (system : System) (log : List Entry) (k : ClusterNo) (p : Pid) (process : Process) (n : ℕ) (indices : List ℕ)
        → is_system system ≡ true → (process.ram).dirty ≡ replicate n false → IsLegalBy Stands system log
        → PagesMay system log k p (state_of process) indices → CountsFrom system log p process
        → IsMarked system (log_with system log (map (page_left k p (state_of process)) indices)) p process }
    // with its new backup behind them as one that was just synchronised,
    ensures renewed { (system : System) (log : List Entry) (k to : ClusterNo) (p : Pid) (process : Process) (n : ℕ) (indices : List ℕ)
        → is_system system ≡ true → process.read ≡ [] → process.since ≡ (process.small).steps → (process.ram).dirty ≡ replicate n false
        → IsLegalBy Stands system log → PagesMay system log k p (state_of process) indices
        → IsMarked system (log_with system log (renewal_left k to p (state_of process) indices)) p process }
    // and what it counts from stays with an entry that leaves its marks.
    ensures counts { (system : System) (log : List Entry) (e : Entry) (p : Pid) (process : Process) → is_system system ≡ true
        → IsLegalBy Stands system log → IsUnended system log p → LeavesMarks system log e p → (process.mail).next ≤ arrived_count log p
        → CountsFrom system log p process → CountsFrom system (log ++ e ∷ []) p process }
    // Every other process is marked as the log says with them at the end, where it is so before them,
    ensures others { (system : System) (log : List Entry) (k to : ClusterNo) (p q : Pid) (s : ProcState) (process : Process) (indices : List ℕ)
        → is_system system ≡ true → same_pid p q ≡ false → IsLegalBy Stands system log → AllStand system log (renewal_left k to p s indices)
        → IsUnended system log q → (process.mail).next ≤ arrived_count log q → IsMarked system log q process
        → IsMarked system (log_with system log (renewal_left k to p s indices)) q process }
    // and the other way round.
    ensures before { (system : System) (log : List Entry) (k to : ClusterNo) (p q : Pid) (s : ProcState) (process : Process) (indices : List ℕ)
        → is_system system ≡ true → same_pid p q ≡ false → IsLegalBy Stands system log → AllStand system log (renewal_left k to p s indices)
        → IsUnended system log q → (process.mail).next ≤ arrived_count log q
        → IsMarked system (log_with system log (renewal_left k to p s indices)) q process → IsMarked system log q process }
{}

/// A law and no code: the posts that are left at the end of the log have no page of a later step than was sent before them.
pub fn renewals_keep_what_was_sent()
    // Of its own process none is later than its step count,
    ensures own { (system : System) (log : List Entry) (k to : ClusterNo) (p : Pid) (s : ProcState) (indices : List ℕ) (n : ℕ) → (s.small).steps ≤ n
        → SentUpto system log p n → SentUpto system (log_with system log (renewal_left k to p s indices)) p n }
    // and of any other there is none;
    ensures others { (system : System) (log : List Entry) (k to : ClusterNo) (p q : Pid) (s : ProcState) (indices : List ℕ) (n : ℕ)
        → same_pid p q ≡ false → SentUpto system log q n → SentUpto system (log_with system log (renewal_left k to p s indices)) q n }
    // so none was later before them, too.
    ensures before { (system : System) (log : List Entry) (k to : ClusterNo) (p q : Pid) (s : ProcState) (indices : List ℕ) (n : ℕ)
        → SentUpto system (log_with system log (renewal_left k to p s indices)) q n → SentUpto system log q n }
{}
