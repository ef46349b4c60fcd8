//! What the log says of a process that was just synchronised, and of the others.
ghost use Rattle.std.specs.Prelude.{ℕ, ◌≡◌, true, false, List, [], ◌∷◌, ◌++◌, Some};
ghost use Rattle.t32_base.specs.declared.process.Pid.{Pid};
ghost use Rattle.t32_base.specs.Account.{committed};
ghost use Rattle.sys_text.specs.declared.system.System.{System};
ghost use Rattle.sys_text.specs.Valid.{is_system};
ghost use Rattle.proc_state.specs.declared.process.Process.{Process};
ghost use Rattle.proc_state.specs.State.{ProcState, state_of};
ghost use Rattle.bus_msg.specs.declared.entry.Entry.{Entry};
ghost use Rattle.bus_msg.specs.Places.{same_pid};
ghost use Rattle.bus_msg.specs.PlacedAfter.{with_each, after_sync};
ghost use Rattle.sync_point.specs.Batch.{cut_of, synced};
ghost use Rattle.cert_sched.specs.Schedule.{placement, process_after};
ghost use Rattle.cert_sched.specs.Deeds.{start_of, since, arrived_count};
ghost use Rattle.cert_sched.specs.Record.{backup_record};
ghost use Rattle.cert_sched.specs.Account.{account_after, all_pages};
ghost use Rattle.cert_sched.specs.Steps.{silent_upto, saved_of};
ghost use Rattle.cert_sched.specs.Rules.{is_over};
ghost use Rattle.checkpoint_laws.specs.posts.Cut.{CutsAt, cut_record};
ghost use Rattle.checkpoint_laws.specs.posts.Marked.{IsMarked};

/// A law and no code: a process that was synchronised starts again from there.
pub fn cuts_start_again()
    // The log goes on, and the process is placed as one that has synchronised.
    ensures goes_on { (system : System) (log : List Entry) (e : Entry) (p : Pid) (s : ProcState) → CutsAt system log e p s → is_over system (log ++ e ∷ []) ≡ false }
    ensures places { (system : System) (log : List Entry) (e : Entry) (p : Pid) (s : ProcState) → CutsAt system log e p s → placement system (log ++ e ∷ []) ≡ with_each (placement system log) (after_sync p) }
    // It is there in the kernel, and starts again from there, without a deed since;
    ensures process { (system : System) (log : List Entry) (e : Entry) (p : Pid) (s : ProcState) → CutsAt system log e p s → process_after system (log ++ e ∷ []) p ≡ Some s }
    ensures start { (system : System) (log : List Entry) (e : Entry) (p : Pid) (s : ProcState) → CutsAt system log e p s → start_of system (log ++ e ∷ []) p ≡ Some s }
    ensures deeds { (system : System) (log : List Entry) (e : Entry) (p : Pid) (s : ProcState) → CutsAt system log e p s → since (log ++ e ∷ []) p ≡ [] }
    // the letters of its mailbox are saved, and its record is that of a process that was just cut, with as many letters that came as before;
    ensures saved { (system : System) (log : List Entry) (e : Entry) (p : Pid) (s : ProcState) → CutsAt system log e p s → saved_of system (log ++ e ∷ []) p ≡ s.mail }
    ensures kept { (system : System) (log : List Entry) (e : Entry) (p : Pid) (s : ProcState) → CutsAt system log e p s → backup_record system (log ++ e ∷ []) p ≡ Some (cut_record p s (arrived_count log p)) }
    // the pages that came are kept.
    ensures account { (system : System) (log : List Entry) (e : Entry) (p : Pid) (s : ProcState) → CutsAt system log e p s → account_after system (log ++ e ∷ []) p ≡ committed (account_after system log p) }
{}

/// A law and no code: what the log says of any other process stays.
pub fn cuts_leave_others()
    ensures process { (system : System) (log : List Entry) (e : Entry) (p : Pid) (s : ProcState) → CutsAt system log e p s → (q : Pid) → same_pid p q ≡ false → process_after system (log ++ e ∷ []) q ≡ process_after system log q }
    ensures silent { (system : System) (log : List Entry) (e : Entry) (p : Pid) (s : ProcState) → CutsAt system log e p s → (q : Pid) → same_pid p q ≡ false → (n : ℕ) → silent_upto system (log ++ e ∷ []) q n ≡ silent_upto system log q n }
    ensures start { (system : System) (log : List Entry) (e : Entry) (p : Pid) (s : ProcState) → CutsAt system log e p s → (q : Pid) → same_pid p q ≡ false → start_of system (log ++ e ∷ []) q ≡ start_of system log q }
    ensures deeds { (system : System) (log : List Entry) (e : Entry) (p : Pid) (s : ProcState) → CutsAt system log e p s → (q : Pid) → same_pid p q ≡ false → since (log ++ e ∷ []) q ≡ since log q }
    ensures saved { (system : System) (log : List Entry) (e : Entry) (p : Pid) (s : ProcState) → CutsAt system log e p s → (q : Pid) → same_pid p q ≡ false → saved_of system (log ++ e ∷ []) q ≡ saved_of system log q }
    ensures kept { (system : System) (log : List Entry) (e : Entry) (p : Pid) (s : ProcState) → CutsAt system log e p s → (q : Pid) → same_pid p q ≡ false → backup_record system (log ++ e ∷ []) q ≡ backup_record system log q }
    ensures account { (system : System) (log : List Entry) (e : Entry) (p : Pid) (s : ProcState) → CutsAt system log e p s → (q : Pid) → same_pid p q ≡ false → account_after system (log ++ e ∷ []) q ≡ account_after system log q }
{}

/// A law and no code: where the pages that came were its memory, a process that was cut as it is after its take, if it
/// can take a signal, has the marks of one that was just synchronised.
pub fn cuts_clear_marks()
    ensures { (system : System) (log : List Entry) (e : Entry) (p : Pid) (process : Process) → is_system system ≡ true → CutsAt system log e p (state_of (cut_of process)) → (account_after system log p).now ≡ all_pages (process.ram).bytes → IsMarked system (log ++ e ∷ []) p (synced process) }
{}
