//! A page of a process may stand next in the log, and what it changes.
ghost use Rattle.std.specs.Prelude.{ℕ, ◌≡◌, ◌<◌, false, List, [], ◌∷◌, ◌++◌};
ghost use Rattle.t32_base.specs.declared.process.Pid.{Pid};
ghost use Rattle.t32_base.specs.Account.{with_page};
ghost use Rattle.sys_text.specs.declared.system.System.{System};
ghost use Rattle.rv_mem.specs.Memory.{page_at};
ghost use Rattle.proc_state.specs.State.{ProcState};
ghost use Rattle.bus_msg.specs.declared.entry.What.TheVariants.{Page};
ghost use Rattle.bus_msg.specs.declared.entry.By.{By};
ghost use Rattle.bus_msg.specs.declared.entry.Entry.{Entry};
ghost use Rattle.bus_msg.specs.Places.{same_pid};
ghost use Rattle.bus_msg.specs.PlacedAfter.{what};
ghost use Rattle.cert_sched.specs.Appended.{entry_of};
ghost use Rattle.cert_sched.specs.Schedule.{placement, process_after};
ghost use Rattle.cert_sched.specs.Deeds.{start_of, since};
ghost use Rattle.cert_sched.specs.Record.{backup_record};
ghost use Rattle.cert_sched.specs.Account.{account_after};
ghost use Rattle.cert_sched.specs.Family.{has_unsynced_child};
ghost use Rattle.cert_sched.specs.Steps.{silent_upto, saved_of, page_count};
ghost use Rattle.cert_sched.specs.Rules.{is_over};
ghost use Rattle.cert_sched.specs.Legal.{Stands};
ghost use Rattle.checkpoint_laws.specs.posts.Sending.{MaySend};

/// A law and no code: each page of a process, as it is at its step count, may stand next.
pub fn page_posts_stand()
    ensures { (system : System) (log : List Entry) (by : By) (p : Pid) (s : ProcState) (i : ℕ) → MaySend system log by p s → i < page_count system log p → Stands system log (entry_of system log (record { by = by; what = Page p (s.small).steps i (page_at s.memory i) })) }
{}

/// A law and no code: a page changes the account of its process alone.
pub fn pages_change_accounts_alone()
    // The log goes on, and each process is placed where it was and as it was in the kernel;
    ensures goes_on { (system : System) (log : List Entry) (e : Entry) (p : Pid) (at i : ℕ) (bytes : List ℕ) → what e ≡ Page p at i bytes → is_over system (log ++ e ∷ []) ≡ false }
    ensures places { (system : System) (log : List Entry) (e : Entry) (p : Pid) (at i : ℕ) (bytes : List ℕ) → what e ≡ Page p at i bytes → placement system (log ++ e ∷ []) ≡ placement system log }
    ensures process { (system : System) (log : List Entry) (e : Entry) (p : Pid) (at i : ℕ) (bytes : List ℕ) → what e ≡ Page p at i bytes → (q : Pid) → process_after system (log ++ e ∷ []) q ≡ process_after system log q }
    ensures silent { (system : System) (log : List Entry) (e : Entry) (p : Pid) (at i : ℕ) (bytes : List ℕ) → what e ≡ Page p at i bytes → (q : Pid) (n : ℕ) → silent_upto system (log ++ e ∷ []) q n ≡ silent_upto system log q n }
    // it starts again from where it did, with the same deeds, letters and record, and no child is born or cut;
    ensures start { (system : System) (log : List Entry) (e : Entry) (p : Pid) (at i : ℕ) (bytes : List ℕ) → what e ≡ Page p at i bytes → (q : Pid) → start_of system (log ++ e ∷ []) q ≡ start_of system log q }
    ensures deeds { (system : System) (log : List Entry) (e : Entry) (p : Pid) (at i : ℕ) (bytes : List ℕ) → what e ≡ Page p at i bytes → (q : Pid) → since (log ++ e ∷ []) q ≡ since log q }
    ensures saved { (system : System) (log : List Entry) (e : Entry) (p : Pid) (at i : ℕ) (bytes : List ℕ) → what e ≡ Page p at i bytes → (q : Pid) → saved_of system (log ++ e ∷ []) q ≡ saved_of system log q }
    ensures kept { (system : System) (log : List Entry) (e : Entry) (p : Pid) (at i : ℕ) (bytes : List ℕ) → what e ≡ Page p at i bytes → (q : Pid) → backup_record system (log ++ e ∷ []) q ≡ backup_record system log q }
    ensures children { (system : System) (log : List Entry) (e : Entry) (p : Pid) (at i : ℕ) (bytes : List ℕ) → what e ≡ Page p at i bytes → (q : Pid) → has_unsynced_child system (log ++ e ∷ []) q ≡ has_unsynced_child system log q }
    // the account of the process has the page now, and its kept pages stay; any other account stays.
    ensures account { (system : System) (log : List Entry) (e : Entry) (p : Pid) (at i : ℕ) (bytes : List ℕ) → what e ≡ Page p at i bytes → account_after system (log ++ e ∷ []) p ≡ with_page i bytes (account_after system log p) }
    ensures others { (system : System) (log : List Entry) (e : Entry) (p : Pid) (at i : ℕ) (bytes : List ℕ) → what e ≡ Page p at i bytes → (q : Pid) → same_pid p q ≡ false → account_after system (log ++ e ∷ []) q ≡ account_after system log q }
{}
