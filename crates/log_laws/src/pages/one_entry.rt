//! What one more entry of a log makes of what stands since a loss moved a process, and of the fetches that wait.
ghost use Rattle.std.specs.Prelude.{ℕ, ◌≡◌, Bool, true, false, not, ◌&&◌, ◌||◌, if◌then◌else◌, List, [], ◌∷◌, ◌++◌, filter, None};
ghost use Rattle.t32_base.specs.declared.process.Pid.{Pid};
ghost use Rattle.t32_base.specs.declared.process.ClusterNo.{ClusterNo};
ghost use Rattle.t32_base.specs.declared.process.End.{End};
ghost use Rattle.sys_text.specs.declared.system.System.{System};
ghost use Rattle.bus_msg.specs.declared.entry.What.{What};
ghost use Rattle.bus_msg.specs.declared.entry.What.TheVariants.{Exit, Fetch, PageIs, Crash};
ghost use Rattle.bus_msg.specs.declared.entry.Cause.{Cause};
ghost use Rattle.bus_msg.specs.declared.entry.Entry.{Entry};
ghost use Rattle.bus_msg.specs.Places.{same_pid};
ghost use Rattle.bus_msg.specs.PlacedAfter.{what};
ghost use Rattle.cert_sched.specs.Schedule.{placement};
ghost use Rattle.cert_sched.specs.Told.{cluster_lost, is_moved};
ghost use Rattle.cert_sched.specs.Record.{has_state};
ghost use Rattle.cert_sched.specs.Moved.{any_since_moved, moved_with_state, waiting_fetches, is_fetch};
ghost use Rattle.log_laws.specs.pages.Next.{moves_next, ends_wait_next, leaves_waits};
ghost use Rattle.log_laws.specs.pages.Waited.{is_wait_for, is_waited};

/// A law and no code: what was seen since a crash moved the process, after one more entry.
pub fn since_moves()
    // Only an entry that loses a cluster moves processes.
    ensures none { (system : System) (log : List Entry) (e : Entry) (p : Pid) → cluster_lost (what e) ≡ None → moves_next system log e p ≡ false }
    // A crash that moves it leaves nothing seen; any other entry is seen beside what was.
    ensures any { (system : System) (log : List Entry) (e : Entry) (p : Pid) (test : What → Bool) → any_since_moved system (log ++ e ∷ []) p test ≡ (if moves_next system log e p then false else any_since_moved system log p test || test (what e)) }
    // Such a crash finds a state in the record of the process or none; any other entry leaves what the last one found.
    ensures state { (system : System) (log : List Entry) (e : Entry) (p : Pid) → moved_with_state system (log ++ e ∷ []) p ≡ (if moves_next system log e p then has_state system log p else moved_with_state system log p) }
{}

/// A law and no code: the fetches that wait after one more entry, by its kind.
pub fn waits_follow()
    // A fetch is added last;
    ensures fetch { (system : System) (log : List Entry) (e : Entry) (p : Pid) (i : ℕ) → what e ≡ Fetch p i → waiting_fetches system (log ++ e ∷ []) ≡ waiting_fetches system log ++ (p, i) ∷ [] }
    // a page takes every fetch of it away,
    ensures page_is { (system : System) (log : List Entry) (e : Entry) (p : Pid) (i : ℕ) (bytes : List ℕ) → what e ≡ PageIs p i bytes → waiting_fetches system (log ++ e ∷ []) ≡ filter (λ f. not (is_wait_for p i f)) (waiting_fetches system log) }
    // an exit all of its process,
    ensures exit { (system : System) (log : List Entry) (e : Entry) (p : Pid) (at : ℕ) (end : End) → what e ≡ Exit p at end → waiting_fetches system (log ++ e ∷ []) ≡ filter (λ f. not (same_pid f.0 p)) (waiting_fetches system log) }
    // and a crash all of the processes that it moves;
    ensures crash { (system : System) (log : List Entry) (e : Entry) (k : ClusterNo) (cause : Cause) → what e ≡ Crash k cause → waiting_fetches system (log ++ e ∷ []) ≡ filter (λ f. not (is_moved f.0 (placement system log) k)) (waiting_fetches system log) }
    // any other entry leaves them.
    ensures other { (system : System) (log : List Entry) (e : Entry) → leaves_waits (what e) ≡ true → waiting_fetches system (log ++ e ∷ []) ≡ waiting_fetches system log }
    // So a page is waited for where it was and the entry does not end the wait, or where the entry asks for it.
    ensures waited { (system : System) (log : List Entry) (e : Entry) (p : Pid) (i : ℕ) → is_waited system (log ++ e ∷ []) p i ≡ ((is_waited system log p i && not (ends_wait_next system log e p i)) || is_fetch p i (what e)) }
{}
