//! Which processes wait for a new backup.
ghost use Rattle.std.specs.Prelude.{◌≡◌, true, false, not, ◌||◌, List, [], ◌∷◌, ◌++◌, Some, is_some};
ghost use Rattle.t32_base.specs.declared.process.Pid.{Pid};
ghost use Rattle.sys_text.specs.declared.system.System.{System};
ghost use Rattle.sys_text.specs.Valid.{is_system};
ghost use Rattle.bus_msg.specs.declared.entry.Entry.{Entry};
ghost use Rattle.bus_msg.specs.declared.placed.Placed.{Placed};
ghost use Rattle.bus_msg.specs.Places.{unended_at};
ghost use Rattle.bus_msg.specs.NewBackup.{next_backup_at};
ghost use Rattle.bus_msg.specs.PlacedAfter.{what};
ghost use Rattle.cert_sched.specs.Schedule.{placement};
ghost use Rattle.cert_sched.specs.Family.{is_unsynced};
ghost use Rattle.cert_sched.specs.Moved.{names};
ghost use Rattle.cert_sched.specs.Rules.{has_awaited_backup, is_alone, is_full};
ghost use Rattle.cert_sched.specs.Legal.{IsLegalBy, Stands};
ghost use Rattle.cert_sched.specs.Simulation.{IsUnended, bears};
ghost use Rattle.log_laws.specs.pages.Next.{moves_next};

/// A law and no code: a child that never synchronised waits for a new backup only where its parent does.
pub fn children_wait_with_their_parent()
    ensures { (system : System) (log : List Entry) (parent child : Pid) → is_system system ≡ true → IsLegalBy Stands system log
        → bears log parent child ≡ true → is_unsynced (placement system log) child ≡ true → has_awaited_backup system log parent ≡ true
        → has_awaited_backup system log child ≡ true }
{}

/// A law and no code: a process that waits for a new backup is owed one: it has none, and another cluster lives.
pub fn waiting_processes_are_owed()
    ensures { (system : System) (log : List Entry) (p : Pid) → is_system system ≡ true → IsLegalBy Stands system log → IsUnended system log p
        → has_awaited_backup system log p ≡ false → is_some (next_backup_at (placement system log) p) ≡ true }
{}

/// A law and no code: what one more entry makes of the wait of a process that has not ended, in any log.
pub fn waits_for_backups_follow()
    // A crash that moves a fullback begins it, unless no other cluster lives then;
    ensures moved { (system : System) (log : List Entry) (e : Entry) (p : Pid) (q : Placed) → moves_next system log e p ≡ true
        → unended_at (placement system (log ++ e ∷ [])) p ≡ Some q
        → has_awaited_backup system (log ++ e ∷ []) p ≡ (not (is_full q.mode) || is_alone p (placement system (log ++ e ∷ []))) }
    // any other entry ends it where it names the process, or no other cluster lives then, and begins none.
    ensures goes_on { (system : System) (log : List Entry) (e : Entry) (p : Pid) (was q : Placed) → moves_next system log e p ≡ false
        → unended_at (placement system log) p ≡ Some was → unended_at (placement system (log ++ e ∷ [])) p ≡ Some q → q.mode ≡ was.mode
        → has_awaited_backup system log p ≡ false
        → has_awaited_backup system (log ++ e ∷ []) p ≡ (names p (what e) || is_alone p (placement system (log ++ e ∷ []))) }
    ensures ended { (system : System) (log : List Entry) (e : Entry) (p : Pid) (was q : Placed) → moves_next system log e p ≡ false
        → unended_at (placement system log) p ≡ Some was → unended_at (placement system (log ++ e ∷ [])) p ≡ Some q → q.mode ≡ was.mode
        → has_awaited_backup system log p ≡ true → has_awaited_backup system (log ++ e ∷ []) p ≡ true }
{}
