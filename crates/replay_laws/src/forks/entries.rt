//! What one more entry of a log makes of a child that waits for its parent's fork.
ghost use Rattle.std.specs.Prelude.{ℕ, ◌≡◌, true, false, List, [], ◌∷◌, ◌++◌, Some, None};
ghost use Rattle.t32_base.specs.declared.process.Pid.{Pid};
ghost use Rattle.t32_base.specs.declared.letter.BackRec.{BackRec};
ghost use Rattle.sys_text.specs.declared.system.System.{System};
ghost use Rattle.sys_text.specs.Valid.{is_system};
ghost use Rattle.bus_msg.specs.declared.entry.Entry.{Entry};
ghost use Rattle.bus_msg.specs.PlacedAfter.{what};
ghost use Rattle.cert_sched.specs.Deeds.{is_cut};
ghost use Rattle.cert_sched.specs.Legal.{IsLegalBy, Stands};
ghost use Rattle.cert_sched.specs.Moved.{is_fetch, is_page_is};
ghost use Rattle.cert_sched.specs.Record.{backup_record, has_state};
ghost use Rattle.cert_sched.specs.Simulation.{IsUnended};
ghost use Rattle.backup_records.specs.Records.{record_after};
ghost use Rattle.log_laws.specs.pages.Next.{moves_next};
ghost use Rattle.checkpoint_laws.specs.marks.Beside.{is_some_page};
ghost use Rattle.page_waits.specs.Waiting.{next_page, rolling_of, WaitingState};
ghost use Rattle.replay_laws.specs.pages.Waits.{first_wait};
ghost use Rattle.replay_laws.specs.forks.ForkWaits.{WaitsForFork};

/// A law and no code: a process that a crash moves without a state waits for its parent's fork from then on.
pub fn child_waits_begin()
    ensures begins { (system : System) (log : List Entry) (e : Entry) (p : Pid) (kept : BackRec) → is_system system ≡ true → IsLegalBy Stands system (log ++ e ∷ []) → IsUnended system log p → has_state system log p ≡ false → moves_next system log e p ≡ true → backup_record system log p ≡ Some kept → WaitsForFork system (log ++ e ∷ []) p (first_wait kept) }
    // It lacks no page, and there is no memory that it could go on from.
    ensures page { (system : System) (log : List Entry) (p : Pid) (w : WaitingState) → WaitsForFork system log p w → next_page w ≡ None }
    ensures memory { (system : System) (log : List Entry) (p : Pid) (w : WaitingState) → WaitsForFork system log p w → rolling_of w ≡ None }
{}

/// A law and no code: after an entry that does not cut it and is no page of it, it waits on, and its record follows the entry: a letter that arrives is saved there.
pub fn child_waits_follow()
    ensures { (system : System) (log : List Entry) (e : Entry) (p : Pid) (w : WaitingState) → is_system system ≡ true → IsLegalBy Stands system (log ++ e ∷ []) → IsUnended system log p → is_cut p (what e) ≡ false → is_some_page p (what e) ≡ false → WaitsForFork system log p w → WaitsForFork system (log ++ e ∷ []) p (record w { kept = record_after (what e) w.kept }) }
{}

/// A law and no code: of a process without a state in its record no page is asked for, and none comes.
pub fn stateless_processes_ask_for_no_page()
    ensures asks { (system : System) (log : List Entry) (e : Entry) (p : Pid) (i : ℕ) → IsLegalBy Stands system (log ++ e ∷ []) → has_state system log p ≡ false → is_fetch p i (what e) ≡ false }
    ensures comes { (system : System) (log : List Entry) (e : Entry) (p : Pid) (i : ℕ) → IsLegalBy Stands system (log ++ e ∷ []) → has_state system log p ≡ false → is_page_is p i (what e) ≡ false }
{}
