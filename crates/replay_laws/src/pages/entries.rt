//! What one more entry of a log makes of a process that waits for its pages.
ghost use Rattle.std.specs.Prelude.{ℕ, ◌≡◌, ◌≤◌, ◌<◌, ◌||◌, Bool, true, false, List, [], ◌∷◌, ◌++◌, length, Some};
ghost use Rattle.t32_base.specs.declared.process.Pid.{Pid};
ghost use Rattle.t32_base.specs.declared.letter.BackRec.{BackRec};
ghost use Rattle.sys_text.specs.declared.system.System.{System};
ghost use Rattle.sys_text.specs.Valid.{is_system};
ghost use Rattle.bus_msg.specs.declared.entry.What.TheVariants.{PageIs};
ghost use Rattle.bus_msg.specs.declared.entry.Entry.{Entry};
ghost use Rattle.bus_msg.specs.PlacedAfter.{what};
ghost use Rattle.cert_sched.specs.Deeds.{deeds_in, is_cut};
ghost use Rattle.cert_sched.specs.Legal.{IsLegalBy, Stands};
ghost use Rattle.cert_sched.specs.Moved.{is_fetch, is_page_is};
ghost use Rattle.cert_sched.specs.Record.{backup_record, has_state};
ghost use Rattle.cert_sched.specs.Simulation.{IsUnended};
ghost use Rattle.backup_records.specs.Records.{record_after};
ghost use Rattle.log_laws.specs.pages.Next.{moves_next};
ghost use Rattle.page_waits.specs.Waiting.{page_count as pages_of, with_page, WaitingState};
ghost use Rattle.replay_laws.specs.pages.Waits.{first_wait, none_queued, WaitsAs};

/// A law and no code: a process that a crash moves with a state waits for all its pages from then on.
pub fn waits_begin()
    // Its record has 1 to 256 pages,
    ensures some { (system : System) (log : List Entry) (p : Pid) (kept : BackRec) → is_system system ≡ true → IsLegalBy Stands system log → IsUnended system log p → has_state system log p ≡ true → backup_record system log p ≡ Some kept → 1 ≤ pages_of kept }
    ensures at_most { (system : System) (log : List Entry) (p : Pid) (kept : BackRec) → is_system system ≡ true → IsLegalBy Stands system log → IsUnended system log p → has_state system log p ≡ true → backup_record system log p ≡ Some kept → pages_of kept ≤ 256 }
    // and none of them was asked for.
    ensures begins { (system : System) (log : List Entry) (e : Entry) (p : Pid) (kept : BackRec) → is_system system ≡ true → IsLegalBy Stands system (log ++ e ∷ []) → IsUnended system log p → has_state system log p ≡ true → moves_next system log e p ≡ true → backup_record system log p ≡ Some kept → WaitsAs system (log ++ e ∷ []) p none_queued (first_wait kept) }
{}

/// A law and no code: what an entry that tells of no deed of the process, and is no cut of it and no crash that moves it, makes of its wait.
pub fn waits_follow()
    // Where it is no page of the process, the record follows it, and a fetch that was queued may stand in the log now.
    ensures other { (system : System) (log : List Entry) (e : Entry) (p : Pid) (queued : ℕ → Bool) (w : WaitingState) → is_system system ≡ true → IsLegalBy Stands system (log ++ e ∷ []) → IsUnended system log p → moves_next system log e p ≡ false → is_cut p (what e) ≡ false → deeds_in p (what e) ≡ [] → ((i : ℕ) → is_page_is p i (what e) ≡ false) → WaitsAs system log p (λ i. is_fetch p i (what e) || queued i) w → WaitsAs system (log ++ e ∷ []) p queued (record w { kept = record_after (what e) w.kept }) }
    // A page of it comes; it is one of its pages.
    ensures within { (system : System) (log : List Entry) (e : Entry) (p : Pid) (i : ℕ) (bytes : List ℕ) (queued : ℕ → Bool) (w : WaitingState) → is_system system ≡ true → IsLegalBy Stands system (log ++ e ∷ []) → what e ≡ PageIs p i bytes → WaitsAs system log p queued w → i < length w.come }
    ensures page { (system : System) (log : List Entry) (e : Entry) (p : Pid) (i : ℕ) (bytes : List ℕ) (queued : ℕ → Bool) (w : WaitingState) → is_system system ≡ true → IsLegalBy Stands system (log ++ e ∷ []) → IsUnended system log p → what e ≡ PageIs p i bytes → WaitsAs system log p queued w → WaitsAs system (log ++ e ∷ []) p queued (with_page i bytes w) }
{}
