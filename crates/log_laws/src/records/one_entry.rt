//! What one more entry of a log makes of the records.
ghost use Rattle.std.specs.Prelude.{ℕ, ◌≡◌, ◌-◌, ◌^◌, ◌<◌, ◌≤◌, true, false, List, [], ◌∷◌, ◌++◌, length, filter, option_map, Some};
ghost use Rattle.t32_base.specs.declared.process.Pid.{Pid};
ghost use Rattle.t32_base.specs.declared.process.ClusterNo.{ClusterNo};
ghost use Rattle.t32_base.specs.declared.letter.BackRec.{BackRec};
ghost use Rattle.t32_base.specs.declared.letter.Letter.{Letter};
ghost use Rattle.sys_text.specs.declared.system.System.{System};
ghost use Rattle.sys_text.specs.Valid.{is_system};
ghost use Rattle.proc_state.specs.State.{ProcState};
ghost use Rattle.write_count.specs.Counting.{count_for};
ghost use Rattle.bus_msg.specs.declared.entry.What.TheVariants.{Birth, Crash, Mail};
ghost use Rattle.bus_msg.specs.declared.entry.Cause.{Cause};
ghost use Rattle.bus_msg.specs.Places.{same_cluster};
ghost use Rattle.bus_msg.specs.declared.entry.Entry.{Entry};
ghost use Rattle.bus_msg.specs.PlacedAfter.{what};
ghost use Rattle.cert_sched.specs.Schedule.{placement, process_after};
ghost use Rattle.crash_notice.specs.Splitting.{stays};
ghost use Rattle.cert_sched.specs.Steps.{steps_since};
ghost use Rattle.cert_sched.specs.Legal.{IsLegal, IsLegalBy, MayStand, Stands};
ghost use Rattle.cert_sched.specs.Record.{backup_record};
ghost use Rattle.cert_sched.specs.Simulation.{IsUnended};
ghost use Rattle.backup_records.specs.Records.{CanNote, record_after, record_in, record_of_child, records_after};
ghost use Rattle.log_laws.specs.records.Kept.{KeepsRecords, changes_in_place, is_renewed};

/// A law and no code: in a legal log each entry stands, and so it does in one by all rules but that of new backups.
pub fn legal_logs_stand()
    ensures legal { (system : System) (log : List Entry) → IsLegal system log → IsLegalBy Stands system log }
    ensures standing { (system : System) (log : List Entry) → IsLegalBy MayStand system log → IsLegalBy Stands system log }
{}

/// A law and no code: an entry that is no new backup for a process after it has run makes of its record, where it has
/// not ended, what `record_after` makes of it.
pub fn records_follow()
    ensures { (system : System) (log : List Entry) (e : Entry) (p : Pid) → is_system system ≡ true → IsLegalBy Stands system (log ++ e ∷ []) → is_renewed p (what e) ≡ false → IsUnended system log p → backup_record system (log ++ e ∷ []) p ≡ option_map (record_after (what e)) (backup_record system log p) }
{}

/// A law and no code: where the records of a cluster are those of the log, what an entry makes of them are those
/// of the log with it, if it is no loss.
pub fn records_are_kept()
    ensures { (system : System) (log : List Entry) (e : Entry) (k : ClusterNo) (recs : List BackRec) → is_system system ≡ true → IsLegalBy Stands system (log ++ e ∷ []) → changes_in_place (what e) ≡ true → KeepsRecords system log k recs → KeepsRecords system (log ++ e ∷ []) k (records_after k (what e) recs) }
{}

/// A law and no code: a child that was born has a record without a state, in which nothing was saved and counted.
pub fn children_begin()
    ensures { (system : System) (log : List Entry) (e : Entry) (parent : Pid) (at : ℕ) (child : Pid) (end : ℕ) → is_system system ≡ true → IsLegalBy Stands system (log ++ e ∷ []) → what e ≡ Birth parent at child end → backup_record system (log ++ e ∷ []) child ≡ Some (record_of_child child) }
{}

/// A law and no code: where the records of a cluster are those of the log, those that stay at the loss of another
/// are those of the log with the loss.
pub fn losses_keep_records()
    ensures { (system : System) (log : List Entry) (e : Entry) (lost here : ClusterNo) (cause : Cause) (recs : List BackRec) → is_system system ≡ true → IsLegalBy Stands system (log ++ e ∷ []) → what e ≡ Crash lost cause → same_cluster lost here ≡ false → KeepsRecords system log here recs → KeepsRecords system (log ++ e ∷ []) here (filter (stays (placement system log) lost here) recs) }
{}

/// A law and no code: when the next entry may be noted.
pub fn entries_can_be_noted()
    // No more letters have arrived than the log has entries.
    ensures room { (system : System) (log : List Entry) (p : Pid) (kept : BackRec) → backup_record system log p ≡ Some kept → kept.next ≤ length log }
    // Of the letters that a process sent since it started, its record has counted fewer than the steps that it has made with the next one.
    ensures counts { (system : System) (log : List Entry) (e : Entry) (at : ℕ) (letter : Letter) (kept : BackRec) (now : ProcState) → is_system system ≡ true → IsLegalBy Stands system (log ++ e ∷ []) → what e ≡ Mail at letter → IsUnended system log letter.from → backup_record system log letter.from ≡ Some kept → process_after system (log ++ e ∷ []) letter.from ≡ Some now → count_for kept.counts letter < steps_since system (log ++ e ∷ []) letter.from now }
    // So each entry of a legal log may be noted.
    ensures legal { (system : System) (log : List Entry) (e : Entry) (k : ClusterNo) (recs : List BackRec) → is_system system ≡ true → IsLegalBy MayStand system (log ++ e ∷ []) → length log < 2 ^ 64 - 1 → KeepsRecords system log k recs → CanNote (what e) recs }
{}
