//! The records of a cluster at a new backup.
ghost use Rattle.std.specs.Prelude.{◌≡◌, true, List, [], ◌∷◌, ◌++◌, Bool};
ghost use Rattle.std.specs.List.{list_any};
ghost use Rattle.t32_base.specs.declared.process.Pid.{Pid};
ghost use Rattle.t32_base.specs.declared.process.ClusterNo.{ClusterNo};
ghost use Rattle.t32_base.specs.declared.letter.BackRec.{BackRec};
ghost use Rattle.sys_text.specs.declared.system.System.{System};
ghost use Rattle.sys_text.specs.Valid.{is_system};
ghost use Rattle.bus_msg.specs.declared.entry.What.TheVariants.{Rebackup};
ghost use Rattle.bus_msg.specs.declared.entry.Entry.{Entry};
ghost use Rattle.bus_msg.specs.Places.{same_pid};
ghost use Rattle.bus_msg.specs.PlacedAfter.{what};
ghost use Rattle.cert_sched.specs.Schedule.{placement};
ghost use Rattle.cert_sched.specs.Legal.{IsLegalBy, Stands};
ghost use Rattle.backup_records.specs.Records.{records_renewed};
ghost use Rattle.log_laws.specs.records.Kept.{KeepsRecords, Unbacked};

/// A law and no code: a new backup of either form, beside the records of a cluster.
pub fn new_backups_keep_records()
    // Each process that it names has not ended, and had no backup;
    ensures named { (system : System) (log : List Entry) (e : Entry) (to : ClusterNo) (fresh : Bool) (more : List BackRec) (p : Pid)
        → is_system system ≡ true → IsLegalBy Stands system (log ++ e ∷ []) → what e ≡ Rebackup to fresh more
        → list_any (λ r. same_pid r.pid p) more ≡ true → Unbacked (placement system log) p }
    // so where the records of a cluster are those of the log, those that it brings there are, with them, those of the log with it.
    ensures kept { (system : System) (log : List Entry) (e : Entry) (k to : ClusterNo) (fresh : Bool) (more recs : List BackRec)
        → is_system system ≡ true → IsLegalBy Stands system (log ++ e ∷ []) → what e ≡ Rebackup to fresh more
        → KeepsRecords system log k recs → KeepsRecords system (log ++ e ∷ []) k (records_renewed to k more recs) }
{}
