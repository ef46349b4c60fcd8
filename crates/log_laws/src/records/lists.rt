//! Which list of records a cluster has: the one at boot, and that there is but one for a log.
ghost use Rattle.std.specs.Prelude.{◌≡◌, true, List, []};
ghost use Rattle.t32_base.specs.declared.process.ClusterNo.{ClusterNo};
ghost use Rattle.t32_base.specs.declared.letter.BackRec.{BackRec};
ghost use Rattle.sys_text.specs.declared.system.System.{System};
ghost use Rattle.sys_text.specs.Valid.{is_system};
ghost use Rattle.bus_msg.specs.declared.entry.Entry.{Entry};
ghost use Rattle.backup_records.specs.Records.{are_rising};
ghost use Rattle.log_laws.specs.records.Kept.{KeepsRecords, records_at_boot};

/// A law and no code: before the first entry the records of a cluster are those of the processes whose backup it has,
/// as these are at boot.
pub fn records_begin()
    ensures kept { (system : System) (k : ClusterNo) → is_system system ≡ true → KeepsRecords system [] k (records_at_boot system k) }
    // They stand by rising pid.
    ensures rising { (system : System) (k : ClusterNo) → are_rising (records_at_boot system k) ≡ true }
{}

/// A law and no code: a log has one list of the records of a cluster by rising pid.
pub fn records_are_determined()
    ensures { (system : System) (log : List Entry) (k : ClusterNo) (recs others : List BackRec) → are_rising recs ≡ true → are_rising others ≡ true → KeepsRecords system log k recs → KeepsRecords system log k others → recs ≡ others }
{}
