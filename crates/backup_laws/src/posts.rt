//! The posts by which processes get new backups.
ghost use Rattle.std.specs.Prelude.{◌≡◌, true, false, List, [], ◌∷◌, ◌++◌, Some};
ghost use Rattle.t32_base.specs.declared.process.Pid.{Pid};
ghost use Rattle.t32_base.specs.declared.process.ClusterNo.{ClusterNo};
ghost use Rattle.t32_base.specs.declared.letter.BackRec.{BackRec};
ghost use Rattle.sys_text.specs.declared.system.System.{System};
ghost use Rattle.sys_text.specs.Valid.{is_system};
ghost use Rattle.proc_state.specs.State.{ProcState};
ghost use Rattle.bus_msg.specs.declared.entry.By.TheVariants.{Cluster};
ghost use Rattle.bus_msg.specs.declared.entry.Entry.{Entry};
ghost use Rattle.cert_sched.specs.Appended.{entry_of};
ghost use Rattle.cert_sched.specs.Kinds.{is_done_by};
ghost use Rattle.cert_sched.specs.Moved.{any_since_moved};
ghost use Rattle.cert_sched.specs.Record.{backup_record};
ghost use Rattle.cert_sched.specs.Rules.{has_awaited_backup, has_its_pages, keeps_limits};
ghost use Rattle.cert_sched.specs.Legal.{IsLegal, IsLegalBy, MayFollow, Stands};
ghost use Rattle.cert_sched.specs.Simulation.{IsUnended};
ghost use Rattle.checkpoint_laws.specs.posts.Sending.{MaySend};
ghost use Rattle.backup_mode.specs.Posts.{fresh_post, renewed_record, standing_post};
ghost use Rattle.backup_laws.specs.Posts.{MayHandOn, MayRenew};

/// A law and no code: the new backup of a process that has run, with its record as the process is.
pub fn fresh_backups_follow()
    // That record is the one of the log with this entry,
    ensures kept { (system : System) (log : List Entry) (k to : ClusterNo) (p : Pid) (s : ProcState) → is_system system ≡ true
        → IsLegalBy Stands system log → MaySend system log (Cluster k) p s
        → backup_record system (log ++ entry_of system log (fresh_post k to p s) ∷ []) p ≡ Some (renewed_record p s) }
    // so where the process is owed the backup it may stand next,
    ensures stands { (system : System) (log : List Entry) (k to : ClusterNo) (p : Pid) (s : ProcState) → is_system system ≡ true
        → IsLegalBy Stands system log → MaySend system log (Cluster k) p s → MayRenew system log p s to
        → Stands system log (entry_of system log (fresh_post k to p s)) }
    // and within the limits and with all its pages it may follow.
    ensures follows { (system : System) (log : List Entry) (k to : ClusterNo) (p : Pid) (s : ProcState) → is_system system ≡ true
        → IsLegalBy Stands system log → MaySend system log (Cluster k) p s → MayRenew system log p s to → keeps_limits system log p s ≡ true
        → has_its_pages system log p ≡ true → MayFollow system log (entry_of system log (fresh_post k to p s)) }
{}

/// A law and no code: the new backup of a family that was moved, with its records of the log.
pub fn standing_backups_follow()
    // In a legal log a process that waits for its new backup has done nothing since it was moved,
    ensures quiet { (system : System) (log : List Entry) (p : Pid) → is_system system ≡ true → IsLegal system log → IsUnended system log p
        → has_awaited_backup system log p ≡ false → any_since_moved system log p (is_done_by p) ≡ false }
    // so its home may hand on the records.
    ensures follows { (system : System) (log : List Entry) (k to : ClusterNo) (first : BackRec) (rest : List BackRec) → is_system system ≡ true
        → IsLegal system log → MayHandOn system log k to first rest
        → MayFollow system log (entry_of system log (standing_post k to (first ∷ rest))) }
{}
