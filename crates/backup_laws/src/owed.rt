//! How many new backups may still come.
ghost use Rattle.std.specs.Prelude.{◌≡◌, ◌≤◌, ◌<◌, true, Bool, List, [], ◌∷◌, ◌++◌, None};
ghost use Rattle.t32_base.specs.declared.process.ClusterNo.{ClusterNo};
ghost use Rattle.t32_base.specs.declared.letter.BackRec.{BackRec};
ghost use Rattle.sys_text.specs.declared.system.System.{System};
ghost use Rattle.sys_text.specs.Valid.{is_system};
ghost use Rattle.bus_msg.specs.declared.entry.What.TheVariants.{Rebackup};
ghost use Rattle.bus_msg.specs.declared.entry.Entry.{Entry};
ghost use Rattle.bus_msg.specs.PlacedAfter.{what};
ghost use Rattle.cert_sched.specs.Told.{cluster_lost};
ghost use Rattle.cert_sched.specs.Legal.{IsLegalBy, Stands};
ghost use Rattle.backup_laws.specs.Owed.{left_of_backups};

/// A law and no code: a new backup leaves fewer to give,
pub fn new_backups_run_out()
    ensures less { (system : System) (log : List Entry) (e : Entry) (to : ClusterNo) (fresh : Bool) (more : List BackRec) → is_system system ≡ true
        → IsLegalBy Stands system (log ++ e ∷ []) → what e ≡ Rebackup to fresh more
        → left_of_backups system (log ++ e ∷ []) < left_of_backups system log }
    // and no other entry but a loss leaves more.
    ensures most { (system : System) (log : List Entry) (e : Entry) → is_system system ≡ true → IsLegalBy Stands system (log ++ e ∷ [])
        → cluster_lost (what e) ≡ None → left_of_backups system (log ++ e ∷ []) ≤ left_of_backups system log }
{}
