//! Clusters that return.
ghost use Rattle.std.specs.Prelude.{◌≡◌, true, false, List, [], ◌∷◌, ◌++◌, Some};
ghost use Rattle.t32_base.specs.declared.process.Pid.{Pid};
ghost use Rattle.t32_base.specs.declared.process.ClusterNo.{ClusterNo};
ghost use Rattle.sys_text.specs.declared.system.System.{System};
ghost use Rattle.sys_text.specs.Valid.{is_system};
ghost use Rattle.bus_msg.specs.declared.entry.What.TheVariants.{Return};
ghost use Rattle.bus_msg.specs.declared.entry.Entry.{Entry};
ghost use Rattle.bus_msg.specs.declared.placed.Placed.{Placed};
ghost use Rattle.bus_msg.specs.Places.{lives_in, same_cluster, unended_at};
ghost use Rattle.bus_msg.specs.PlacedAfter.{what};
ghost use Rattle.cert_sched.specs.Schedule.{placement};
ghost use Rattle.cert_sched.specs.Legal.{IsLegalBy, Stands};
ghost use Rattle.log_laws.specs.records.Kept.{KeepsRecords};

/// A law and no code: a cluster that returns is empty.
pub fn clusters_return_empty()
    // In any legal log the backup of a process that has not ended lives.
    ensures backups { (system : System) (log : List Entry) (p : Pid) (q : Placed) (b : ClusterNo) → is_system system ≡ true → IsLegalBy Stands system log
        → unended_at (placement system log) p ≡ Some q → q.backup ≡ Some b → lives_in (placement system log) b ≡ true }
    // So at its return no process is at home in the cluster,
    ensures home { (system : System) (log : List Entry) (e : Entry) (k : ClusterNo) → is_system system ≡ true → IsLegalBy Stands system (log ++ e ∷ [])
        → what e ≡ Return k → (p : Pid) (q : Placed) → unended_at (placement system (log ++ e ∷ [])) p ≡ Some q
        → same_cluster q.home k ≡ false }
    // and its records are none.
    ensures records { (system : System) (log : List Entry) (e : Entry) (k : ClusterNo) → is_system system ≡ true → IsLegalBy Stands system (log ++ e ∷ [])
        → what e ≡ Return k → KeepsRecords system (log ++ e ∷ []) k [] }
{}
