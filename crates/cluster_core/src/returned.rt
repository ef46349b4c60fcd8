//! Clusters that have come back follow the log.
ghost use Rattle.std.specs.Prelude.{ℕ, ◌≡◌, true, List, [], ◌∷◌, ◌++◌, length};
ghost use Rattle.t32_base.specs.declared.process.ClusterNo.{ClusterNo};
ghost use Rattle.sys_text.specs.declared.system.System.{System};
ghost use Rattle.sys_text.specs.Valid.{is_system};
ghost use Rattle.bus_msg.specs.declared.entry.What.TheVariants.{Return};
ghost use Rattle.bus_msg.specs.declared.entry.Entry.{Entry};
ghost use Rattle.bus_msg.specs.PlacedAfter.{what};
ghost use Rattle.cert_sched.specs.Legal.{IsLegalBy, Stands};
ghost use Rattle.cert_sched.specs.Schedule.{placement};
ghost use Rattle.log_laws.specs.births.Unsynced.{unsynced_births};
ghost use Rattle.cluster_core.specs.Follows.{Follows};
ghost use Rattle.cluster_core.specs.Returned.{returned};

/// A law and no code: a cluster that has come back follows the log up to its return, with the placement and the children that
/// never synchronised as they are then.
pub fn returned_clusters_follow()
    ensures { (system : System) (log : List Entry) (e : Entry) (k : ClusterNo) (steps : ℕ) → is_system system ≡ true
        → IsLegalBy Stands system (log ++ e ∷ []) → what e ≡ Return k
        → Follows system (log ++ e ∷ []) (returned system k (placement system (log ++ e ∷ [])) (unsynced_births system (log ++ e ∷ [])) (length (log ++ e ∷ [])) steps) }
{}
