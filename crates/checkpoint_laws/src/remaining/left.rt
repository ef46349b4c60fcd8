//! What clusters may still send falls.
ghost use Rattle.std.specs.Prelude.{◌≡◌, ◌<◌, ◌≤◌, true, Bool, List, [], ◌∷◌, ◌++◌};
ghost use Rattle.t32_base.specs.declared.process.ClusterNo.{ClusterNo};
ghost use Rattle.t32_base.specs.declared.letter.BackRec.{BackRec};
ghost use Rattle.sys_text.specs.declared.system.System.{System};
ghost use Rattle.sys_text.specs.Valid.{is_system};
ghost use Rattle.bus_msg.specs.declared.entry.What.TheVariants.{Return, Rebackup};
ghost use Rattle.bus_msg.specs.declared.entry.Entry.{Entry};
ghost use Rattle.bus_msg.specs.PlacedAfter.{what};
ghost use Rattle.cert_sched.specs.Rules.{tells_or_closes};
ghost use Rattle.cert_sched.specs.Rules.{is_new_page};
ghost use Rattle.cert_sched.specs.Legal.{IsLegalBy, Stands};
ghost use Rattle.checkpoint_laws.specs.remaining.Left.{is_from_cluster, left_of_syncs, left_to_send, most_syncs};

/// A law and no code: what is left to send falls.
pub fn less_to_send()
    // Each entry that a cluster sends, a birth too, leaves less to send, where no page is sent twice at one step count;
    ensures falls { (system : System) (log : List Entry) (e : Entry) → is_system system ≡ true → IsLegalBy Stands system log → Stands system log e
        → is_new_page system log (what e) ≡ true → is_from_cluster (what e) ≡ true
        → left_to_send system (log ++ e ∷ []) < left_to_send system log }
    // the end and a stop, as letters and exits, leave no more;
    ensures closes { (system : System) (log : List Entry) (e : Entry) → is_system system ≡ true → IsLegalBy Stands system log → Stands system log e
        → tells_or_closes (what e) ≡ true → left_to_send system (log ++ e ∷ []) ≤ left_to_send system log }
    // a new backup of either form leaves no more, and a return leaves no more.
    ensures renews { (system : System) (log : List Entry) (e : Entry) (to : ClusterNo) (fresh : Bool) (recs : List BackRec) → is_system system ≡ true
        → IsLegalBy Stands system log → Stands system log e → what e ≡ Rebackup to fresh recs
        → left_to_send system (log ++ e ∷ []) ≤ left_to_send system log }
    ensures returns { (system : System) (log : List Entry) (e : Entry) (k : ClusterNo) → is_system system ≡ true → IsLegalBy Stands system log
        → Stands system log e → what e ≡ Return k → left_to_send system (log ++ e ∷ []) ≤ left_to_send system log }
{}

/// A law and no code: the part of synchronisations, their pages and births has a bound, whatever was lost.
pub fn syncs_are_bounded()
    ensures { (system : System) (log : List Entry) → is_system system ≡ true → IsLegalBy Stands system log
        → left_of_syncs system log ≤ most_syncs system }
{}
