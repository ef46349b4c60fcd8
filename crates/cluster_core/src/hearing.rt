//! What entries that do not go to a cluster are to it.
ghost use Rattle.std.specs.Prelude.{◌≡◌, [], ◌∷◌, ◌++◌, List, false, true, Option, Some, option_map};
ghost use Rattle.sys_text.specs.Valid.{is_system};
ghost use Rattle.bus_msg.specs.declared.entry.Entry.{Entry};
ghost use Rattle.cert_sched.specs.Legal.{MayStand};
ghost use Rattle.cert_sched.specs.Losses.{is_by_cluster, is_crash_of};
ghost use Rattle.cluster_core.specs.Absorbing.{goes_to};
ghost use Rattle.cluster_core.specs.Follows.{IsOpen};
ghost use Rattle.t32_base.specs.declared.process.ClusterNo.{ClusterNo as AClusterNo};
ghost use Rattle.t32_base.specs.declared.letter.BackRec.{BackRec};
ghost use Rattle.sys_text.specs.declared.system.System.{System};
ghost use Rattle.bus_msg.specs.declared.entry.What.{What};
ghost use Rattle.bus_msg.specs.Places.{Places};
ghost use Rattle.bus_msg.specs.PlacedAfter.{placed_after, what};
ghost use Rattle.cert_sched.specs.Appended.{entry_of};
ghost use Rattle.t32_base.specs.declared.process.Pid.{Pid as APid};
ghost use Rattle.birth_notice.specs.Family.{first_unsynced};
ghost use Rattle.log_laws.specs.births.Unsynced.{unsynced_births};
ghost use Rattle.cert_sched.specs.Schedule.{placement};
ghost use Rattle.page_server.specs.Account.{PagerState};
ghost use Rattle.backup_records.specs.Records.{are_rising, records_after};
ghost use Rattle.cluster_core.specs.Queue.{is_rebackup};
ghost use Rattle.cluster_core.specs.Hearing.{FollowsHeard, KnowsPlaces, after_sent_heard, with_heard};
ghost use Rattle.cluster_core.specs.Recovered.{left_by, moved_by};
ghost use Rattle.cluster_core.specs.Serving.{Serves};
ghost use Rattle.cluster_core.specs.View.{ClusterView, head_of, held_at, with_server};
ghost use Rattle.residents.specs.Held.{Held};

/// A law and no code: a cluster that follows a log follows it with an entry more that neither goes to it nor comes from it,
/// and does nothing for that.
pub fn unheard_entries_are_passed_over()
    ensures { (c : ClusterView) (log : List Entry) (e : Entry) → is_system c.system ≡ true → IsOpen MayStand c.system log
        → IsOpen MayStand c.system (log ++ e ∷ []) → goes_to e.dests c.number ≡ false → is_by_cluster c.number e ≡ false
        → FollowsHeard c.system log c → FollowsHeard c.system (log ++ e ∷ []) c }
{}

/// A law and no code: what a cluster knows of the placement it goes on to know, whichever entry but a new backup comes to it, and a loss moves
/// the same records here by what it knows.
pub fn placements_stay_known()
    ensures known { (system : System) (k : AClusterNo) (known places : Places) (w : What) → is_rebackup w ≡ false → KnowsPlaces system k known places
        → KnowsPlaces system k (placed_after known w) (placed_after places w) }
    ensures moved { (system : System) (k : AClusterNo) (known places : Places) (w : What) (recs : List BackRec) → KnowsPlaces system k known places
        → moved_by known k w recs ≡ moved_by places k w recs }
    ensures left { (system : System) (k : AClusterNo) (known places : Places) (w : What) (recs : List BackRec) → KnowsPlaces system k known places
        → left_by known k w recs ≡ left_by places k w recs }
{}

/// A law and no code: a cluster that follows a log takes in the next entry that goes to it, where that is another's, not its own loss and no
/// new backup, and follows the log with it.
pub fn heard_entries_are_followed()
    ensures { (c : ClusterView) (log : List Entry) (e : Entry) (server : Option PagerState) → is_system c.system ≡ true
        → IsOpen MayStand c.system log → IsOpen MayStand c.system (log ++ e ∷ []) → goes_to e.dests c.number ≡ true
        → is_by_cluster c.number e ≡ false → is_crash_of c.number (what e) ≡ false
        → are_rising (moved_by c.places c.number (what e) (records_after c.number (what e) c.records)) ≡ true
        → Serves (placement c.system log) e c.server server → is_rebackup (what e) ≡ false → FollowsHeard c.system log c
        → FollowsHeard c.system (log ++ e ∷ []) (with_server server (with_heard c e)) }
{}

/// A law and no code: which child is to synchronise before a process that is here is told by the births that a cluster keeps as by all
/// those of the log.
pub fn own_children_come_first()
    ensures { (c : ClusterView) (log : List Entry) (p : APid) (h : Held) → is_system c.system ≡ true → IsOpen MayStand c.system log
        → FollowsHeard c.system log c → held_at c p ≡ Some h → first_unsynced c.family p ≡ first_unsynced (unsynced_births c.system log) p }
{}

/// A law and no code: a cluster whose head was sent, which does not go to it, follows the log with that entry at once.
pub fn own_unheard_entries_are_followed()
    ensures { (c : ClusterView) (log : List Entry) (e : Entry) → is_system c.system ≡ true → IsOpen MayStand c.system log
        → IsOpen MayStand c.system (log ++ e ∷ []) → goes_to e.dests c.number ≡ false → FollowsHeard c.system log c → c.tried ≡ true
        → option_map (entry_of c.system log) (head_of c.queue) ≡ Some e → FollowsHeard c.system (log ++ e ∷ []) (after_sent_heard c c.queue) }
{}
