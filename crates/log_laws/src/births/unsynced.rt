//! How the births of children that never synchronised change with the log.
ghost use Rattle.std.specs.Prelude.{ℕ, ◌≡◌, true, false, not, List, [], ◌∷◌, ◌++◌, filter, Option};
ghost use Rattle.std.specs.List.{list_any};
ghost use Rattle.t32_base.specs.declared.process.Pid.{Pid};
ghost use Rattle.t32_base.specs.declared.process.End.{End};
ghost use Rattle.t32_base.specs.declared.process.ClusterNo.{ClusterNo};
ghost use Rattle.t32_base.specs.declared.letter.BackRec.{BackRec};
ghost use Rattle.t32_base.specs.Small.{SmallState};
ghost use Rattle.sys_text.specs.declared.system.System.{System};
ghost use Rattle.sys_text.specs.Valid.{is_system};
ghost use Rattle.bus_msg.specs.declared.entry.What.TheVariants.{Birth, Exit, Sync, Return, Rebackup};
ghost use Rattle.bus_msg.specs.declared.entry.Entry.{Entry};
ghost use Rattle.bus_msg.specs.Places.{same_pid};
ghost use Rattle.bus_msg.specs.PlacedAfter.{what};
ghost use Rattle.birth_notice.specs.Family.{stands_in, are_births, is_of};
ghost use Rattle.cert_sched.specs.Family.{has_unsynced_child};
ghost use Rattle.cert_sched.specs.Legal.{IsLegalBy, Stands};
ghost use Rattle.log_laws.specs.births.Unsynced.{unsynced_births, changes_unsynced};

/// A law and no code: at boot there is none.
pub fn none_at_boot()
    ensures { (system : System) → unsynced_births system [] ≡ [] }
{}

/// A law and no code: a birth that stands next is such a birth, behind those that were there, and meets what
/// `Family::born` asks.
pub fn births_come_last()
    ensures last { (system : System) (log : List Entry) (e : Entry) (parent : Pid) (at : ℕ) (child : Pid) (end : ℕ) → is_system system ≡ true
        → IsLegalBy Stands system log → Stands system log e → what e ≡ Birth parent at child end
        → unsynced_births system (log ++ e ∷ []) ≡ unsynced_births system log ++ (parent, child) ∷ [] }
    // The child stands in none of them yet,
    ensures new { (system : System) (log : List Entry) (e : Entry) (parent : Pid) (at : ℕ) (child : Pid) (end : ℕ) → is_system system ≡ true
        → IsLegalBy Stands system log → Stands system log e → what e ≡ Birth parent at child end
        → list_any (stands_in child) (unsynced_births system log) ≡ false }
    // and is not its parent.
    ensures other { (system : System) (log : List Entry) (e : Entry) (parent : Pid) (at : ℕ) (child : Pid) (end : ℕ) → is_system system ≡ true
        → IsLegalBy Stands system log → Stands system log e → what e ≡ Birth parent at child end → same_pid child parent ≡ false }
{}

/// A law and no code: in any log, the birth of a child goes with its synchronisation and with its exit, as
/// `Family::gone` takes it out; the other births stay.
pub fn synced_and_ended_go()
    ensures synced { (system : System) (log : List Entry) (e : Entry) (pid : Pid) (small : SmallState) (read : List ℕ) (took : Option ℕ)
        → what e ≡ Sync pid small read took
        → unsynced_births system (log ++ e ∷ []) ≡ filter (λ b. not (same_pid b.1 pid)) (unsynced_births system log) }
    ensures ended { (system : System) (log : List Entry) (e : Entry) (pid : Pid) (at : ℕ) (end : End) → what e ≡ Exit pid at end
        → unsynced_births system (log ++ e ∷ []) ≡ filter (λ b. not (same_pid b.1 pid)) (unsynced_births system log) }
{}

/// A law and no code: in any log, every other entry leaves them as they are.
pub fn others_leave_births()
    ensures { (system : System) (log : List Entry) (e : Entry) → changes_unsynced (what e) ≡ false
        → unsynced_births system (log ++ e ∷ []) ≡ unsynced_births system log }
{}

/// A law and no code: in any log, of new backups and returns.
pub fn births_follow_new_backups()
    // The birth of a process that has run goes with its new backup, as with its synchronisation;
    ensures fresh { (system : System) (log : List Entry) (e : Entry) (to : ClusterNo) (r : BackRec) → what e ≡ Rebackup to true (r ∷ [])
        → unsynced_births system (log ++ e ∷ []) ≡ filter (λ b. not (same_pid b.1 r.pid)) (unsynced_births system log) }
    // the new backup of a family that was moved leaves them as they are,
    ensures standing { (system : System) (log : List Entry) (e : Entry) (to : ClusterNo) (recs : List BackRec) → what e ≡ Rebackup to false recs
        → unsynced_births system (log ++ e ∷ []) ≡ unsynced_births system log }
    // and so does a return.
    ensures back { (system : System) (log : List Entry) (e : Entry) (k : ClusterNo) → what e ≡ Return k
        → unsynced_births system (log ++ e ∷ []) ≡ unsynced_births system log }
{}

/// A law and no code: these births may stand in a `Family`, which then answers what the rule of children asks.
pub fn families_answer()
    // A process has a child that never synchronised where it is the parent in one of them.
    ensures asked { (system : System) (log : List Entry) (p : Pid) → has_unsynced_child system log p ≡ list_any (is_of p) (unsynced_births system log) }
    // Each child is new where it is born, which a `Family` always keeps.
    ensures births { (system : System) (log : List Entry) → is_system system ≡ true → IsLegalBy Stands system log
        → are_births (unsynced_births system log) ≡ true }
{}
