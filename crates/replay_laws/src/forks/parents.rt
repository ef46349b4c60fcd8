//! The parents of children that wait for their forks.
ghost use Rattle.std.specs.Prelude.{◌≡◌, Bool, true, false, List, Some};
ghost use Rattle.std.specs.List.{list_any};
ghost use Rattle.t32_base.specs.declared.process.Pid.{Pid};
ghost use Rattle.t32_base.specs.declared.letter.BackRec.{BackRec};
ghost use Rattle.sys_text.specs.declared.system.System.{System};
ghost use Rattle.sys_text.specs.Valid.{is_system};
ghost use Rattle.bus_msg.specs.declared.entry.Entry.{Entry};
ghost use Rattle.bus_msg.specs.Places.{same_pid};
ghost use Rattle.cert_sched.specs.Schedule.{placement};
ghost use Rattle.cert_sched.specs.Family.{is_unsynced};
ghost use Rattle.cert_sched.specs.Legal.{IsLegalBy, Stands};
ghost use Rattle.cert_sched.specs.Record.{backup_record, has_state};
ghost use Rattle.cert_sched.specs.Simulation.{IsUnended, bears};
ghost use Rattle.replay_laws.specs.forks.ForkWaits.{HasStatedOne};

/// A law and no code: a child that never synchronised is among the births in its parent's record. So a parent that begins
/// again from its record has to make its fork again.
pub fn records_have_their_children()
    ensures { (system : System) (log : List Entry) (parent child : Pid) (kept : BackRec) → is_system system ≡ true → IsLegalBy Stands system log → bears log parent child ≡ true → is_unsynced (placement system log) child ≡ true → backup_record system log parent ≡ Some kept → list_any (same_pid child) kept.births ≡ true }
{}

/// A law and no code: of a test that the parent passes wherever a child of it does that never synchronised. Where a process
/// without a state in its record passes it, one with a state does: from child to parent one comes to a process that was
/// synchronised.
pub fn children_wait_below_a_state()
    ensures { (system : System) (log : List Entry) (test : Pid → Bool) (p : Pid) → is_system system ≡ true → IsLegalBy Stands system log → ((parent child : Pid) → bears log parent child ≡ true → is_unsynced (placement system log) child ≡ true → test child ≡ true → test parent ≡ true) → IsUnended system log p → has_state system log p ≡ false → test p ≡ true → HasStatedOne system log test }
{}
