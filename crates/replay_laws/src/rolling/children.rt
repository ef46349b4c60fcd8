//! The children of a process that rolls forward.
ghost use Rattle.std.specs.Prelude.{◌≡◌, true, false, not, List, [], ◌∷◌, Some};
ghost use Rattle.std.specs.List.{list_any};
ghost use Rattle.t32_base.specs.declared.process.Pid.{Pid};
ghost use Rattle.t32_base.specs.declared.process.Counts.{Counts};
ghost use Rattle.t32_base.specs.declared.letter.BackRec.{BackRec};
ghost use Rattle.sys_text.specs.declared.system.System.{System};
ghost use Rattle.sys_text.specs.Valid.{is_system};
ghost use Rattle.proc_state.specs.State.{ProcState};
ghost use Rattle.sys_calls.specs.Calls.{Forks};
ghost use Rattle.sys_calls.specs.Fork.{fork_child};
ghost use Rattle.sys_calls.specs.Next.{next_step};
ghost use Rattle.bus_msg.specs.declared.entry.Entry.{Entry};
ghost use Rattle.bus_msg.specs.Places.{same_pid};
ghost use Rattle.roll_forward.specs.Deeds.{births_in};
ghost use Rattle.roll_forward.specs.Rolling.{with_saved, CanRoll};
ghost use Rattle.cert_sched.specs.Schedule.{placement};
ghost use Rattle.cert_sched.specs.Deeds.{start_of};
ghost use Rattle.cert_sched.specs.Family.{is_unsynced};
ghost use Rattle.cert_sched.specs.Record.{has_state, backup_record};
ghost use Rattle.cert_sched.specs.Legal.{IsLegalBy, Stands};
ghost use Rattle.cert_sched.specs.Simulation.{IsUnended, bears};
ghost use Rattle.cert_sched.specs.Rolling.{RollsAs};
ghost use Rattle.replay_laws.specs.rolling.Behind.{RollsBehind};
ghost use Rattle.replay_laws.specs.rolling.Parents.{HasParent};

/// A law and no code: a process that has not ended and has no state in its record.
pub fn stateless_processes_are_children()
    // It never synchronised,
    ensures unsynced { (system : System) (log : List Entry) (p : Pid) → is_system system ≡ true → IsLegalBy Stands system log → IsUnended system log p → has_state system log p ≡ false → is_unsynced (placement system log) p ≡ true }
    // and was born in the log.
    ensures born { (system : System) (log : List Entry) (p : Pid) → IsLegalBy Stands system log → IsUnended system log p → has_state system log p ≡ false → HasParent log p }
{}

/// A law and no code: a child without a state in its record, where its parent comes to its fork again.
pub fn children_start_again()
    // It starts as that fork makes it,
    ensures start { (system : System) (log : List Entry) (parent : Pid) (s : ProcState) (counts : Counts) (child : Pid) (births : List Pid) → is_system system ≡ true → IsLegalBy Stands system log → IsUnended system log parent → has_state system log child ≡ false → RollsAs system log parent s counts (child ∷ births) → next_step s ≡ Forks → start_of system log child ≡ Some (fork_child s child) }
    // and has to do again from there all that its record counts;
    ensures rolls { (system : System) (log : List Entry) (parent : Pid) (s : ProcState) (counts : Counts) (child : Pid) (births : List Pid) (kept : BackRec) → is_system system ≡ true → IsLegalBy Stands system log → IsUnended system log parent → has_state system log child ≡ false → RollsAs system log parent s counts (child ∷ births) → next_step s ≡ Forks → IsUnended system log child → backup_record system log child ≡ Some kept → RollsBehind system log child (with_saved (fork_child s child) kept.saved kept.next) kept.counts kept.births }
    // it can.
    ensures can { (system : System) (log : List Entry) (parent : Pid) (s : ProcState) (counts : Counts) (child : Pid) (births : List Pid) (kept : BackRec) → is_system system ≡ true → IsLegalBy Stands system log → IsUnended system log parent → has_state system log child ≡ false → RollsAs system log parent s counts (child ∷ births) → next_step s ≡ Forks → IsUnended system log child → backup_record system log child ≡ Some kept → CanRoll (with_saved (fork_child s child) kept.saved kept.next) kept.counts kept.births }
{}

/// A law and no code: which of its children a process that rolls forward has not forked again yet.
pub fn forks_are_made_again_once()
    // A child that never synchronised is among those that are left exactly where it was not forked again,
    ensures left { (system : System) (log : List Entry) (parent : Pid) (s : ProcState) (counts : Counts) (child : Pid) (births : List Pid) → is_system system ≡ true → IsLegalBy Stands system log → bears log parent child ≡ true → is_unsynced (placement system log) child ≡ true → (rolls : RollsAs system log parent s counts births) → list_any (same_pid child) (births_in rolls.done) ≡ not (list_any (same_pid child) births) }
    // and the child of the next fork is not left after it.
    ensures once { (system : System) (log : List Entry) (parent : Pid) (s : ProcState) (counts : Counts) (child : Pid) (births : List Pid) → is_system system ≡ true → IsLegalBy Stands system log → IsUnended system log parent → RollsAs system log parent s counts (child ∷ births) → list_any (same_pid child) births ≡ false }
{}
