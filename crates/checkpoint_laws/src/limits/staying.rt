//! A process that is within its limits stays so when an entry of others comes.
ghost use Rattle.std.specs.Prelude.{ℕ, ◌≡◌, true, false, List, [], ◌∷◌, ◌++◌, Some};
ghost use Rattle.t32_base.specs.declared.process.Pid.{Pid};
ghost use Rattle.sys_text.specs.declared.system.System.{System};
ghost use Rattle.sys_text.specs.Valid.{is_system};
ghost use Rattle.proc_state.specs.State.{ProcState};
ghost use Rattle.sys_calls.specs.declared.steps.Emission.{Emission};
ghost use Rattle.sys_calls.proofs.RunLemma.{all_delivered};
ghost use Rattle.bus_msg.specs.declared.entry.Entry.{Entry};
ghost use Rattle.bus_msg.specs.PlacedAfter.{what};
ghost use Rattle.cert_sched.specs.Deeds.{arrived_count, letter_for, starts};
ghost use Rattle.cert_sched.specs.Steps.{emission_at};
ghost use Rattle.cert_sched.specs.Rules.{keeps_limits};
ghost use Rattle.cert_sched.specs.Legal.{IsLegalBy, Stands};
ghost use Rattle.cert_sched.specs.Simulation.{IsUnended};
ghost use Rattle.checkpoint_laws.specs.marks.Beside.{LeavesMarks};

/// A law and no code: where an entry does not start a process again, a state of it that keeps the limits keeps them after
/// the entry, with the letters that the entry brings it.
pub fn entries_keep_limits()
    ensures stays { (system : System) (log : List Entry) (e : Entry) (p : Pid) (s : ProcState) → is_system system ≡ true → IsLegalBy Stands system log → IsUnended system log p → starts p e ≡ false → s.next ≡ arrived_count log p → keeps_limits system log p s ≡ true → keeps_limits system (log ++ e ∷ []) p (all_delivered s (letter_for p (what e))) ≡ true }
    // So it is with an entry that leaves the marks of the process,
    ensures leaves { (system : System) (log : List Entry) (e : Entry) (p : Pid) (s : ProcState) → is_system system ≡ true → IsLegalBy Stands system log → IsUnended system log p → LeavesMarks system log e p → s.next ≡ arrived_count log p → keeps_limits system log p s ≡ true → keeps_limits system (log ++ e ∷ []) p (all_delivered s (letter_for p (what e))) ≡ true }
    // and with a process that has sent what is not in the log yet.
    ensures sent { (system : System) (log : List Entry) (e : Entry) (p : Pid) (at : ℕ) (m : Emission) (t : ProcState) → is_system system ≡ true → IsLegalBy Stands system log → IsUnended system log p → starts p e ≡ false → emission_at system log p at ≡ Some (m, t) → keeps_limits system log p t ≡ true → keeps_limits system (log ++ e ∷ []) p (all_delivered t (letter_for p (what e))) ≡ true }
{}
