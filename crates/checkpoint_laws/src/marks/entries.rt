//! Most entries leave the marks of a process.
ghost use Rattle.std.specs.Prelude.{◌≡◌, ◌≤◌, true, List, [], ◌∷◌, ◌++◌};
ghost use Rattle.t32_base.specs.declared.process.Pid.{Pid};
ghost use Rattle.sys_text.specs.declared.system.System.{System};
ghost use Rattle.sys_text.specs.Valid.{is_system};
ghost use Rattle.proc_state.specs.declared.process.Process.{Process};
ghost use Rattle.bus_msg.specs.declared.entry.Entry.{Entry};
ghost use Rattle.cert_sched.specs.Deeds.{arrived_count};
ghost use Rattle.cert_sched.specs.Legal.{IsLegalBy, Stands};
ghost use Rattle.cert_sched.specs.Simulation.{IsUnended};
ghost use Rattle.checkpoint_laws.specs.posts.Marked.{IsMarked};
ghost use Rattle.checkpoint_laws.specs.marks.Beside.{LeavesMarks};

/// A law and no code: an entry that is no cut, birth, exit or page of a process, and does not move it, leaves its marks,
/// also where it brings it a letter that the process has not received.
pub fn marks_stay()
    // What was marked as the log said is still so,
    ensures kept { (system : System) (log : List Entry) (e : Entry) (p : Pid) (process : Process) → is_system system ≡ true → IsLegalBy Stands system log → IsUnended system log p → LeavesMarks system log e p → (process.mail).next ≤ arrived_count log p → IsMarked system log p process → IsMarked system (log ++ e ∷ []) p process }
    // and was so before.
    ensures before { (system : System) (log : List Entry) (e : Entry) (p : Pid) (process : Process) → is_system system ≡ true → IsLegalBy Stands system log → IsUnended system log p → LeavesMarks system log e p → (process.mail).next ≤ arrived_count log p → IsMarked system (log ++ e ∷ []) p process → IsMarked system log p process }
{}
