//! The marks of a process at its start.
ghost use Rattle.std.specs.Prelude.{ℕ, ◌≡◌, true, false, List, [], replicate, Some};
ghost use Rattle.t32_base.specs.declared.process.Pid.{Pid};
ghost use Rattle.sys_text.specs.declared.system.System.{System};
ghost use Rattle.sys_text.specs.Valid.{is_system};
ghost use Rattle.proc_state.specs.declared.process.Process.{Process};
ghost use Rattle.proc_state.specs.State.{state_of};
ghost use Rattle.cert_sched.specs.Schedule.{process_after};
ghost use Rattle.checkpoint_laws.specs.posts.Marked.{IsMarked};

/// A law and no code: a root at its start, which counts from there, has read no letter and has no page marked, has the
/// marks that the empty log says.
pub fn marks_begin()
    ensures { (system : System) (p : Pid) (process : Process) (n : ℕ) → is_system system ≡ true → process_after system [] p ≡ Some (state_of process) → process.read ≡ [] → process.since ≡ (process.small).steps → (process.ram).dirty ≡ replicate n false → IsMarked system [] p process }
{}
