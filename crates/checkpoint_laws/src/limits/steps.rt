//! A step of a process that is not due leaves it within its limits.
ghost use Rattle.std.specs.Prelude.{ℕ, ◌≡◌, true, false, []};
ghost use Rattle.t32_base.specs.declared.letter.Letter.{Letter};
ghost use Rattle.sys_text.specs.declared.system.System.{System};
ghost use Rattle.sys_text.specs.Valid.{is_system};
ghost use Rattle.proc_state.specs.declared.process.Process.{Process};
ghost use Rattle.proc_state.specs.State.{state_of};
ghost use Rattle.sys_calls.specs.declared.steps.Emission.{Emission};
ghost use Rattle.sys_calls.specs.Calls.{Emits};
ghost use Rattle.sys_calls.specs.Next.{next_step};
ghost use Rattle.sync_point.specs.Due.{is_due_by};
ghost use Rattle.checkpoint_laws.specs.marks.Received.{with_letter};
ghost use Rattle.checkpoint_laws.specs.marks.Stepped.{StepsSilently};
ghost use Rattle.checkpoint_laws.specs.limits.Within.{is_within_by};

/// A law and no code: a process that is not due by its own counts is within its limits by them, and so it is after one
/// more step.
pub fn steps_stay_within()
    ensures undue { (process : Process) (reads steps : ℕ) → is_due_by process reads steps ≡ false → is_within_by process reads steps ≡ true }
    // The step may be silent,
    ensures silent { (old new : Process) (reads steps : ℕ) → StepsSilently old new → is_due_by old reads steps ≡ false → is_within_by new reads steps ≡ true }
    // or send something.
    ensures sends { (old new : Process) (e : Emission) (reads steps : ℕ) → next_step (state_of old) ≡ Emits e (state_of new) → new ≡ record old { small = new.small } → is_due_by old reads steps ≡ false → is_within_by new reads steps ≡ true }
    // A letter that it receives changes neither;
    ensures letters { (process : Process) (letter : Letter) (reads steps : ℕ) → is_within_by (with_letter process letter) reads steps ≡ is_within_by process reads steps }
    // and a process that has read nothing and made no step since its start is not due.
    ensures start { (system : System) (process : Process) → is_system system ≡ true → process.read ≡ [] → process.since ≡ (process.small).steps → is_due_by process system.syncreads system.syncsteps ≡ false }
{}
