//! The next step of a process.
ghost use Rattle.proc_state.specs.State.{ProcState};
ghost use Rattle.sys_calls.specs.Next.{next_step};
ghost use Rattle.state_numbers.specs.Fits.{NextFits, StateFits};

/// A law and no code: where the numbers of a process fit, they do after its next step, and so do those of what that sends.
pub fn next_steps_fit()
    ensures { (s : ProcState) → StateFits s → NextFits (next_step s) }
{}
