//! Where the silent steps of a process end.
ghost use Rattle.std.specs.Prelude.{◌≡◌, IfOk};
ghost use Rattle.proc_state.specs.State.{state_of};
ghost use Rattle.counted_steps.specs.Resting.{Continues, Settles, rests_after};

use crate::counted::is_silent;
use proc_state::process::Process;
use std::alloc::Global;
use sys_calls::signals::can_take;
use sys_calls::stepping::{run_instructions, step};
use sys_calls::steps::Step;
use t32_base::streams::NoMemory;

/// Whether silent steps lead a process to where it rests, with neither a step nor a signal that it can take: it then stands
/// there. False exactly where they lead to no such place. It has then made some of them, as it may have after want of memory.
pub fn settle(alloc: Global, p: &mut Process) -> Result<bool, NoMemory>
    ensures { IfOk result (λ resting. Settles p.old resting p.new) }
{
    'steps: loop {
        match go_on(alloc, p)? {
            Some(resting) => return Ok(resting),
            None => {}
        }
    }
}

// Makes as many instructions as come, and then a step; or says whether the process rests.
fn go_on(alloc: Global, p: &mut Process) -> Result<Option<bool>, NoMemory>
    ensures { IfOk result (λ resting. Continues p.old resting p.new) }
{
    run_instructions(p, u32::MAX);
    let made = step(alloc, p)?;
    if is_silent(&made) {
        return Ok(None);
    }
    Ok(Some(rests_after(&made, p)))
}

// Whether a process rests after this step: it has none, and can take no signal.
fn rests_after(made: &Step, p: &Process) -> bool
    ensures { result ≡ rests_after made.now (state_of p.now) }
{
    matches!(made, Step::Blocked | Step::Over) && !can_take(p)
}
