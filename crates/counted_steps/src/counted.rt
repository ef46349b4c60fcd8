//! So many silent steps of a process, and what comes after them.
ghost use Rattle.std.specs.Prelude.{◌≡◌, ◌<◌, ◌≤◌, IfOk};
ghost use Rattle.sys_calls.specs.Steps.{is_silent};
ghost use Rattle.counted_steps.specs.Counted.{ComesToFork, GoesOn, MakesSilently, Sends, sent_in};

use proc_state::process::Process;
use std::alloc::Global;
use sys_calls::stepping::{forks_next, run_instructions, step};
use sys_calls::steps::{Emission, Step};
use t32_base::streams::NoMemory;

/// Makes so many silent steps. False exactly where the process cannot make so many: it has then made some of them, as it
/// may have after want of memory.
pub fn make_silent_steps(alloc: Global, p: &mut Process, steps: u64) -> Result<bool, NoMemory>
    ensures { IfOk result (λ made. MakesSilently steps p.old made p.new) }
{
    let mut left = steps;
    'steps: while left > 0 {
        match go_on(alloc, p, left)? {
            Some(rest) => left = rest,
            None => return Ok(false),
        }
    }
    Ok(true)
}

// Makes some of so many silent steps, and answers how many are left: as many instructions as come, and then a step.
fn go_on(alloc: Global, p: &mut Process, left: u64) -> Result<Option<u64>, NoMemory>
    requires { 0 < left }
    ensures { IfOk result (λ rest. GoesOn left p.old rest p.new) }
{
    let done = u64::from(run_instructions(p, capped(left)));
    if done == left {
        return Ok(Some(0));
    }
    let made = step(alloc, p)?;
    if is_silent(&made) {
        Ok(Some(left - done - 1))
    } else {
        Ok(None)
    }
}

// Whether a step was made that sent nothing.
pub(crate) fn is_silent(made: &Step) -> bool
    ensures { result ≡ is_silent made.now }
{
    matches!(made, Step::Silent)
}

// What a step sent, if it sent something.
fn sent(made: Step) -> Option<Emission>
    ensures { result ≡ sent_in made }
{
    match made {
        Step::Emit(sent) => Some(sent),
        _ => None,
    }
}

// At most so many, in 32 bits.
fn capped(steps: u64) -> u32
    ensures { result ≤ steps }
{
    steps.min(u64::from(u32::MAX)) as u32
}

/// What the last of so many steps sends, where all before it are silent. None exactly where there are no such steps: the
/// process has then made some of them, as it may have after want of memory.
pub fn send_by(alloc: Global, p: &mut Process, steps: u64) -> Result<Option<Emission>, NoMemory>
    ensures { IfOk result (λ sent. Sends steps p.old sent p.new) }
{
    if steps == 0 || !make_silent_steps(alloc, p, steps - 1)? {
        return Ok(None);
    }
    let made = step(alloc, p)?;
    Ok(sent(made))
}

/// Makes so many silent steps, and says whether the process forks next. False exactly where it does not, or cannot make so
/// many: it has then made some of them, as it may have after want of memory.
pub fn come_to_fork(alloc: Global, p: &mut Process, steps: u64) -> Result<bool, NoMemory>
    ensures { IfOk result (λ forks. ComesToFork steps p.old forks p.new) }
{
    Ok(make_silent_steps(alloc, p, steps)? && forks_next(p))
}
