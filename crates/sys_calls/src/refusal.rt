//! Calls that a check refuses.
ghost use Rattle.std.specs.Prelude.{◌≡◌, ◌<◌, ◌-◌, ◌^◌, Ok};
ghost use Rattle.proc_state.specs.State.{state_of, with_small};
ghost use Rattle.sys_calls.specs.Small.{spent};
ghost use Rattle.sys_calls.specs.Calls.{refused};
ghost use Rattle.sys_calls.specs.Steps.{Makes, SameCount, Shorter, Touches};

use crate::small::answer;
use crate::steps::Step;
use proc_state::process::Process;

/// The number of the error: the end is not open, or it is not one for this call.
pub const BAD_END: u32 = 9;

/// The number of the error: no birth is left.
pub const NO_BIRTH: u32 = 11;

/// The number of the error: a byte lies outside the memory.
pub const BAD_ADDRESS: u32 = 14;

/// The number of the error: an argument, or the number of the call.
pub const BAD_ARGUMENT: u32 = 22;

/// The number of the error: no end is left that was never linked.
pub const NO_END: u32 = 24;

/// A check refuses the call: minus the error's number is the answer.
pub fn refuse(p: &mut Process, error: u32) -> Step
    requires some { 0 < p.old.small.left }
    requires error { 0 < error }
    ensures makes { Makes (refused (with_small (state_of p.old) (spent p.old.small)) error) (Ok result) (state_of p.old) (state_of p.new) }
    ensures marks { p.new.ram.dirty ≡ p.old.ram.dirty }
    ensures count { SameCount p.old p.new }
    ensures shorter { Shorter (Ok result) p.old.small p.new.small }
    ensures touches { Touches (Ok result) p.old p.new }
{
    answer(&mut p.small, refusal(error));
    Step::Silent
}

/// What a refused call answers: minus the error's number.
pub fn refusal(error: u32) -> u32
    requires { 0 < error }
    ensures { result ≡ 2 ^ 32 - error }
{
    u32::MAX - (error - 1)
}
