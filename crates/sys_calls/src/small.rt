//! How the state of a process changes by a step, but for its memory and its mailbox.
ghost use Rattle.std.specs.Prelude.{◌≡◌, ◌↔◌, IsTrue, min, ◌==◌, ◌<◌, ◌≤◌, ◌+◌, OnSome, IfSome, length, slice_index_or, is_some, true, None};
ghost use Rattle.std.specs.Option.{IsSomeAnd};
ghost use Rattle.t32_base.specs.Small.{is_unshut};
ghost use Rattle.sys_calls.specs.Take.{struck};
ghost use Rattle.sys_calls.specs.Small.{spent, stepped, with_frame, with_handler, with_status, with_regs, answered, both_answered, lowest_linked as lowest_linked_of, shut_at, weight};
ghost use Rattle.rv_cpu.specs.Exec.{onward};

use rv_cpu::registers::{advance, write};
use t32_base::letter::To;
use t32_base::process::{End, EndState, Small, Status};

/// Whether the process is live.
pub fn is_live(small: &Small) -> bool
    ensures { IsTrue result ↔ (small.now.status ≡ Status.Live) }
{
    matches!(small.status, Status::Live)
}

/// Whether no instruction is left.
pub fn is_spent_up(small: &Small) -> bool
    ensures { result ≡ (small.now.left == 0) }
{
    small.left == 0
}

/// The instructions that are left.
pub fn instructions_left(small: &Small) -> u32
    ensures { result ≡ small.now.left }
{
    small.left
}

/// The instructions that are left, but at most so many.
pub fn at_most(small: &Small, most: u32) -> u32
    ensures { result ≡ min most small.now.left }
{
    most.min(small.left)
}

/// An instruction is spent, by a step.
pub fn spend(small: &mut Small)
    requires { 0 < small.old.left }
    ensures { small.new ≡ spent small.old }
{
    small.left -= 1;
    small.steps += 1;
}

/// The answer of a call, for which an instruction is spent: it is in a0, and the pc goes on.
pub fn answer(small: &mut Small, value: u32)
    requires { 0 < small.old.left }
    ensures { small.new ≡ answered (spent small.old) value }
{
    spend(small);
    write(&mut small.regs, 10, value);
    advance(&mut small.regs);
}

/// The same with two answers, in a0 and a1.
pub fn answer_both(small: &mut Small, value: u32, other: u32)
    requires { 0 < small.old.left }
    ensures { small.new ≡ both_answered (spent small.old) value other }
{
    spend(small);
    write(&mut small.regs, 10, value);
    write(&mut small.regs, 11, other);
    advance(&mut small.regs);
}

/// Signals are handled at an address, or not at 0: the call's instruction is spent, and 0 answered.
pub fn handle_at(small: &mut Small, addr: u32)
    requires { 0 < small.old.left }
    ensures { small.new ≡ answered (with_handler (spent small.old) addr) 0 }
{
    small.handler = addr;
    answer(small, 0);
}

/// The handler of a signal returns, by a call whose instruction is spent: the registers are those from before it.
pub fn return_from_handler(small: &mut Small)
    requires some { 0 < small.old.left }
    requires saved { is_some small.old.frame ≡ true }
    ensures { IsSomeAnd small.old.frame (λ regs. small.new ≡ with_frame (with_regs (spent small.old) regs) None) }
{
    spend(small);
    if let Some(regs) = small.frame.take() {
        small.regs = regs;
    }
}

/// A signal comes to a live process: it closes, or its handler runs, and the registers from before that are kept.
pub fn strike(small: &mut Small, signal: u8)
    requires { small.old.status ≡ Status.Live }
    ensures struck { small.new ≡ struck (small.old.handler == 0) signal small.old }
    ensures weight { weight small.new ≤ weight small.old }
{
    if small.handler == 0 {
        small.status = Status::Closing(End::Killed(signal));
        return;
    }
    small.frame = Some(small.regs.copy());
    write(&mut small.regs, 10, u32::from(signal));
    small.regs.pc = small.handler;
}

/// A live process closes by an instruction, which is spent.
pub fn close(small: &mut Small, end: End)
    requires some { 0 < small.old.left }
    requires live { small.old.status ≡ Status.Live }
    ensures { small.new ≡ with_status (spent small.old) (Status.Closing end) }
{
    small.left -= 1;
    small.steps += 1;
    small.status = Status::Closing(end);
}

/// The pc goes on.
pub fn go_on(small: &mut Small)
    ensures { small.new ≡ with_regs small.old (onward small.old.regs) }
{
    advance(&mut small.regs);
}

/// A live process with no instruction left closes, by a step.
pub fn run_out(small: &mut Small)
    requires live { small.old.status ≡ Status.Live }
    ensures { small.new ≡ stepped (with_status small.old (Status.Closing End.Limit)) }
{
    small.steps += 1;
    small.status = Status::Closing(End::Limit);
}

/// A closing process has ended, by a step.
pub fn finish(small: &mut Small, end: End)
    requires closing { small.old.status ≡ Status.Closing end }
    ensures { small.new ≡ stepped (with_status small.old (Status.Ended end)) }
{
    small.steps += 1;
    small.status = Status::Ended(end);
}

/// The lowest linked end is shut, by a step; answers its number and where it leads.
pub fn shut_lowest(small: &mut Small) -> Option<(u8, To)>
    ensures found { result ≡ lowest_linked_of small.old.ends }
    ensures shut { small.new ≡ shut_at result small.old }
    ensures shorter { OnSome result (weight small.new + 1 ≤ weight small.old) }
{
    let found = lowest_linked(&small.ends);
    if let Some((end, _)) = found {
        small.steps += 1;
        small.ends[end as usize] = EndState::Shut;
    }
    found
}

/// Whether an end is linked.
pub fn has_linked(small: &Small) -> bool
    ensures { result ≡ is_some (lowest_linked_of small.now.ends) }
{
    lowest_linked(&small.ends).is_some()
}

// The lowest linked end, and where it leads.
fn lowest_linked(ends: &[EndState; 32]) -> Option<(u8, To)>
    ensures found { result ≡ lowest_linked_of ends.now }
    ensures number { IfSome result (λ found. found.0 < 32) }
    ensures within { IfSome result (λ found. found.0 < length ends.now) }
    ensures unshut { IfSome result (λ found. is_unshut (slice_index_or ends.now found.0 EndState.Shut) ≡ true) }
{
    for number in 0..32u8 {
        if let EndState::Linked { peer, far, .. } = ends[usize::from(number)] {
            return Some((number, To::Proc(peer, far)));
        }
    }
    None
}
