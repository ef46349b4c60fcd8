//! The next step of a process.
ghost use Rattle.std.specs.Prelude.{◌≡◌, ◌<◌, ◌≤◌, ◌+◌, ◌==◌, Ok, Some, IfOk, false, true};
ghost use Rattle.rv_cpu.specs.Run.{machine_of, ran, Stops};
ghost use Rattle.rv_cpu.specs.Exec.{bytes_after, did_of, exec, exec_marks, is_call, regs_after};
ghost use Rattle.proc_state.specs.State.{can_take, state_of};
ghost use Rattle.sys_calls.specs.declared.steps.Emission.TheVariants.{Exit};
ghost use Rattle.sys_calls.specs.Calls.{Emits};
ghost use Rattle.sys_calls.specs.Next.{closing_step, has_step, is_blocked, is_exit, is_fork, letter_live, letter_taken, live_step, marks_live, next_step, silently_marked, step_marks};
ghost use Rattle.sys_calls.specs.Small.{after_instructions, lowest_linked, weight, with_regs};
ghost use Rattle.sys_calls.specs.Passing.{IsAtCall, Passes, PassesCall};
ghost use Rattle.sys_calls.specs.Steps.{is_silent, marked, was_silent, Makes, Marks, RunsOn, SameCount, Shorter, Took, Touches, taken_by};

use crate::calls::{call, would_fork};
use crate::reading::{make_read, reading_next, waits};
use crate::signals::can_take;
use crate::small::{
    at_most, close, finish, has_linked, instructions_left, is_live, is_spent_up, run_out,
    shut_lowest, spend,
};
use crate::steps::{Emission, Step};
use proc_state::process::Process;
use rv_cpu::{Did, calls_next, exec, run};
use rv_mem::Ram;
use std::alloc::Global;
use t32_base::letter::{Body, Letter};
use t32_base::process::{End, Small, Status};
use t32_base::streams::NoMemory;

/// The next step of a process: it executes an instruction with its system call, closes, sends an end
/// letter or its exit. `Blocked`, `Forks` and `Over` say that no step was made, and change nothing; so
/// does want of memory.
pub fn step(alloc: Global, p: &mut Process) -> Result<Step, NoMemory>
    ensures makes { Makes (next_step (state_of p.old)) result (state_of p.old) (state_of p.new) }
    ensures marks { Marks result (step_marks (state_of p.old) p.old.ram.dirty) p.old.ram.dirty p.new.ram.dirty }
    ensures count { Took (taken_by result (letter_taken (state_of p.old))) p.old p.new }
    ensures shorter { Shorter result p.old.small p.new.small }
    ensures touches { Touches result p.old p.new }
{
    match p.small.status {
        Status::Ended(_) => Ok(Step::Over),
        Status::Closing(end) => Ok(closing(p, end)),
        Status::Live => live(alloc, p),
    }
}

/// Makes at most `most` steps, each an instruction that is no system call and no trap, and answers how
/// many: the fast way through such steps. Takes no memory.
pub fn run_instructions(p: &mut Process, most: u32) -> u32
    ensures made { result ≤ most }
    ensures silent { silently_marked result (marked p.old) ≡ Some (marked p.new) }
    ensures shorter { (weight p.new.small + result ≡ weight p.old.small) × (p.new.small.steps ≡ p.old.small.steps + result) }
    ensures mail { p.new.mail ≡ p.old.mail }
    ensures count { SameCount p.old p.new }
{
    run_to_call(p, most).0
}

/// The same, and whether the process then stands at a system call for which it has an instruction left.
pub fn run_to_call(p: &mut Process, most: u32) -> (u32, bool)
    ensures made { result.0 ≤ most }
    ensures silent { silently_marked result.0 (marked p.old) ≡ Some (marked p.new) }
    ensures shorter { (weight p.new.small + result.0 ≡ weight p.old.small) × (p.new.small.steps ≡ p.old.small.steps + result.0) }
    ensures mail { p.new.mail ≡ p.old.mail }
    ensures count { SameCount p.old p.new }
    ensures calls { result.1 ≡ true → IsAtCall p.new }
{
    if !is_live(&p.small) {
        return (0, false);
    }
    let most = at_most(&p.small, most);
    let (made, did) = instructions(&mut p.small, &mut p.ram, most);
    (made, is_call(did))
}

// Whether an instruction is a system call.
fn is_call(did: Did) -> bool
    ensures { result ≡ true → did ≡ Did.Call }
{
    matches!(did, Did::Call)
}

/// The step of a process that stands at a system call, as `step` makes it, but that it is not looked for anew.
pub fn step_at_call(alloc: Global, p: &mut Process) -> Result<Step, NoMemory>
    requires { IsAtCall p.old }
    ensures makes { Makes (next_step (state_of p.old)) result (state_of p.old) (state_of p.new) }
    ensures marks { Marks result (step_marks (state_of p.old) p.old.ram.dirty) p.old.ram.dirty p.new.ram.dirty }
    ensures count { Took (taken_by result (letter_taken (state_of p.old))) p.old p.new }
    ensures shorter { Shorter result p.old.small p.new.small }
    ensures touches { Touches result p.old p.new }
{
    stopped(alloc, p, Did::Call)
}

// At most so many instructions of a live process; and what the one did that was tried last.
fn instructions(small: &mut Small, ram: &mut Ram, most: u32) -> (u32, Did)
    requires left { most ≤ small.old.left }
    ensures made { result.0 ≤ most }
    ensures small { small.new ≡ after_instructions result.0 small.old small.new.regs }
    ensures ran { ran result.0 (machine_of small.old.regs ram.old) ≡ Some (machine_of small.new.regs ram.new) }
    ensures stops { result.0 < most → Stops (exec small.new.regs ram.new.bytes) result.1 }
    ensures all { most ≤ result.0 → result.1 ≡ Did.Stepped }
    ensures lighter { weight small.new + result.0 ≡ weight small.old }
{
    let (made, did) = run(&mut small.regs, ram, most);
    small.left -= made;
    small.steps += u64::from(made);
    (made, did)
}

/// Runs a process up to a step that is not silent, and makes that as `step` does: it sends something, or it is not
/// made. It runs on past no step after which it can take a signal, and answers `Silent` after such a one alone. After
/// want of memory nothing is said of the process.
pub fn run_on(alloc: Global, p: &mut Process) -> Result<Step, NoMemory>
    ensures runs { IfOk result (λ step. RunsOn step p.old p.new) }
    ensures silent { IfOk result (λ step. is_silent step ≡ true → can_take (state_of p.new) ≡ true) }
{
    'steps: loop {
        match pass(p)? {
            Passed::Silently => {
                if can_take(p) {
                    return Ok(Step::Silent);
                }
            }
            Passed::Waiting => return Ok(Step::Blocked),
            Passed::Calling => {
                let made = call(alloc, p);
                if !was_silent(&made) || can_take(p) {
                    return made;
                }
            }
            Passed::Leaving => {
                let made = step(alloc, p);
                if !was_silent(&made) || can_take(p) {
                    return made;
                }
            }
        }
    }
}

// Whether a step was made that sent nothing.
fn was_silent(made: &Result<Step, NoMemory>) -> bool
    ensures { result ≡ was_silent made.now }
{
    matches!(made, Ok(Step::Silent))
}

// What a process came to by instructions, and then by a read where it stood at one. It is told apart from a step, which
// is a large value.
#[derive(Clone, Copy)]
enum Passed {
    // It has read.
    Silently,
    // It waits for a letter.
    Waiting,
    // It stands at a system call that is no read.
    Calling,
    // Its next step is any.
    Leaving,
}

// Makes as many instructions as a process has up to a system call or a trap, and then a read.
#[inline(always)]
fn pass(p: &mut Process) -> Result<Passed, NoMemory>
    ensures { IfOk result (λ passed. Passes passed p.old p.new) }
{
    if !is_live(&p.small) {
        return Ok(Passed::Leaving);
    }
    let most = instructions_left(&p.small);
    let (_, did) = instructions(&mut p.small, &mut p.ram, most);
    match did {
        Did::Call => pass_call(p),
        Did::Stepped | Did::Trap(_) => Ok(Passed::Leaving),
    }
}

// Makes the system call at which a process stands, if it is a read.
#[inline(always)]
fn pass_call(p: &mut Process) -> Result<Passed, NoMemory>
    requires { IsAtCall p.old }
    ensures { IfOk result (λ passed. PassesCall passed p.old p.new) }
{
    let Some(reading) = reading_next(p) else {
        return Ok(Passed::Calling);
    };
    match make_read(p, reading) {
        Ok(true) => Ok(Passed::Silently),
        Ok(false) => Ok(Passed::Waiting),
        Err(refused) => Err(refused),
    }
}

// A live process with no instruction left closes.
fn limited(p: &mut Process) -> Step
    requires live { p.old.small.status ≡ Status.Live }
    ensures makes { Makes (live_step true (state_of p.old)) (Ok result) (state_of p.old) (state_of p.new) }
    ensures marks { p.new.ram.dirty ≡ p.old.ram.dirty }
    ensures count { SameCount p.old p.new }
    ensures shorter { Shorter (Ok result) p.old.small p.new.small }
    ensures touches { Touches (Ok result) p.old p.new }
{
    run_out(&mut p.small);
    Step::Silent
}

// The next step of a live process, which is no instruction that is made: a trap closes it, or it makes a system call.
fn stopped(alloc: Global, p: &mut Process, did: Did) -> Result<Step, NoMemory>
    requires some { 0 < p.old.small.left }
    requires live { p.old.small.status ≡ Status.Live }
    requires stops { Stops (exec p.old.small.regs p.old.ram.bytes) did }
    ensures makes { Makes (live_step false (state_of p.old)) result (state_of p.old) (state_of p.new) }
    ensures marks { Marks result (marks_live false (state_of p.old) p.old.ram.dirty) p.old.ram.dirty p.new.ram.dirty }
    ensures count { Took (taken_by result (letter_live false (state_of p.old))) p.old p.new }
    ensures shorter { Shorter result p.old.small p.new.small }
    ensures touches { Touches result p.old p.new }
{
    match did {
        Did::Stepped => unreachable!(),
        Did::Trap(code) => {
            close(&mut p.small, End::Trap(code));
            Ok(Step::Silent)
        }
        Did::Call => call(alloc, p),
    }
}

/// Whether `step` would answer neither `Blocked` nor `Over`, want of memory aside. Takes no memory.
pub fn can_step(p: &Process) -> bool
    ensures { result ≡ has_step (next_step (state_of p.now)) }
{
    match p.small.status {
        Status::Ended(_) => false,
        Status::Closing(_) => true,
        Status::Live => !waits_next(p),
    }
}

/// Whether `step` would be the one by which the process ends. Takes no memory.
#[inline(always)]
pub fn exits_next(p: &Process) -> bool
    ensures { result ≡ is_exit (next_step (state_of p.now)) }
{
    match p.small.status {
        Status::Ended(_) => false,
        Status::Closing(_) => !has_linked(&p.small),
        Status::Live => false,
    }
}

/// The step by which a process ends, which sends this end. Takes no memory.
pub fn exit(p: &mut Process) -> End
    requires { is_exit (next_step (state_of p.old)) ≡ true }
    ensures exits { next_step (state_of p.old) ≡ Emits (Exit result) (state_of p.new) }
    ensures touches { p.new ≡ record p.old { small = p.new.small } }
{
    match p.small.status {
        Status::Closing(end) => {
            finish(&mut p.small, end);
            end
        }
        _ => unreachable!(),
    }
}

/// Whether `step` would answer `Forks`. Takes no memory.
pub fn forks_next(p: &Process) -> bool
    ensures { result ≡ is_fork (next_step (state_of p.now)) }
{
    match p.small.status {
        Status::Ended(_) => false,
        Status::Closing(_) => false,
        Status::Live => forks_live(p),
    }
}

// Whether a live process's next instruction is a call that forks.
fn forks_live(p: &Process) -> bool
    requires live { p.now.small.status ≡ Status.Live }
    ensures { result ≡ is_fork (live_step (p.now.small.left == 0) (state_of p.now)) }
{
    if is_spent_up(&p.small) || !stands_at_call(p) {
        return false;
    }
    would_fork(p)
}

// Whether a live process's next instruction is a read that waits.
fn waits_next(p: &Process) -> bool
    requires live { p.now.small.status ≡ Status.Live }
    ensures { result ≡ is_blocked (live_step (p.now.small.left == 0) (state_of p.now)) }
{
    if is_spent_up(&p.small) {
        return false;
    }
    match reading_next(p) {
        Some(reading) => stands_at_call(p) && waits(p, reading),
        None => false,
    }
}

// Whether the next instruction is a system call.
fn stands_at_call(p: &Process) -> bool
    ensures { result ≡ is_call (exec p.now.small.regs p.now.ram.bytes) }
{
    calls_next(&p.small.regs, &p.ram)
}

// A closing process sends an end letter, or its exit.
fn closing(p: &mut Process, end: End) -> Step
    requires closing { p.old.small.status ≡ Status.Closing end }
    ensures makes { Makes (closing_step (lowest_linked p.old.small.ends) end (state_of p.old)) (Ok result) (state_of p.old) (state_of p.new) }
    ensures marks { p.new.ram.dirty ≡ p.old.ram.dirty }
    ensures count { SameCount p.old p.new }
    ensures shorter { Shorter (Ok result) p.old.small p.new.small }
    ensures touches { Touches (Ok result) p.old p.new }
{
    match shut_lowest(&mut p.small) {
        Some((out, to)) => Step::Emit(Emission::Mail(Letter {
            from: p.small.pid,
            out,
            to,
            body: Body::EndOf,
        })),
        None => {
            finish(&mut p.small, end);
            Step::Emit(Emission::Exit(end))
        }
    }
}

// A live process closes for want of instructions, or executes one.
fn live(alloc: Global, p: &mut Process) -> Result<Step, NoMemory>
    requires live { p.old.small.status ≡ Status.Live }
    ensures makes { Makes (live_step (p.old.small.left == 0) (state_of p.old)) result (state_of p.old) (state_of p.new) }
    ensures marks { Marks result (marks_live (p.old.small.left == 0) (state_of p.old) p.old.ram.dirty) p.old.ram.dirty p.new.ram.dirty }
    ensures count { Took (taken_by result (letter_live (p.old.small.left == 0) (state_of p.old))) p.old p.new }
    ensures shorter { Shorter result p.old.small p.new.small }
    ensures touches { Touches result p.old p.new }
{
    if is_spent_up(&p.small) {
        return Ok(limited(p));
    }
    match instruct(&mut p.small, &mut p.ram) {
        Did::Stepped => {
            spend(&mut p.small);
            Ok(Step::Silent)
        }
        did => stopped(alloc, p, did),
    }
}

// Executes an instruction, which is not spent yet.
fn instruct(small: &mut Small, ram: &mut Ram) -> Did
    ensures did { result ≡ did_of (exec small.old.regs ram.old.bytes) }
    ensures small { small.new ≡ with_regs small.old (regs_after (exec small.old.regs ram.old.bytes) small.old.regs) }
    ensures bytes { ram.new.bytes ≡ bytes_after (exec small.old.regs ram.old.bytes) ram.old.bytes }
    ensures marks { ram.new.dirty ≡ exec_marks small.old.regs ram.old.bytes ram.old.dirty }
{
    exec(&mut small.regs, ram)
}
