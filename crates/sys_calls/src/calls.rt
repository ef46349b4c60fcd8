//! The system calls.
ghost use Rattle.std.specs.Prelude.{◌≡◌, ◌<◌, ◌-◌, ◌^◌, slice_get, option_and_then, IsSome, Ok};
ghost use Rattle.rv_cpu.specs.Exec.{reg};
ghost use Rattle.proc_state.specs.Ends.{leads_to};
ghost use Rattle.proc_state.specs.State.{state_of, with_small};
ghost use Rattle.sys_calls.specs.Small.{spent};
ghost use Rattle.sys_calls.specs.Calls.{call_of, called, close_call, fork_call, letter_called, marks_called, write_call, ExitCall};
ghost use Rattle.sys_calls.specs.Next.{is_fork};
ghost use Rattle.sys_calls.specs.Steps.{Makes, Marks, SameCount, Shorter, Took, Touches, step_of_read, taken_by};

use crate::ends::{destination, shut};
use crate::reading::{make_read, read_any_checked, read_checked};
use crate::refusal::{BAD_ADDRESS, BAD_ARGUMENT, BAD_END, NO_BIRTH, NO_END, refuse};
use crate::signals::{handler, kill, sigreturn};
use crate::small::{answer, close, go_on};
use crate::steps::{Emission, Step};
use proc_state::process::Process;
use rv_cpu::registers::read;
use std::alloc::Global;
use t32_base::letter::{Body, Letter, To};
use t32_base::process::{End, EndState, Status};
use t32_base::shared_bytes::SharedBytes;
use t32_base::streams::NoMemory;

/// The most bytes of one letter.
const MOST: u32 = 256;

/// The number of the call that forks.
const FORK: u32 = 5;

/// The process makes the call whose number is in a7.
#[inline(always)]
pub fn call(alloc: Global, p: &mut Process) -> Result<Step, NoMemory>
    requires some { 0 < p.old.small.left }
    requires live { p.old.small.status ≡ Status.Live }
    ensures makes { Makes (called (call_of (reg p.old.small.regs 17)) (with_small (state_of p.old) (spent p.old.small))) result (state_of p.old) (state_of p.new) }
    ensures marks { Marks result (marks_called (call_of (reg p.old.small.regs 17)) (state_of p.old) p.old.ram.dirty) p.old.ram.dirty p.new.ram.dirty }
    ensures count { Took (taken_by result (letter_called (call_of (reg p.old.small.regs 17)) (state_of p.old))) p.old p.new }
    ensures shorter { Shorter result p.old.small p.new.small }
    ensures touches { Touches result p.old p.new }
{
    match read(&p.small.regs, 17) {
        1 => Ok(exit(p)),
        2 => write(alloc, p),
        3 => {
            let reading = read_checked(p);
            read_step(make_read(p, reading))
        }
        4 => {
            let reading = read_any_checked(p);
            read_step(make_read(p, reading))
        }
        FORK => Ok(fork_call(p)),
        6 => {
            let pid = p.small.pid.0;
            answer(&mut p.small, pid);
            Ok(Step::Silent)
        }
        7 => Ok(handler(p)),
        8 => Ok(kill(p)),
        9 => Ok(sigreturn(p)),
        10 => Ok(close_end(p)),
        _ => Ok(refuse(p, BAD_ARGUMENT)),
    }
}

// The step that a read made.
fn read_step(read: Result<bool, NoMemory>) -> Result<Step, NoMemory>
    ensures { result ≡ step_of_read read }
{
    match read {
        Ok(true) => Ok(Step::Silent),
        Ok(false) => Ok(Step::Blocked),
        Err(refused) => Err(refused),
    }
}

/// exit(s)
fn exit(p: &mut Process) -> Step
    requires some { 0 < p.old.small.left }
    requires live { p.old.small.status ≡ Status.Live }
    ensures makes { Makes (called ExitCall (with_small (state_of p.old) (spent p.old.small))) (Ok result) (state_of p.old) (state_of p.new) }
    ensures marks { p.new.ram.dirty ≡ p.old.ram.dirty }
    ensures count { SameCount p.old p.new }
    ensures shorter { Shorter (Ok result) p.old.small p.new.small }
    ensures touches { Touches (Ok result) p.old p.new }
{
    let status = read(&p.small.regs, 10) % 256;
    close(&mut p.small, End::Exit(status as u8));
    go_on(&mut p.small);
    Step::Silent
}

/// write(end, ptr, len)
#[inline(always)]
fn write(alloc: Global, p: &mut Process) -> Result<Step, NoMemory>
    requires some { 0 < p.old.small.left }
    ensures makes { Makes (write_call (with_small (state_of p.old) (spent p.old.small)) (reg p.old.small.regs 10) (reg p.old.small.regs 11) (reg p.old.small.regs 12)) result (state_of p.old) (state_of p.new) }
    ensures marks { p.new.ram.dirty ≡ p.old.ram.dirty }
    ensures count { SameCount p.old p.new }
    ensures shorter { Shorter result p.old.small p.new.small }
    ensures touches { Touches result p.old p.new }
{
    let end = read(&p.small.regs, 10);
    let ptr = read(&p.small.regs, 11);
    let len = read(&p.small.regs, 12);
    let Some(to) = destination(&p.small.ends, end) else {
        return Ok(refuse(p, BAD_END));
    };
    if len > MOST {
        return Ok(refuse(p, BAD_ARGUMENT));
    }
    if !p.ram.inside(ptr, len) {
        return Ok(refuse(p, BAD_ADDRESS));
    }
    if len == 0 {
        answer(&mut p.small, 0);
        return Ok(Step::Silent);
    }
    let said = SharedBytes::copy_of(alloc, p.ram.part(ptr, len))?;
    let letter = Letter {
        from: p.small.pid,
        out: end as u8,
        to,
        body: Body::Said(said),
    };
    answer(&mut p.small, len);
    Ok(Step::Emit(Emission::Mail(letter)))
}

/// close(end)
fn close_end(p: &mut Process) -> Step
    requires some { 0 < p.old.small.left }
    ensures makes { Makes (close_call (with_small (state_of p.old) (spent p.old.small)) (reg p.old.small.regs 10)) (Ok result) (state_of p.old) (state_of p.new) }
    ensures marks { p.new.ram.dirty ≡ p.old.ram.dirty }
    ensures count { SameCount p.old p.new }
    ensures shorter { Shorter (Ok result) p.old.small p.new.small }
    ensures touches { Touches (Ok result) p.old p.new }
{
    let end = read(&p.small.regs, 10);
    let Some(to) = destination(&p.small.ends, end) else {
        return refuse(p, BAD_END);
    };
    let end = end as u8;
    shut(&mut p.small, end);
    answer(&mut p.small, 0);
    match to {
        To::Tty(_) => Step::Silent,
        To::Proc(_, _) => Step::Emit(Emission::Mail(Letter {
            from: p.small.pid,
            out: end,
            to,
            body: Body::EndOf,
        })),
    }
}

/// fork(): refused where no birth or no end is left; else the fork is the next step, and the call changes nothing.
fn fork_call(p: &mut Process) -> Step
    requires some { 0 < p.old.small.left }
    ensures makes { Makes (fork_call (with_small (state_of p.old) (spent p.old.small))) (Ok result) (state_of p.old) (state_of p.new) }
    ensures marks { p.new.ram.dirty ≡ p.old.ram.dirty }
    ensures count { SameCount p.old p.new }
    ensures shorter { Shorter (Ok result) p.old.small p.new.small }
    ensures touches { Touches (Ok result) p.old p.new }
{
    if p.small.births == 0 {
        return refuse(p, NO_BIRTH);
    }
    if p.free_end().is_none() {
        return refuse(p, NO_END);
    }
    Step::Forks
}

/// Whether the call whose number is in a7 would fork. Takes no memory.
pub fn would_fork(p: &Process) -> bool
    ensures { result ≡ is_fork (called (call_of (reg p.now.small.regs 17)) (with_small (state_of p.now) (spent p.now.small))) }
{
    if read(&p.small.regs, 17) != FORK {
        return false;
    }
    p.small.births != 0 && p.free_end().is_some()
}
