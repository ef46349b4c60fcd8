//! The calls that read letters.
ghost use Rattle.std.specs.Prelude.{◌≡◌, ◌+◌, ◌<◌, ◌≤◌, true, length, option_map, IfSome};
ghost use Rattle.std.specs.Option.{option_copied};
ghost use Rattle.t32_base.specs.declared.letter.Arrived.{Arrived};
ghost use Rattle.rv_cpu.specs.Exec.{reg};
ghost use Rattle.rv_mem.specs.Memory.{is_inside, written};
ghost use Rattle.proc_state.specs.Mail.{end_of};
ghost use Rattle.proc_state.specs.State.{state_of, with_small};
ghost use Rattle.sys_calls.specs.Small.{spent, weight, with_ends};
ghost use Rattle.sys_calls.specs.Calls.{call_of, ends_after, first_wanted, marks_read, read_answered, read_any_checked, read_call, read_checked, reading_of, said_within, wanted_letter, IsSound};
ghost use Rattle.sys_calls.specs.Next.{is_blocked};
ghost use Rattle.sys_calls.specs.Steps.{Makes, Marks, Shorter, TakesLetter, Took, Touches, step_of_read, taken_by};

use crate::ends::{any_unfinished, destination, finish, is_unfinished_at};
use crate::refusal::{BAD_ADDRESS, BAD_END, refusal};
use crate::small::{answer, answer_both};
use proc_state::mailbox::end_number;
use proc_state::process::Process;
use rv_cpu::registers::read;
use rv_mem::Ram;
use t32_base::letter::{Arrived, Body, Letter};
use t32_base::process::Small;
use t32_base::streams::NoMemory;

/// Which letters a read wants: those for one end, or those for any linked end.
#[derive(Clone, Copy)]
pub enum Wanted {
    On(u8),
    AnyLinked,
}

/// What the checks of a read come to: an error's number, no more letters, or a letter that is wanted, of
/// which so many bytes at most go to an address.
#[derive(Clone, Copy)]
pub enum Reading {
    Refused(u32),
    AtEnd,
    Wants(Wanted, u32, u32),
}

/// The most bytes that a read copies.
const MOST: u32 = 256;

/// The checks of read(end, ptr, max).
pub fn read_checked(p: &Process) -> Reading
    ensures checked { result ≡ read_checked (state_of p.now) }
    ensures sound { IsSound p.now.ram.bytes result }
{
    let end = read(&p.small.regs, 10);
    let ptr = read(&p.small.regs, 11);
    let room = read(&p.small.regs, 12).min(MOST);
    if end == 0 || destination(&p.small.ends, end).is_none() {
        return Reading::Refused(BAD_END);
    }
    if !p.ram.inside(ptr, room) {
        return Reading::Refused(BAD_ADDRESS);
    }
    if !is_unfinished_at(&p.small.ends, end) {
        return Reading::AtEnd;
    }
    Reading::Wants(Wanted::On(end as u8), ptr, room)
}

/// The checks of read_any(ptr, max).
pub fn read_any_checked(p: &Process) -> Reading
    ensures checked { result ≡ read_any_checked (state_of p.now) }
    ensures sound { IsSound p.now.ram.bytes result }
{
    let ptr = read(&p.small.regs, 10);
    let room = read(&p.small.regs, 11).min(MOST);
    if !p.ram.inside(ptr, room) {
        return Reading::Refused(BAD_ADDRESS);
    }
    if !any_unfinished(&p.small.ends) {
        return Reading::Refused(BAD_END);
    }
    Reading::Wants(Wanted::AnyLinked, ptr, room)
}

/// The read whose number is in a7, after its checks. Takes no memory.
pub fn reading_next(p: &Process) -> Option<Reading>
    ensures checked { result ≡ reading_of (call_of (reg p.now.small.regs 17)) (state_of p.now) }
    ensures sound { IfSome result (IsSound p.now.ram.bytes) }
{
    match read(&p.small.regs, 17) {
        3 => Some(read_checked(p)),
        4 => Some(read_any_checked(p)),
        _ => None,
    }
}

/// Whether a read waits for a letter. Takes no memory.
pub fn waits(p: &Process, reading: Reading) -> bool
    ensures { result ≡ is_blocked (read_call (state_of p.now) reading) }
{
    match reading {
        Reading::Refused(_) => false,
        Reading::AtEnd => false,
        Reading::Wants(wanted, _, _) => first(p, wanted).is_none(),
    }
}

// The first letter that a read wants.
fn first(p: &Process, wanted: Wanted) -> Option<&Arrived>
    ensures { option_copied result ≡ first_wanted (state_of p.now) wanted }
{
    match wanted {
        Wanted::On(end) => p.mail.first_on(end),
        Wanted::AnyLinked => p.mail.first_linked(&p.small.ends),
    }
}

/// Makes a read after its checks: an error is answered, or 0 where no letter will come, or the first letter
/// that is wanted is read. Answers no where there is none: the process is as it was then, and so it is after want
/// of memory.
pub fn make_read(p: &mut Process, reading: Reading) -> Result<bool, NoMemory>
    requires some { 0 < p.old.small.left }
    requires sound { IsSound p.old.ram.bytes reading }
    ensures makes { Makes (read_call (with_small (state_of p.old) (spent p.old.small)) reading) (step_of_read result) (state_of p.old) (state_of p.new) }
    ensures marks { Marks (step_of_read result) (marks_read (state_of p.old) p.old.ram.dirty reading) p.old.ram.dirty p.new.ram.dirty }
    ensures count { Took (taken_by (step_of_read result) (wanted_letter (state_of p.old) reading)) p.old p.new }
    ensures shorter { Shorter (step_of_read result) p.old.small p.new.small }
    ensures touches { Touches (step_of_read result) p.old p.new }
{
    match reading {
        Reading::Refused(error) => {
            answer(&mut p.small, refusal(error));
            Ok(true)
        }
        Reading::AtEnd => {
            answer(&mut p.small, 0);
            Ok(true)
        }
        Reading::Wants(wanted, ptr, room) => match take_letter(p, wanted)? {
            Some(arrived) => {
                let letter = &arrived.letter;
                read_letter(&mut p.small, &mut p.ram, wanted, ptr, room, letter);
                Ok(true)
            }
            None => Ok(false),
        },
    }
}

// The end and the number of the first letter that a read wants.
fn first_place(p: &Process, wanted: Wanted) -> Option<(u8, u64)>
    ensures { result ≡ option_map (λ (a : Arrived). (end_of (a.letter).to, a.number)) (first_wanted (state_of p.now) wanted) }
{
    match first(p, wanted) {
        Some(arrived) => Some((end_number(arrived.letter.to), arrived.number)),
        None => None,
    }
}

// Takes the first letter that a read wants, which is the first for its end, and notes its number; memory for the number
// comes first.
fn take_letter(p: &mut Process, wanted: Wanted) -> Result<Option<Arrived>, NoMemory>
    ensures { TakesLetter wanted result p.old p.new }
{
    let Some((end, number)) = first_place(p, wanted) else {
        return Ok(None);
    };
    p.read.push(number)?;
    Ok(p.mail.take_on(end))
}

// Reads a letter: its bytes go to memory, an end letter finishes its end, and the answers are given.
fn read_letter(
    small: &mut Small,
    ram: &mut Ram,
    wanted: Wanted,
    ptr: u32,
    room: u32,
    letter: &Letter,
)
    requires some { 0 < small.old.left }
    requires inside { is_inside ram.old.bytes ptr room ≡ true }
    ensures small { small.new ≡ read_answered wanted (with_ends (spent small.old) (ends_after letter.now.body (end_of letter.now.to) small.old.ends)) (length (said_within room letter.now.body)) (end_of letter.now.to) }
    ensures ram { ram.new ≡ written ram.old ptr (said_within room letter.now.body) }
    ensures weight { weight small.new + 1 ≤ weight small.old }
{
    let end = end_number(letter.to);
    let count = copy_said(ram, ptr, room, &letter.body);
    end_said(small, end, &letter.body);
    match wanted {
        Wanted::On(_) => answer(small, count),
        Wanted::AnyLinked => answer_both(small, count, u32::from(end)),
    }
}

// An end letter for an end finishes it.
fn end_said(small: &mut Small, end: u8, body: &Body)
    ensures ends { small.new ≡ with_ends small.old (ends_after body.now end small.old.ends) }
    ensures weight { weight small.new ≡ weight small.old }
{
    match body {
        Body::EndOf => finish(small, end),
        Body::Said(_) | Body::Signal(_) => {}
    }
}

// Copies what a letter says to memory, as far as there is room, and answers how many bytes.
fn copy_said(ram: &mut Ram, ptr: u32, room: u32, body: &Body) -> u32
    requires { is_inside ram.old.bytes ptr room ≡ true }
    ensures ram { ram.new ≡ written ram.old ptr (said_within room body.now) }
    ensures count { result ≡ length (said_within room body.now) }
{
    let said = said_first(body, room);
    match ram.copy_in(ptr, said) {
        Ok(()) => said.len() as u32,
        Err(_) => unreachable!(),
    }
}

// What a letter says, as far as there is room.
fn said_first(body: &Body, room: u32) -> &[u8]
    ensures said { result.now ≡ said_within room body.now }
    ensures short { length result.now ≤ room }
{
    match body {
        Body::Said(bytes) => {
            let said = bytes.as_slice();
            &said[..said.len().min(room as usize)]
        }
        Body::EndOf | Body::Signal(_) => &[],
    }
}
