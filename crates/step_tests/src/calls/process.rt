//! A process whose next instruction is a call, and what its steps show.
ghost use Rattle.std.specs.Prelude.{◌≡◌, ◌<◌, ◌+◌, IfOk, OnOk};

use proc_state::process::Process;
use rv_cpu::registers::read;
use std::alloc::Global;
use std::test::Fail;
use sys_calls::stepping::{can_step, step};
use sys_calls::steps::{Emission, Step};
use t32_base::letter::{Body, Letter, To};
use t32_base::process::{End, EndState, Pid, Small, Status};
use t32_base::shared_bytes::SharedBytes;
use t32_base::streams::NoMemory;
use test_asserts::same;

// The word of `ecall`.
static ECALL: [u8; 4] = [0x73, 0, 0, 0];

/// What a call answers where it has no such end.
pub const REFUSED_END: u32 = 0xfffffff7;

/// What a call answers where the buffer lies outside.
pub const REFUSED_ADDRESS: u32 = 0xfffffff2;

// A process of one page whose first word is a system call.
fn root(alloc: Global) -> Result<Process, NoMemory>
    ensures { IfOk result (λ p. p.mail.next ≡ 0) }
{
    Process::root(alloc, Pid(16), 0x10000, 1, &ECALL, 1000, 0, 0)
}

fn set(small: &mut Small, register: u8, value: u32)
    requires { register < 32 }
{
    rv_cpu::registers::write(&mut small.regs, register, value);
}

// Some bytes arrive for an end of process 16.
fn say(alloc: Global, p: &mut Process, end: u8, bytes: &[u8]) -> Result<(), NoMemory>
    requires { p.old.mail.next < 100 }
    ensures { OnOk result (p.new.mail.next ≡ p.old.mail.next + 1) }
{
    let said = SharedBytes::copy_of(alloc, bytes)?;
    arrive(p, end, Body::Said(said))
}

/// A letter with this body arrives for an end of process 16.
pub fn arrive(p: &mut Process, end: u8, body: Body) -> Result<(), NoMemory>
    requires { p.old.mail.next < 100 }
    ensures { OnOk result (p.new.mail.next ≡ p.old.mail.next + 1) }
{
    p.deliver(Letter {
        from: Pid(17),
        out: 1,
        to: To::Proc(Pid(16), end),
        body,
    })
}

/// An end that is linked to this end of process 17.
pub fn linked(far: u8, finished: bool) -> EndState {
    EndState::Linked {
        peer: Pid(17),
        far,
        finished,
    }
}

/// The state with other ends.
pub fn with(small: &Small, ends: [EndState; 32]) -> Small {
    Small {
        pid: Pid(16),
        regs: small.regs.copy(),
        ends,
        handler: 0,
        frame: None,
        left: 1000,
        steps: 0,
        births: 0,
        status: Status::Live,
        pages: 1,
    }
}

/// How a process begins. `Root`: its end 0 is a terminal, and no letter has come. `Ended`: so, but five bytes and an end
/// letter have come for end 1. `Two`: so, but a letter has come for end 3 and a later one for end 1. `Linked`: end 0 is a
/// terminal, 1 and 31 are linked, 2 is finished, 3 is shut, and no letter has come. `Letters`: the same with a letter of
/// five bytes on the ends 3, 2 and 1, in this order. `Finished`: the same letters, but of the ends only 2 was ever linked,
/// and is finished.
#[derive(Clone, Copy)]
pub enum Begin {
    Root,
    Ended,
    Two,
    Linked,
    Letters,
    Finished,
}

fn rooted() -> [EndState; 32] {
    let mut ends = [EndState::Never; 32];
    ends[0] = EndState::Tty(0);
    ends
}

fn some_linked() -> [EndState; 32] {
    let mut ends = rooted();
    ends[1] = linked(5, false);
    ends[2] = linked(6, true);
    ends[3] = EndState::Shut;
    ends[31] = linked(7, false);
    ends
}

fn one_finished() -> [EndState; 32] {
    let mut ends = [EndState::Never; 32];
    ends[2] = linked(6, true);
    ends
}

fn ends_at(begin: Begin) -> [EndState; 32] {
    match begin {
        Begin::Root | Begin::Ended | Begin::Two => rooted(),
        Begin::Linked | Begin::Letters => some_linked(),
        Begin::Finished => one_finished(),
    }
}

fn say_and_end(alloc: Global, p: &mut Process) -> Result<(), NoMemory>
    requires { p.old.mail.next < 10 }
{
    say(alloc, p, 1, b"abcde")?;
    arrive(p, 1, Body::EndOf)
}

fn say_two(alloc: Global, p: &mut Process) -> Result<(), NoMemory>
    requires { p.old.mail.next < 10 }
{
    say(alloc, p, 3, b"third")?;
    say(alloc, p, 1, b"one")
}

fn say_three(alloc: Global, p: &mut Process) -> Result<(), NoMemory>
    requires { p.old.mail.next < 10 }
{
    say(alloc, p, 3, b"shut!")?;
    say(alloc, p, 2, b"ended")?;
    say(alloc, p, 1, b"abcde")
}

fn come(alloc: Global, p: &mut Process, begin: Begin) -> Result<(), NoMemory>
    requires { p.old.mail.next < 10 }
{
    match begin {
        Begin::Root | Begin::Linked => Ok(()),
        Begin::Ended => say_and_end(alloc, p),
        Begin::Two => say_two(alloc, p),
        Begin::Letters | Begin::Finished => say_three(alloc, p),
    }
}

/// A process that begins in this way.
pub fn begun(alloc: Global, begin: Begin) -> Result<Process, NoMemory> {
    let mut p = root(alloc)?;
    come(alloc, &mut p, begin)?;
    p.small = with(&p.small, ends_at(begin));
    Ok(p)
}

fn signal_twice(p: &mut Process) -> Result<(), NoMemory>
    requires { p.old.mail.next < 10 }
{
    arrive(p, 0, Body::Signal(11))?;
    arrive(p, 0, Body::Signal(12))
}

fn handle(small: &mut Small) {
    set_call(small, &[0, 0, 0, 9]);
    small.handler = 0x10000;
    small.frame = Some(small.regs.copy());
}

/// One whose handler runs, at its first word, the call `sigreturn`; so does what it returns to. Signals 11 and 12 wait.
pub fn signalled(alloc: Global) -> Result<Process, NoMemory> {
    let mut p = root(alloc)?;
    signal_twice(&mut p)?;
    handle(&mut p.small);
    Ok(p)
}

/// What a step was: silent, also one that lets the process close; how many bytes were sent, and where; an end letter, from
/// which end and where; a signal, and where it goes; how the process ended; or why no step was made, for one that has ended with its end.
#[derive(Clone, Copy, PartialEq, Eq, Debug)]
pub enum Made {
    Silent,
    Closing(End),
    Said(To, usize),
    Shut(u8, To),
    Signal(u8, To),
    Exit(End),
    Blocked,
    Over(End),
    Other,
}

fn silent_in(status: Status) -> Made {
    match status {
        Status::Live => Made::Silent,
        Status::Closing(end) => Made::Closing(end),
        Status::Ended(_) => Made::Other,
    }
}

fn over_in(status: Status) -> Made {
    match status {
        Status::Ended(end) => Made::Over(end),
        Status::Live | Status::Closing(_) => Made::Other,
    }
}

fn sent_by(letter: &Letter) -> Made {
    match &letter.body {
        Body::Said(bytes) => Made::Said(letter.to, bytes.len()),
        Body::EndOf => Made::Shut(letter.out, letter.to),
        Body::Signal(signal) => Made::Signal(*signal, letter.to),
    }
}

fn told_by(emission: &Emission) -> Made {
    match emission {
        Emission::Mail(letter) => sent_by(letter),
        Emission::Exit(end) => Made::Exit(*end),
    }
}

/// What a step was that left this status.
pub fn made_of(step: &Step, status: Status) -> Made {
    match step {
        Step::Silent => silent_in(status),
        Step::Emit(emission) => told_by(emission),
        Step::Blocked => Made::Blocked,
        Step::Over => over_in(status),
        Step::Forks => Made::Other,
    }
}

/// Makes a step, and says what it was.
pub fn step_made(alloc: Global, p: &mut Process) -> Result<Made, NoMemory> {
    let step = step(alloc, p)?;
    Ok(made_of(&step, p.small.status))
}

/// Whether a letter stands on each of the ends 1, 2 and 3.
pub type Letters = (bool, bool, bool);

/// No letter on these ends, and a letter on each.
pub const NO_LETTERS: Letters = (false, false, false);

pub const ALL_LETTERS: Letters = (true, true, true);

fn letters_of(p: &Process) -> Letters {
    (
        p.mail.first_on(1).is_some(),
        p.mail.first_on(2).is_some(),
        p.mail.first_on(3).is_some(),
    )
}

/// Whether the process could make a step; what the step was; then the registers a0 and a1, the program counter and the
/// count of steps, and the letters that stay.
pub type Shown = (bool, Made, (u32, u32), (u32, u64), Letters);

fn shown_by(could: bool, made: Made, p: &Process) -> Shown {
    let answers = (read(&p.small.regs, 10), read(&p.small.regs, 11));
    (
        could,
        made,
        answers,
        (p.small.regs.pc, p.small.steps),
        letters_of(p),
    )
}

/// A call: the registers a0, a1, a2 and a7.
pub type Call = [u32; 4];

pub fn set_call(small: &mut Small, call: &Call) {
    small.regs.pc = 0x10000;
    set(small, 10, call[0]);
    set(small, 11, call[1]);
    set(small, 12, call[2]);
    set(small, 17, call[3]);
}

fn make_call(alloc: Global, p: &mut Process, call: &Call) -> Result<Shown, NoMemory> {
    set_call(&mut p.small, call);
    let could = can_step(p);
    let made = step_made(alloc, p)?;
    Ok(shown_by(could, made, p))
}

/// The same call three times.
pub fn call_thrice(alloc: Global, p: &mut Process, again: &Call) -> Result<[Shown; 3], NoMemory> {
    let none = (false, Made::Other, (0, 0), (0, 0), NO_LETTERS);
    let mut shown = [none; 3];
    for place in shown.iter_mut() {
        *place = make_call(alloc, p, again)?;
    }
    Ok(shown)
}

/// The first call of a process.
pub fn first_call(alloc: Global, begin: Begin, first: &Call) -> Result<Shown, NoMemory> {
    let mut p = begun(alloc, begin)?;
    make_call(alloc, &mut p, first)
}

/// A call, what its step was, and the registers a0 and a1 after it.
pub type Row = (Call, Made, (u32, u32));

/// Each call is the first of a process that begins in this way; it can be made, and leaves these letters.
pub fn assert_calls(
    alloc: Global,
    begin: Begin,
    letters: Letters,
    rows: &[Row],
) -> Result<(), Fail> {
    for row in rows {
        let made = first_call(alloc, begin, &row.0);
        same(
            "a call",
            &made,
            &Ok((true, row.1, row.2, (0x10004, 1), letters)),
        )?;
    }
    Ok(())
}
