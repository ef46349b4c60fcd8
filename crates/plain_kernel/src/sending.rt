//! One step of a process in its kernel: the letter that it sends is delivered at once.
ghost use Rattle.std.specs.Prelude.{◌≡◌, ◌≤◌, ◌<◌, ◌^◌, ◌+◌, ◌-◌, IsSome, OnOk, OnErr, IfOk, Some, option_map};
ghost use Rattle.std.specs.BTreeMap.{get, keys};
ghost use Rattle.std.specs.Ordering.{nat_cmp};
ghost use Rattle.std.specs.FinMap.{find};
ghost use Rattle.plain_kernel.specs.Kernel.{bytes_said, deliver as delivered_in, letter_put, pid_cmp, text_put};
ghost use Rattle.plain_kernel.specs.Maps.{at_key, kernel_of, pid_of, processes_of, total_load, GoesOn, GoesTo, Moves, Restores, SameBut};

use crate::processes::step_at;
use proc_state::process::Process;
use std::alloc::Global;
use std::collections::BTreeMap;
use sys_calls::steps::{Emission, Step};
use t32_base::letter::{Body, Letter, To};
use t32_base::lists::Bytes;
use t32_base::process::{Small, Status};
use t32_base::streams::NoMemory;

/// What one step of a process made of its kernel: it changed no other process, or it sent a letter to
/// the process with a pid and changed no other; or it has no step, and nothing was changed.
#[derive(Clone, Copy, PartialEq, Eq, Debug)]
pub enum Made {
    Went,
    Sent(u32),
    Stuck,
}

/// Makes the next step of the process with a pid, and delivers its letter. After want of memory nothing
/// is changed.
pub fn make_step(
    alloc: Global,
    processes: &mut BTreeMap<u32, Process>,
    ttys: &mut BTreeMap<u8, Bytes>,
    pid: u32,
) -> Result<Made, NoMemory>
    requires there { IsSome (get nat_cmp processes.old pid) }
    requires room { total_load processes.old.entries < 2 ^ 64 }
    ensures { Moves result pid processes.old.entries processes.new.entries ttys.old.entries ttys.new.entries }
{
    let before = small_at(processes, pid);
    match go_on(alloc, processes, ttys, pid) {
        Ok(made) => Ok(made),
        Err(refused) => {
            restore(processes, pid, before);
            Err(refused)
        }
    }
}

// The same without a way back: after want of memory the state of the process with the pid may have changed, and nothing
// else has.
fn go_on(
    alloc: Global,
    processes: &mut BTreeMap<u32, Process>,
    ttys: &mut BTreeMap<u8, Bytes>,
    pid: u32,
) -> Result<Made, NoMemory>
    requires there { IsSome (get nat_cmp processes.old pid) }
    requires room { total_load processes.old.entries < 2 ^ 64 }
    ensures { GoesOn result pid processes.old.entries processes.new.entries ttys.old.entries ttys.new.entries }
{
    match step_at(alloc, processes, pid) {
        Ok(Step::Silent) => Ok(Made::Went),
        Ok(Step::Emit(Emission::Exit(_))) => Ok(Made::Went),
        Ok(Step::Emit(Emission::Mail(letter))) => match send(processes, ttys, letter) {
            Ok(None) => Ok(Made::Went),
            Ok(Some(to)) => Ok(Made::Sent(to)),
            Err(refused) => Err(refused),
        },
        Ok(Step::Blocked) => Ok(Made::Stuck),
        Ok(Step::Forks) => Ok(Made::Stuck),
        Ok(Step::Over) => Ok(Made::Stuck),
        Err(refused) => Err(refused),
    }
}

/// A copy of the state of a process, to which a failed delivery goes back, and a failed fork. Takes no memory.
pub fn small_at(processes: &BTreeMap<u32, Process>, pid: u32) -> Small
    requires { IsSome (get nat_cmp processes.now pid) }
    ensures { option_map (λ p. p.small) (get nat_cmp processes.now pid) ≡ Some result }
{
    match processes.get(&pid) {
        Some(process) => process.small.copy(),
        None => unreachable!(),
    }
}

/// Puts the state of a process back. Takes no memory.
pub fn restore(processes: &mut BTreeMap<u32, Process>, pid: u32, before: Small)
    requires { IsSome (get nat_cmp processes.old pid) }
    ensures { Restores processes.old.entries processes.new.entries pid before }
{
    match processes.get_mut(&pid) {
        Some(process) => process.small = before,
        None => unreachable!(),
    }
}

/// Delivers a letter, and answers the pid of the process to which it went, if it went to one. After want of memory
/// nothing is changed.
pub fn send(
    processes: &mut BTreeMap<u32, Process>,
    ttys: &mut BTreeMap<u8, Bytes>,
    letter: Letter,
) -> Result<Option<u32>, NoMemory>
    requires { total_load processes.old.entries < 2 ^ 64 - 1 }
    ensures ok { OnOk result (kernel_of processes.new.entries ttys.new.entries ≡ delivered_in (kernel_of processes.old.entries ttys.old.entries) letter) }
    ensures load { total_load processes.new.entries ≤ total_load processes.old.entries + 1 }
    ensures keys { keys processes.new ≡ keys processes.old }
    ensures goes { IfOk result (λ to. GoesTo to processes.old.entries processes.new.entries) }
    ensures same_processes { OnErr result (processes.new.entries ≡ processes.old.entries) }
    ensures same_ttys { OnErr result (ttys.new.entries ≡ ttys.old.entries) }
{
    match letter.to {
        To::Tty(tty) => {
            append(ttys, tty, said(&letter.body))?;
            Ok(None)
        }
        To::Proc(pid, _) => {
            receive(processes, pid.0, letter)?;
            Ok(Some(pid.0))
        }
    }
}

/// The bytes that a letter says. Takes no memory.
pub fn said(body: &Body) -> &[u8]
    ensures { result.now ≡ bytes_said body.now }
{
    match body {
        Body::Said(bytes) => bytes.as_slice(),
        Body::EndOf => &[],
        Body::Signal(_) => &[],
    }
}

/// Puts bytes after what a terminal was sent, if a root names it. After want of memory nothing has changed.
pub fn append(ttys: &mut BTreeMap<u8, Bytes>, tty: u8, bytes: &[u8]) -> Result<(), NoMemory>
    ensures ok { OnOk result (ttys.new.entries ≡ text_put tty bytes.now (get nat_cmp ttys.old tty) ttys.old.entries) }
    ensures err { OnErr result (ttys.new.entries ≡ ttys.old.entries) }
{
    match ttys.get_mut(&tty) {
        Some(text) => {
            text.extend(bytes)?;
            Ok(())
        }
        None => Ok(()),
    }
}

// Puts a letter last in the mailbox of a process, if it is there and has not ended.
fn receive(processes: &mut BTreeMap<u32, Process>, pid: u32, letter: Letter) -> Result<(), NoMemory>
    requires { total_load processes.old.entries < 2 ^ 64 - 1 }
    ensures ok { OnOk result (processes_of processes.new.entries ≡ letter_put letter (pid_of pid) (find pid_cmp (pid_of pid) (processes_of processes.old.entries)) (processes_of processes.old.entries)) }
    ensures load { total_load processes.new.entries ≤ total_load processes.old.entries + 1 }
    ensures keys { keys processes.new ≡ keys processes.old }
    ensures others { SameBut (at_key pid) processes.old.entries processes.new.entries }
    ensures err { OnErr result (processes.new.entries ≡ processes.old.entries) }
{
    match processes.get_mut(&pid) {
        Some(process) => take_in(process, letter),
        None => Ok(()),
    }
}

ghost use Rattle.plain_kernel.specs.Maps.{Receives};
ghost use Rattle.plain_kernel.specs.Maps.{load as load_of};

// A process receives a letter, unless it has ended.
fn take_in(process: &mut Process, letter: Letter) -> Result<(), NoMemory>
    requires { load_of process.old < 2 ^ 64 - 1 }
    ensures { Receives result letter process.old process.new }
{
    match process.small.status {
        Status::Ended(_) => Ok(()),
        Status::Live | Status::Closing(_) => process.deliver(letter),
    }
}
