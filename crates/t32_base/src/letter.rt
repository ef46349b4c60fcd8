//! Letters, and the record that a backup keeps of a process.
ghost use Rattle.std.specs.Prelude.{◌≡◌, IfOk, ◌∷◌, [], ◌++◌, take};

use crate::lists::List;
use crate::process::{Counts, Pid, Small};
use crate::shared_bytes::SharedBytes;
use crate::streams::NoMemory;
use std::alloc::Global;

/// What a letter says: some bytes, that its sender's end is shut, or a signal's number.
#[derive(Drop)]
pub enum Body {
    Said(SharedBytes),
    EndOf,
    Signal(u8),
}

/// Where a letter goes: an end of a process, or a terminal.
#[derive(Clone, Copy, PartialEq, Eq, Debug)]
pub enum To {
    Proc(Pid, u8),
    Tty(u8),
}

/// A message from the end `out` of a process; a signal has `out` 0 and goes to end 0.
#[derive(Drop)]
pub struct Letter {
    pub from: Pid,
    pub out: u8,
    pub to: To,
    pub body: Body,
}

/// A letter with its arrival number, counted from 0 at the receiver's start.
#[derive(Drop)]
pub struct Arrived {
    pub number: u64,
    pub letter: Letter,
}

/// What a backup keeps of a process: its state at the last synchronisation, the letters saved since, the
/// number of letters that have arrived, what it sent since, and the children born since, in order.
#[derive(Drop)]
pub struct BackRec {
    pub pid: Pid,
    pub state: Option<Small>,
    pub saved: List<Arrived>,
    pub next: u64,
    pub counts: Counts,
    pub births: List<Pid>,
}

impl Body {
    fn copy(&self) -> Result<Self, NoMemory>
        ensures { IfOk result (λ c. c ≡ self.now) }
    {
        match self {
            Body::Said(bytes) => Ok(Body::Said(bytes.copy()?)),
            Body::EndOf => Ok(Body::EndOf),
            Body::Signal(signal) => Ok(Body::Signal(*signal)),
        }
    }
}

impl Letter {
    /// An equal letter. Takes no memory.
    pub fn copy(&self) -> Result<Self, NoMemory>
        ensures { IfOk result (λ c. c ≡ self.now) }
    {
        Ok(Letter {
            from: self.from,
            out: self.out,
            to: self.to,
            body: self.body.copy()?,
        })
    }
}

impl Arrived {
    /// An equal letter with the same arrival number. Takes no memory.
    pub fn copy(&self) -> Result<Self, NoMemory>
        ensures { IfOk result (λ c. c ≡ self.now) }
    {
        Ok(Arrived {
            number: self.number,
            letter: self.letter.copy()?,
        })
    }
}

impl BackRec {
    /// An equal record, over the allocators of this one's lists.
    pub fn copy(&self) -> Result<Self, NoMemory>
        ensures { IfOk result (λ c. c ≡ self.now) }
    {
        Ok(BackRec {
            pid: self.pid,
            state: copied_state(&self.state),
            saved: copied_letters(self.saved.allocator(), self.saved.as_slice())?,
            next: self.next,
            counts: self.counts,
            births: copied_pids(self.births.allocator(), self.births.as_slice())?,
        })
    }
}

fn copied_state(state: &Option<Small>) -> Option<Small>
    ensures { result ≡ state.now }
{
    match state {
        Some(small) => Some(small.copy()),
        None => None,
    }
}

fn copied_letters(alloc: Global, letters: &[Arrived]) -> Result<List<Arrived>, NoMemory>
    ensures { IfOk result (λ c. c ≡ letters.now) }
{
    let mut copies = List::new(alloc);
    for letter in letters {
        copies.push(letter.copy()?)?;
    }
    Ok(copies)
}

fn copied_pids(alloc: Global, pids: &[Pid]) -> Result<List<Pid>, NoMemory>
    ensures { IfOk result (λ c. c ≡ pids.now) }
{
    let mut copies = List::new(alloc);
    for pid in pids {
        copies.push(*pid)?;
    }
    Ok(copies)
}
