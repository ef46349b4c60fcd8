//! What a process is made of, beside its memory.
use std::marker::Model;

/// The number of a process: the number of a cluster plus 16 times a serial number.
#[derive(Clone, Copy, PartialEq, Eq, PartialOrd, Ord, Debug)]
pub struct Pid(pub u32);

/// The number of a cluster, from 0.
#[derive(Clone, Copy, PartialEq, Eq, PartialOrd, Ord, Debug)]
pub struct ClusterNo(pub u8);

/// The 32 registers and the address of the next instruction (RISC-V unprivileged specification, RV32I:
/// the programmers' model). Register 0 is always 0.
#[derive(Drop)]
pub struct Regs {
    pub x: [u32; 32],
    pub pc: u32,
}

impl Model for Regs {
    ghost use Rattle.std.specs.Prelude.{◌≡◌, slice_index};
    ghost use Rattle.t32_base.specs.Registers.{Registers};

    ghost Value = { Registers };

    ghost view = { λ r. record { x = r.x; pc = r.pc } };

    ghost invariant = { λ r. slice_index r.x 0 ≡ 0 };
}

impl Regs {
    ghost use Rattle.std.specs.Prelude.{◌≡◌, replicate};

    /// All registers 0, and the next instruction at the address `pc`.
    pub fn new(pc: u32) -> Self
        ensures { result ≡ record { x = replicate 32 0; pc = pc } }
    {
        Regs { x: [0; 32], pc }
    }

    /// The same registers. Takes no memory.
    pub fn copy(&self) -> Self
        ensures { result ≡ self.now }
    {
        Regs {
            x: self.x,
            pc: self.pc,
        }
    }
}

/// How a process ended: by its own exit status, by the code of a trap, by a signal, or because its
/// limit of instructions was used up.
#[derive(Clone, Copy, PartialEq, Eq, Debug)]
pub enum End {
    Exit(u8),
    Trap(u8),
    Killed(u8),
    Limit,
}

/// Whether a process runs, sends its last letters, or has ended.
#[derive(Clone, Copy, PartialEq, Eq, Debug)]
pub enum Status {
    Live,
    Closing(End),
    Ended(End),
}

/// What an end of a process is. It is open where it is a terminal or linked; `finished` says that the
/// end letter of the peer was read.
#[derive(Clone, Copy, PartialEq, Eq, Debug)]
pub enum EndState {
    Never,
    Tty(u8),
    Linked { peer: Pid, far: u8, finished: bool },
    Shut,
}

/// A process but for its memory and its mailbox: what a synchronisation sends in its last message.
#[derive(Drop)]
pub struct Small {
    pub pid: Pid,
    pub regs: Regs,
    pub ends: [EndState; 32],
    /// The address of the signal handler, or 0.
    pub handler: u32,
    /// The registers that the handler's return restores.
    pub frame: Option<Regs>,
    /// The instructions that it may still execute.
    pub left: u32,
    /// The steps that it has made.
    pub steps: u64,
    /// How many forks it and its children may still make.
    pub births: u8,
    pub status: Status,
    /// The pages of its memory, of 256 bytes.
    pub pages: u16,
}

impl Model for Small {
    ghost use Rattle.t32_base.specs.Small.{SmallState, IsBounded};

    ghost Value = { SmallState };

    ghost view = { λ s. record {
      pid = s.pid;
      regs = s.regs;
      ends = s.ends;
      handler = s.handler;
      frame = s.frame;
      left = s.left;
      steps = s.steps;
      births = s.births;
      status = s.status;
      pages = s.pages;
    } };

    ghost invariant = { λ s. IsBounded s.steps s.left s.ends s.status };
}

impl Small {
    ghost use Rattle.std.specs.Prelude.{◌≡◌};

    /// The same state. Takes no memory.
    pub fn copy(&self) -> Self
        ensures { result ≡ self.now }
    {
        Small {
            pid: self.pid,
            regs: self.regs.copy(),
            ends: self.ends,
            handler: self.handler,
            frame: copied_frame(&self.frame),
            left: self.left,
            steps: self.steps,
            births: self.births,
            status: self.status,
            pages: self.pages,
        }
    }
}

ghost use Rattle.std.specs.Prelude.{◌≡◌};

fn copied_frame(frame: &Option<Regs>) -> Option<Regs>
    ensures { result ≡ frame.now }
{
    match frame {
        Some(saved) => Some(saved.copy()),
        None => None,
    }
}

/// How many letters a process sent since its last synchronisation, by end, and how many signals.
#[derive(Clone, Copy, PartialEq, Eq, Debug)]
pub struct Counts {
    pub ends: [u32; 32],
    pub signals: u32,
}

/// When a process that lost its backup gets a new one: never (quarterback), once its lost cluster lives
/// again (halfback), or before it runs on (fullback).
#[derive(Clone, Copy, PartialEq, Eq, Debug)]
pub enum Mode {
    Quarter,
    Half,
    Full,
}
