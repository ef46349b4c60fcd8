//! Why a file is refused.
ghost use Rattle.std.specs.Prelude.{◌≡◌};
ghost use Rattle.rv_elf.specs.declared.refusal.ElfRefused.TheVariants.{NoMemory as WantOfMemory};

use std::alloc::{AllocError, AllocFailed};
use t32_base::streams::NoMemory;
use thiserror::Error;

/// A rule that a file may break, by its number.
#[derive(Clone, Copy)]
pub enum Rule {
    /// It is too short for a file header, or does not begin as an ELF file.
    NoElf = 1,
    /// Its numbers are not of 32 bits, lowest byte first.
    Class = 2,
    /// It is no executable for RISC-V.
    Machine = 3,
    /// It has compressed code.
    Compressed = 4,
    /// Its table of program headers is not in the file, or has rows of another size.
    Table = 5,
    /// It is to be linked when it is loaded.
    Dynamic = 6,
    /// A segment has more bytes than memory, or bytes that are not in the file.
    FileBytes = 7,
    /// A segment is not in memory.
    Outside = 8,
    /// Two segments have a byte of memory in common.
    Overlap = 9,
    /// The first instruction is not in memory, or its address is no multiple of 4.
    Entry = 10,
}

impl Rule {
    ghost use Rattle.rv_elf.specs.Refusal.{number_of_rule};

    /// The number of the rule.
    pub fn number(self) -> u8
        ensures { result ≡ number_of_rule self }
    {
        self as u8
    }
}

/// Why a file is refused.
#[derive(Clone, Copy, Debug, PartialEq, Eq, Error)]
pub enum ElfRefused {
    /// The number of the lowest rule that it breaks.
    #[error("the file breaks rule {0}: {broken}", broken = broken_text(*.0))]
    Rule(u8),
    #[error("memory was refused")]
    NoMemory,
}

/// What is wrong with a file that breaks this rule.
fn broken_text(rule: u8) -> &'static str {
    match rule {
        1 => "it is too short, or does not begin as an ELF file",
        2 => "its numbers are not of 32 bits, lowest byte first",
        3 => "it is no executable for RISC-V",
        4 => "it has compressed code",
        5 =>
            "its table of program headers is not in the file, or has rows that are not of 32 bytes",
        6 => "it is to be linked when it is loaded",
        7 => "a segment has more bytes than memory, or bytes that are not in the file",
        8 => "a segment is not in memory",
        9 => "two segments have a byte of memory in common",
        _ => "its first instruction is not in memory, or has an address that is no multiple of 4",
    }
}

impl From<NoMemory> for ElfRefused {
    ghost from_gives = { λ _ e. e ≡ WantOfMemory };

    fn from(_: NoMemory) -> ElfRefused {
        ElfRefused::NoMemory
    }
}

impl From<AllocError> for ElfRefused {
    ghost from_gives = { λ _ e. e ≡ WantOfMemory };

    fn from(_: AllocError) -> ElfRefused {
        ElfRefused::NoMemory
    }
}

impl<T: Drop> From<AllocFailed<T>> for ElfRefused {
    ghost from_gives = { λ _ e. e ≡ WantOfMemory };

    fn from(_: AllocFailed<T>) -> ElfRefused {
        ElfRefused::NoMemory
    }
}
