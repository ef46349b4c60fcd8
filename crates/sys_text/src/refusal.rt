//! Why a system text is refused.
ghost use Rattle.std.specs.Prelude.{◌≡◌};
ghost use Rattle.sys_text.specs.declared.refusal.SystemRefused.TheVariants.{NoMemory as WantOfMemory};

use std::alloc::{AllocError, AllocFailed};
use t32_base::streams::NoMemory;
use thiserror::Error;

/// A rule that a line may break, by its number.
#[derive(Clone, Copy)]
pub enum Rule {
    /// A byte outside 0x20 to 0x7E.
    ForeignByte,
    /// The first field may not stand here.
    Misplaced,
    /// The number of fields is wrong.
    FieldCount,
    /// A field is no number, name, word or mode.
    FieldKind,
    /// A number is outside its limit.
    Limit,
    /// Two clusters or two roots are the same.
    Same,
    /// A name is used twice, or what is named is not there.
    Name,
    /// The words, the processes or the ends are too many, or the words are not those of the file.
    Room,
    /// The assembler refuses the line.
    Assembler,
    /// The text ends too early.
    Ended,
    /// The file breaks this rule.
    Elf(rv_elf::Rule),
}

impl Rule {
    ghost use Rattle.sys_text.specs.Refusal.{number_of_rule};

    /// The number of the rule.
    pub fn number(self) -> u8
        ensures { result ≡ number_of_rule self }
    {
        match self {
            Rule::ForeignByte => 1,
            Rule::Misplaced => 2,
            Rule::FieldCount => 3,
            Rule::FieldKind => 4,
            Rule::Limit => 5,
            Rule::Same => 6,
            Rule::Name => 7,
            Rule::Room => 8,
            Rule::Assembler => 9,
            Rule::Ended => 10,
            Rule::Elf(rule) => 10 + rule.number(),
        }
    }
}

/// Why a system text is refused.
#[derive(Clone, Copy, Debug, PartialEq, Eq, Error)]
pub enum SystemRefused {
    /// The first line that breaks a rule, and the number of the lowest rule that it breaks.
    #[error("line {line} breaks rule {rule}: {broken}", broken = broken_text(*.rule))]
    BadLine { line: u64, rule: u8 },
    #[error("memory was refused")]
    NoMemory,
}

/// What is wrong with a line that breaks this rule.
fn broken_text(rule: u8) -> &'static str {
    match rule {
        1 => "it has a byte outside 0x20 to 0x7E",
        2 => "no line with this first field may stand here",
        3 => "it has too few or too many fields",
        4 => "a field is no number, name, word or mode where one must stand",
        5 => "a number is outside its limit",
        6 => "its two clusters or its two roots are the same",
        7 => "its image name is used twice, or its image or root is not there",
        8 =>
            "it has more words, processes or ends than there is room for, or not the words of its file",
        9 => "the assembler refuses it",
        10 => "the text ends before its first root, or inside a block",
        11 => "its file is too short, or does not begin as an ELF file",
        12 => "its file has numbers that are not of 32 bits, lowest byte first",
        13 => "its file is no executable for RISC-V",
        14 => "its file has compressed code",
        15 =>
            "the table of program headers is not in its file, or has rows that are not of 32 bytes",
        16 => "its file is to be linked when it is loaded",
        17 => "a segment of its file has more bytes than memory, or bytes that are not in the file",
        18 => "a segment of its file is not in memory",
        19 => "two segments of its file have a byte of memory in common",
        _ =>
            "the first instruction of its file is not in memory, or has an address that is no multiple of 4",
    }
}

impl From<NoMemory> for SystemRefused {
    ghost from_gives = { λ _ e. e ≡ WantOfMemory };

    fn from(_: NoMemory) -> SystemRefused {
        SystemRefused::NoMemory
    }
}

impl From<AllocError> for SystemRefused {
    ghost from_gives = { λ _ e. e ≡ WantOfMemory };

    fn from(_: AllocError) -> SystemRefused {
        SystemRefused::NoMemory
    }
}

impl<T: Drop> From<AllocFailed<T>> for SystemRefused {
    ghost from_gives = { λ _ e. e ≡ WantOfMemory };

    fn from(_: AllocFailed<T>) -> SystemRefused {
        SystemRefused::NoMemory
    }
}
