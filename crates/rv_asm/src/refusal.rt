//! Why a program is refused.
ghost use Rattle.std.specs.Prelude.{◌≡◌};
ghost use Rattle.rv_asm.specs.declared.refusal.AsmRefused.TheVariants.{NoMemory as WantOfMemory};

use std::alloc::{AllocError, AllocFailed};
use t32_base::streams::NoMemory;
use thiserror::Error;

/// A rule that a line may break, by its number.
#[derive(Clone, Copy)]
pub enum Rule {
    /// A byte outside 0x20 to 0x7E.
    ForeignByte = 1,
    /// No statement has this word.
    UnknownWord = 2,
    /// The operands are not those of the statement, or the label is no name.
    BadForm = 3,
    /// A number is outside its range.
    NumberRange = 4,
    /// An earlier line defines the label.
    DefinedTwice = 5,
    /// No line defines the label.
    NeverDefined = 6,
    /// A target is too far from its branch or jump.
    TooFar = 7,
    /// The words up to this line are more than a program may have.
    TooLong = 8,
}

impl Rule {
    ghost use Rattle.rv_asm.specs.Refusal.{number_of_rule};

    /// The number of the rule.
    pub fn number(self) -> u8
        ensures { result ≡ number_of_rule self }
    {
        self as u8
    }
}

/// Why a program is refused.
#[derive(Clone, Copy, Debug, PartialEq, Eq, Error)]
pub enum AsmRefused {
    /// The first line that breaks a rule, and the number of the lowest rule that it breaks.
    #[error("line {line} breaks rule {rule}: {broken}", broken = broken_text(*.rule))]
    Line { line: u64, rule: u8 },
    #[error("memory was refused")]
    NoMemory,
}

/// What is wrong with a line that breaks this rule.
fn broken_text(rule: u8) -> &'static str {
    match rule {
        1 => "it has a byte outside 0x20 to 0x7E",
        2 => "no statement has this word",
        3 => "its operands are not those of the statement, or its label is no name",
        4 => "a number is outside its range",
        5 => "an earlier line defines the same label",
        6 => "no line defines the label that it names",
        7 => "the label is too far from the branch or the jump",
        _ => "the program is longer than 16384 words",
    }
}

impl From<NoMemory> for AsmRefused {
    ghost from_gives = { λ _ e. e ≡ WantOfMemory };

    fn from(_: NoMemory) -> AsmRefused {
        AsmRefused::NoMemory
    }
}

impl From<AllocError> for AsmRefused {
    ghost from_gives = { λ _ e. e ≡ WantOfMemory };

    fn from(_: AllocError) -> AsmRefused {
        AsmRefused::NoMemory
    }
}

impl<T: Drop> From<AllocFailed<T>> for AsmRefused {
    ghost from_gives = { λ _ e. e ≡ WantOfMemory };

    fn from(_: AllocFailed<T>) -> AsmRefused {
        AsmRefused::NoMemory
    }
}
