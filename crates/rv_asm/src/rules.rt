//! The rules that a line may break.
ghost use Rattle.std.specs.Prelude.{◌≡◌, ◌+◌, ◌<◌, ◌≤◌, ◌^◌, IsTrue, IsFalse};
ghost use Rattle.std.specs.Option.{option_copied};
ghost use Rattle.rv_asm.specs.Labels.{entry_at, defined_in};
ghost use Rattle.std.specs.List.{All, Contains};
ghost use Rattle.rv_asm.specs.View.{seen};
ghost use Rattle.rv_asm.specs.Program.{address_after, is_near, reaches as reaches_in, defined_before as is_defined_before, broken_target, broken_by};

use crate::labels::{Labels, Place};
use crate::parsed::{Parsed, breaks_rule, size_of_statement, statement_or_nothing, target};
use crate::refusal::Rule;
use crate::statement::Statement;

/// Does an earlier line define the label that this line defines, which follows so many words?
fn defined_before(labels: &Labels<'_>, number: u64, words: u64, name: Option<&[u8]>) -> bool
    requires { All (Contains labels.now) (entry_at number words (option_copied name)) }
    ensures { result ≡ is_defined_before labels.now number (option_copied name.entry) }
{
    match name {
        Some(name) => labels.is_again(
            name,
            Place {
                line: number,
                words,
            },
        ),
        None => false,
    }
}

/// Can a branch go from after so many words to after so many?
fn branch_reaches(here: u64, there: u64) -> bool
    ensures { result ≡ is_near 4096 4094 (address_after here) (address_after there) }
{
    here.saturating_sub(there) <= 1024 && there.saturating_sub(here) < 1024
}

/// Can a jump go from after so many words to after so many?
fn jump_reaches(here: u64, there: u64) -> bool
    ensures { result ≡ is_near 1048576 1048574 (address_after here) (address_after there) }
{
    here.saturating_sub(there) <= 0x4_0000 && there.saturating_sub(here) < 0x4_0000
}

/// Can the statement, after so many words, go to after so many?
fn reaches(statement: Statement<'_>, here: u64, there: u64) -> bool
    ensures { result ≡ reaches_in (seen statement.entry) (address_after here) (address_after there) }
{
    match statement {
        Statement::BranchTo(_, _, _, _) => branch_reaches(here, there),
        Statement::JumpTo(_, _) => jump_reaches(here, there),
        _ => true,
    }
}

/// The rule on its label that the statement breaks: no line defines it, or it is too far away.
fn broken_target<'a>(labels: &Labels<'a>, statement: Statement<'a>, here: u64) -> Option<Rule>
    ensures { result ≡ broken_target labels.now (seen statement.entry) (address_after here) }
{
    let name = target(statement)?;
    match labels.value(name) {
        None => Some(Rule::NeverDefined),
        Some(place) => {
            if reaches(statement, here, place.words) {
                None
            } else {
                Some(Rule::TooFar)
            }
        }
    }
}

/// The lowest rule that a line breaks.
pub fn broken_rule<'a>(
    labels: &Labels<'a>,
    number: u64,
    words: u64,
    parsed: &Parsed<'a>,
) -> Option<Rule>
    requires room { words ≤ 16384 }
    requires own { All (Contains labels.now) (entry_at number words (defined_in parsed.now.line.now)) }
    ensures { result ≡ broken_by labels.now number words parsed.now.line.now }
{
    let statement = statement_or_nothing(parsed.statement);
    if !parsed.is_printable {
        Some(Rule::ForeignByte)
    } else if breaks_rule(parsed.statement, Rule::UnknownWord) {
        Some(Rule::UnknownWord)
    } else if parsed.has_bad_label || breaks_rule(parsed.statement, Rule::BadForm) {
        Some(Rule::BadForm)
    } else if breaks_rule(parsed.statement, Rule::NumberRange) {
        Some(Rule::NumberRange)
    } else if defined_before(labels, number, words, parsed.defines) {
        Some(Rule::DefinedTwice)
    } else if let Some(rule) = broken_target(labels, statement, words) {
        Some(rule)
    } else if size_of_statement(statement) as u64 > 16384 - words {
        Some(Rule::TooLong)
    } else {
        None
    }
}
