//! The words of a guess, and of a field that breaks a rule.
ghost use Rattle.std.specs.Prelude.{◌≡◌, ◌++◌, IfOk, OnOk, Some};
ghost use Rattle.hints.specs.Fields.{bad_of};
ghost use Rattle.hints.specs.Said.{field_text as field_text_of, guess_text as guess_text_of, head_of, limits_text as limits_text_of, wanted_text as wanted_text_of};

use crate::fields::Bad;
use crate::guesses::Guess;
use crate::kinds::Wanted;
use refusal_text::shown::shown;
use std::alloc::Global;
use t32_base::lists::{Bytes, Text};
use t32_base::streams::NoMemory;

/// The front of what is said of a line that is refused by this rule.
pub fn head(alloc: Global, line: u64, rule: u8) -> Result<Text, NoMemory>
    ensures { IfOk result (λ text. text ≡ head_of line rule) }
{
    let head = format!(in alloc; "t32: line {line}: rule {rule}: ")?;
    Bytes::copy_of(alloc, head.as_bytes())
}

/// Puts what is guessed behind the front, and ends the line.
pub fn put_guess(alloc: Global, text: &mut Text, guess: Guess) -> Result<(), NoMemory>
    ensures { OnOk result (text.new ≡ text.old ++ guess_text_of guess) }
{
    match guess {
        Guess::Comment => text.extend(
            b"# begins no comment here; outside asm blocks a comment is a line of its own\n",
        ),
        Guess::EndWithMore => text.extend(b"a block ends at a line whose only field is end\n"),
        Guess::InBlock { header } => put_in_block(alloc, text, header),
        Guess::NoEnd { header } => put_no_end(alloc, text, header),
        Guess::NoEndBefore { header, line } => put_no_end_before(alloc, text, header, line),
    }
}

fn put_in_block(alloc: Global, text: &mut Text, header: u64) -> Result<(), NoMemory>
    ensures { OnOk result (text.new ≡ text.old ++ guess_text_of (Guess.InBlock header)) }
{
    let said = format!(in alloc; "the block that line {header} opens may lack its end\n")?;
    text.extend(said.as_bytes())
}

fn put_no_end(alloc: Global, text: &mut Text, header: u64) -> Result<(), NoMemory>
    ensures { OnOk result (text.new ≡ text.old ++ guess_text_of (Guess.NoEnd header)) }
{
    let said = format!(in alloc; "the block that line {header} opens has no end\n")?;
    text.extend(said.as_bytes())
}

fn put_no_end_before(alloc: Global, text: &mut Text, header: u64, line: u64) -> Result<(), NoMemory>
    ensures { OnOk result (text.new ≡ text.old ++ guess_text_of (Guess.NoEndBefore header line)) }
{
    let said = format!(in alloc;
        "the block that line {header} opens has no end, a line whose only field is end; maybe at line {line}\n"
    )?;
    text.extend(said.as_bytes())
}

/// Puts the field that breaks rule 4 or 5, and what it has to be, behind the front, and ends the line.
pub fn put_field(
    alloc: Global,
    text: &mut Text,
    rule: u8,
    clusters: u64,
    bad: Bad<'_>,
) -> Result<(), NoMemory>
    ensures { OnOk result (text.new ≡ text.old ++ field_text_of rule clusters (bad_of bad.entry)) }
{
    text.extend(bad.field.name().as_bytes())?;
    text.extend(b" is ")?;
    text.extend(shown(alloc, bad.text)?.as_slice())?;
    if rule == 4 {
        put_wanted(text, bad.field.wanted())
    } else {
        put_limits(alloc, text, bad.field.limits(clusters))
    }
}

fn put_wanted(text: &mut Text, wanted: Wanted) -> Result<(), NoMemory>
    ensures { OnOk result (text.new ≡ text.old ++ wanted_text_of wanted) }
{
    match wanted {
        Wanted::Number => text.extend(b"; it has to be a number of 1 to 10 digits\n"),
        Wanted::Name => text.extend(
            b"; it has to be a name, a letter a to z and up to 15 letters a to z or digits\n",
        ),
        Wanted::Word => text.extend(b"; it has to be a word, eight hexadecimal digits\n"),
        Wanted::Mode => text.extend(b"; it has to be quarter, half or full\n"),
    }
}

fn put_limits(alloc: Global, text: &mut Text, limits: Option<(u64, u64)>) -> Result<(), NoMemory>
    ensures { OnOk result (text.new ≡ text.old ++ limits_text_of limits) }
{
    match limits {
        Some((low, high)) => put_low_and_high(alloc, text, low, high),
        None => text.extend(b"; it has no limits\n"),
    }
}

fn put_low_and_high(alloc: Global, text: &mut Text, low: u64, high: u64) -> Result<(), NoMemory>
    ensures { OnOk result (text.new ≡ text.old ++ limits_text_of (Some (low, high))) }
{
    let said = format!(in alloc; "; it may be {low} to {high}\n")?;
    text.extend(said.as_bytes())
}
