//! What is said of a refused line of a system text beside its rule: a guess at what is meant, or its field and the limit of that.
ghost use Rattle.std.specs.Prelude.{◌≡◌, ◌++◌, IfOk, option_map};
ghost use Rattle.text_parts.specs.Lines.{fields_of, lines_of};
ghost use Rattle.hints.specs.Fields.{bad_of};
ghost use Rattle.hints.specs.Said.{bad_among, bad_in, field_hint as field_hint_of, field_text, guess_text, head_of, system_hint as system_hint_of};

use crate::fields::{Bad, clusters_of, first_bad};
use crate::guesses::{Guess, guess_of};
use crate::said::{head, put_field, put_guess};
use refusal_text::lines::line_after;
use std::alloc::Global;
use sys_text::keyword_named;
use t32_base::lists::Text;
use t32_base::streams::NoMemory;
use text_parts::first_field;

/// What is said of the line with this number, which is refused by this rule, in one line; `None` where there is nothing to say.
pub fn system_hint(
    alloc: Global,
    text: &[u8],
    line: u64,
    rule: u8,
) -> Result<Option<Text>, NoMemory>
    ensures { IfOk result (λ hint. hint ≡ system_hint_of (lines_of text.now) line rule) }
{
    match guess_of(text, line, rule) {
        Some(guess) => Ok(Some(guessed(alloc, line, rule, guess)?)),
        None => field_hint(alloc, text, line, rule),
    }
}

fn guessed(alloc: Global, line: u64, rule: u8, guess: Guess) -> Result<Text, NoMemory>
    ensures { IfOk result (λ hint. hint ≡ head_of line rule ++ guess_text guess) }
{
    let mut hint = head(alloc, line, rule)?;
    put_guess(alloc, &mut hint, guess)?;
    Ok(hint)
}

fn field_hint(alloc: Global, text: &[u8], line: u64, rule: u8) -> Result<Option<Text>, NoMemory>
    ensures { IfOk result (λ hint. hint ≡ field_hint_of (lines_of text.now) line rule) }
{
    let clusters = clusters_of(text);
    match bad_in(rule, clusters, line_after(text, line.saturating_sub(1))) {
        Some(bad) => Ok(Some(told(alloc, line, rule, clusters, bad)?)),
        None => Ok(None),
    }
}

fn told(alloc: Global, line: u64, rule: u8, clusters: u64, bad: Bad<'_>) -> Result<Text, NoMemory>
    ensures { IfOk result (λ hint. hint ≡ head_of line rule ++ field_text rule clusters (bad_of bad.entry)) }
{
    let mut hint = head(alloc, line, rule)?;
    put_field(alloc, &mut hint, rule, clusters, bad)?;
    Ok(hint)
}

fn bad_in(rule: u8, clusters: u64, line: Option<&[u8]>) -> Option<Bad<'_>>
    ensures { option_map bad_of result ≡ bad_in rule clusters (option_map (λ s. s.now) line.entry) }
{
    bad_among(rule, clusters, line?)
}

fn bad_among(rule: u8, clusters: u64, line: &[u8]) -> Option<Bad<'_>>
    ensures { option_map bad_of result ≡ bad_among rule clusters (fields_of line.now) }
{
    let (first, rest) = first_field(line)?;
    let keyword = keyword_named(first)?;
    first_bad(rule, keyword, clusters, rest)
}
