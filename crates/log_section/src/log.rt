//! The log of a section.
ghost use Rattle.std.specs.Prelude.{◌≡◌, drop, IfOk};
ghost use Rattle.std.specs.Option.{option_and_then};
ghost use Rattle.entry_lines.specs.Reading.{told_in};
ghost use Rattle.log_section.specs.Form.{Answers, ended_line, told_lines, form_of, IsForm};

use crate::form::log_part;
use crate::refusal::SectionRefused;
use entry_lines::{Told, read_told};
use std::alloc::Global;
use t32_base::lists::List;
use t32_base::streams::NoMemory;
use text_parts::cut_far;

// What a line of an entry says.
fn told(alloc: Global, line: &[u8], end: &[u8]) -> Result<Option<Told>, NoMemory>
    ensures { IfOk result (λ told. told ≡ option_and_then told_in (ended_line line.now end.now)) }
{
    match end {
        [] => Ok(None),
        _ => read_told(alloc, line),
    }
}

// The text behind the line feed that it begins with.
fn behind_first(end: &[u8]) -> &[u8]
    ensures { result.now ≡ drop 1 end.now }
{
    match end {
        [] => end,
        [_, rest @ ..] => rest,
    }
}

// What so many lines say, and nothing behind them.
fn told_lines(alloc: Global, count: u64, text: &[u8]) -> Result<List<Told>, SectionRefused>
    ensures { Answers (told_lines count text.now) result }
{
    let mut found = List::new(alloc);
    let mut rest = text;
    for _ in 0..count {
        let (line, end) = cut_far(rest, b'\n');
        let Some(told) = told(alloc, line, end)? else {
            return Err(SectionRefused::Form);
        };
        found.push(told)?;
        rest = behind_first(end);
    }
    if rest.is_empty() {
        Ok(found)
    } else {
        Err(SectionRefused::Form)
    }
}

/// What the lines of the log of a section say, in order. A section is the report of a run with its log: terminals with
/// as many bytes as their lines tell, processes, losses, the line `bus`, as many items as the line `schedule` tells, and
/// as many lines of entries as the line `log` tells. Its numbers may be any below 2^64, without leading zeros.
pub fn read_section(alloc: Global, section: &[u8]) -> Result<List<Told>, SectionRefused>
    // The section is of the form, and its log says this.
    ensures log { IfOk result (IsForm section.now) }
    // It is refused where it is of no such form, or for want of memory.
    ensures exact { Answers (form_of section.now) result }
{
    match log_part(section) {
        Some((count, rest)) => told_lines(alloc, count, rest),
        None => Err(SectionRefused::Form),
    }
}
