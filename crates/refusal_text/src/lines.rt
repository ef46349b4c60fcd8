//! A line of a text by its place.
ghost use Rattle.std.specs.Prelude.{◌≡◌, ◌+◌, drop, length, option_map};
ghost use Rattle.std.specs.List.{slice_get};
ghost use Rattle.text_parts.specs.Lines.{fields_of, lines_of};
ghost use Rattle.sys_text.specs.Rules.{begins_comment as begins_comment_of, is_skipped as is_skipped_line};
ghost use Rattle.text_parts.specs.Numbers.{number_of};
ghost use Rattle.refusal_text.specs.Lines.{begins_well as begins_well_by, is_count as is_count_of, is_schedule_line as is_schedule_line_of, item_at, kept};

use text_parts::{first_field, first_line, number};

/// The line after so many.
pub fn line_after(text: &[u8], count: u64) -> Option<&[u8]>
    ensures { option_map (λ s. s.now) result ≡ slice_get (lines_of text.now) count }
{
    let mut rest = text;
    let mut left = count;
    while !rest.is_empty() {
        let (line, after) = first_line(rest);
        if left == 0 {
            return Some(line);
        }
        left -= 1;
        rest = after;
    }
    None
}

/// The line of an item of a schedule section. The items stand behind its first line, and are counted from 0.
pub fn item_line(section: &[u8], index: u64) -> Option<&[u8]>
    ensures { option_map (λ s. s.now) result ≡ item_at (lines_of section.now) index }
{
    kept_line(behind_first(section), index)
}

/// The number of the line behind a text, counted from 1.
pub fn line_behind(text: &[u8]) -> u64
    ensures { result ≡ length (lines_of text.now) + 1 }
{
    let mut rest = text;
    let mut number = 1u64;
    while !rest.is_empty() {
        number += 1;
        rest = first_line(rest).1;
    }
    number
}

/// Is the first line of a schedule section `schedule N`?
pub fn begins_well(section: &[u8]) -> bool
    ensures { result ≡ begins_well_by (lines_of section.now) }
{
    match line_after(section, 0) {
        Some(line) => is_schedule_line(line),
        None => false,
    }
}

fn is_schedule_line(line: &[u8]) -> bool
    ensures { result ≡ is_schedule_line_of (fields_of line.now) }
{
    let Some((_, rest)) = first_field(line) else {
        return false;
    };
    let Some((count, rest)) = first_field(rest) else {
        return false;
    };
    match first_field(rest) {
        Some(_) => false,
        None => is_count(count),
    }
}

// Is it a number below 2^32?
fn is_count(field: &[u8]) -> bool
    ensures { result ≡ is_count_of (number_of field.now) }
{
    match number(field) {
        Some(count) => count < 0x1_0000_0000,
        None => false,
    }
}

// What stands behind the first line that is not skipped.
fn behind_first(text: &[u8]) -> &[u8]
    ensures { kept (lines_of result.now) ≡ drop 1 (kept (lines_of text.now)) }
{
    let mut rest = text;
    while !rest.is_empty() {
        let (line, after) = first_line(rest);
        rest = after;
        if !is_skipped(line) {
            return rest;
        }
    }
    rest
}

// The line after so many that are not skipped, which is not skipped itself.
fn kept_line(text: &[u8], count: u64) -> Option<&[u8]>
    ensures { option_map (λ s. s.now) result ≡ slice_get (kept (lines_of text.now)) count }
{
    let mut rest = text;
    let mut left = count;
    while !rest.is_empty() {
        let (line, after) = first_line(rest);
        rest = after;
        if is_skipped(line) {
            continue;
        }
        if left == 0 {
            return Some(line);
        }
        left -= 1;
    }
    None
}

fn is_skipped(line: &[u8]) -> bool
    ensures { result ≡ is_skipped_line (fields_of line.now) }
{
    match first_field(line) {
        None => true,
        Some((field, _)) => begins_comment(field),
    }
}

fn begins_comment(field: &[u8]) -> bool
    ensures { result ≡ begins_comment_of field.now }
{
    match field {
        [b'#', ..] => true,
        _ => false,
    }
}
