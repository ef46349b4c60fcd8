//! Which field of a line of a system text breaks rule 4 or 5.
ghost use Rattle.std.specs.Prelude.{◌≡◌, ◌||◌, ◌==◌, codes, is_none, is_some, length, option_map};
ghost use Rattle.std.specs.Str.{bytes_eq};
ghost use Rattle.text_parts.specs.Lines.{fields_of, lines_of};
ghost use Rattle.text_parts.specs.Numbers.{number_of, word_of};
ghost use Rattle.hints.specs.Fields.{bad_of, breaks as breaks_rule, clusters_in as clusters_in_fields, clusters_of as clusters_of_lines, exceeds as exceeds_limits, first_bad as first_bad_of, is_outside as is_outside_of, is_what as is_what_of};

use crate::kinds::{Field, Wanted, field_at};
use sys_text::valid::is_name;
use sys_text::{Keyword, mode_named};
use text_parts::{first_field, first_line, number, word};

/// A field that breaks a rule, and its text.
#[derive(Clone, Copy)]
pub struct Bad<'a> {
    pub field: Field,
    pub text: &'a [u8],
}

/// The first field of these, which stand behind the first of their line, that breaks the rule, 4 or 5.
pub fn first_bad(rule: u8, keyword: Keyword, clusters: u64, fields: &[u8]) -> Option<Bad<'_>>
    ensures { option_map bad_of result ≡ first_bad_of rule keyword clusters 0 (fields_of fields.now) }
{
    let mut rest = fields;
    let mut index = 0u64;
    'fields: while let Some((text, after)) = first_field(rest) {
        if let Some(field) = field_at(keyword, index) {
            if breaks(rule, field, clusters, text) {
                return Some(Bad { field, text });
            }
        }
        index += 1;
        rest = after;
    }
    None
}

// Does the text of a field break the rule?
fn breaks(rule: u8, field: Field, clusters: u64, text: &[u8]) -> bool
    ensures { result ≡ breaks_rule rule clusters field text.now }
{
    match rule {
        4 => !is_what(field.wanted(), text),
        5 => exceeds(field.limits(clusters), text),
        _ => false,
    }
}

// Is the text what the field has to be?
fn is_what(wanted: Wanted, text: &[u8]) -> bool
    ensures { result ≡ is_what_of wanted text.now }
{
    match wanted {
        Wanted::Number => number(text).is_some(),
        Wanted::Name => is_name(text),
        Wanted::Word => word(text).is_some(),
        Wanted::Mode => mode_named(text).is_some(),
    }
}

// Is the text a number outside its limits?
fn exceeds(limits: Option<(u64, u64)>, text: &[u8]) -> bool
    ensures { result ≡ exceeds_limits limits text.now }
{
    match (limits, number(text)) {
        (Some((low, high)), Some(value)) => is_outside(low, high, value),
        _ => false,
    }
}

fn is_outside(low: u64, high: u64, value: u64) -> bool
    ensures { result ≡ is_outside_of low high value }
{
    value < low || high < value
}

/// How many clusters the first line `clusters N` of a text tells; 0 where none does.
pub fn clusters_of(text: &[u8]) -> u64
    ensures { result ≡ clusters_of_lines (lines_of text.now) }
{
    let mut rest = text;
    while !rest.is_empty() {
        let (line, after) = first_line(rest);
        if let Some(count) = clusters_in(line) {
            return count;
        }
        rest = after;
    }
    0
}

fn clusters_in(line: &[u8]) -> Option<u64>
    ensures { result ≡ clusters_in_fields (fields_of line.now) }
{
    let (first, rest) = first_field(line)?;
    let (count, _) = first_field(rest)?;
    if is_clusters(first) {
        number(count)
    } else {
        None
    }
}

fn is_clusters(field: &[u8]) -> bool
    ensures { result ≡ bytes_eq field.now (codes "clusters") }
{
    field == b"clusters".as_slice()
}
