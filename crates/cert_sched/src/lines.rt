//! The lines of a schedule section that are not skipped.
ghost use Rattle.std.specs.Prelude.{◌≡◌, ◌∷◌, [], MatchOption};
ghost use Rattle.text_parts.specs.Lines.{fields_of};
ghost use Rattle.cert_sched.specs.Lines.{begins_comment, is_skipped, kept_lines};

use text_parts::{first_field, first_line};

/// Is the first byte of the field a `#`?
fn begins_comment(field: &[u8]) -> bool
    ensures { result ≡ begins_comment field.now }
{
    match field {
        [b'#', ..] => true,
        _ => false,
    }
}

/// Is the line skipped, since it has no field or is a comment?
fn is_skipped(line: &[u8]) -> bool
    ensures { result ≡ is_skipped (fields_of line.now) }
{
    match first_field(line) {
        None => true,
        Some((field, _)) => begins_comment(field),
    }
}

/// The first line that is not skipped, and the text after it.
pub fn next_line(text: &[u8]) -> Option<(&[u8], &[u8])>
    ensures { MatchOption result (kept_lines text.now ≡ []) (λ x. kept_lines text.now ≡ fields_of x.0.now ∷ kept_lines x.1.now) }
{
    let mut rest = text;
    while !rest.is_empty() {
        let (line, after) = first_line(rest);
        if !is_skipped(line) {
            return Some((line, after));
        }
        rest = after;
    }
    None
}
