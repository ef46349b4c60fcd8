//! The lines of a text, the fields of a line, and the spaces round them.
ghost use Rattle.std.specs.Prelude.{◌≡◌, ◌<◌, ◌≤◌, ◌==◌, not, [], ◌∷◌, ◌++◌, length, take, drop, IfSome, MatchOption};
ghost use Rattle.text_parts.specs.Lines.{is_newline, is_space, is_printable, are_printable, lines_of, fields_of, before, from, trim_start as trimmed, trim_end as trimmed_end, trim as trimmed_both};

use memchr::memchr;

/// Is the byte one from 0x20 to 0x7E?
pub fn is_printable(byte: u8) -> bool
    ensures { result ≡ is_printable byte }
{
    byte >= 0x20 && byte <= 0x7E
}

/// Is each byte of the line one from 0x20 to 0x7E?
pub fn are_printable(line: &[u8]) -> bool
    ensures { result ≡ are_printable line.now }
{
    // No early exit, so that many bytes are tested at once.
    let mut all = true;
    for byte in line {
        all &= is_printable(*byte);
    }
    all
}

/// The text cut before the first such byte, or at its end.
pub fn cut_at(text: &[u8], byte: u8) -> (&[u8], &[u8])
    ensures before { result.0.now ≡ before (λ b. b == byte) text.now }
    ensures from { result.1.now ≡ from (λ b. b == byte) text.now }
{
    for (i, b) in text.iter().enumerate() {
        if *b == byte {
            return text.split_at(i);
        }
    }
    (text, &[])
}

/// The same, faster where such a byte is far away or there is none.
pub fn cut_far(text: &[u8], byte: u8) -> (&[u8], &[u8])
    ensures before { result.0.now ≡ before (λ b. b == byte) text.now }
    ensures from { result.1.now ≡ from (λ b. b == byte) text.now }
{
    match memchr(byte, text) {
        Some(at) => text.split_at(at),
        None => (text, &[]),
    }
}

/// The text without the spaces at its front.
pub fn trim_start(mut text: &[u8]) -> &[u8]
    ensures { result.now ≡ trimmed text.entry.now }
{
    while let [b' ', rest @ ..] = text {
        text = rest;
    }
    text
}

/// The text without the spaces at its end.
pub fn trim_end(mut text: &[u8]) -> &[u8]
    ensures { result.now ≡ trimmed_end text.entry.now }
{
    while let [rest @ .., b' '] = text {
        text = rest;
    }
    text
}

/// The text without the spaces at both ends.
pub fn trim(text: &[u8]) -> &[u8]
    ensures { result.now ≡ trimmed_both text.now }
{
    trim_end(trim_start(text))
}

/// The text cut before its first newline, or at its end.
fn cut_at_newline(text: &[u8]) -> (&[u8], &[u8])
    ensures before { result.0.now ≡ before is_newline text.now }
    ensures from { result.1.now ≡ from is_newline text.now }
{
    // Many lines are empty.
    if let [b'\n', ..] = text {
        return (&[], text);
    }
    cut_far(text, b'\n')
}

/// The first line of a text, without its end, and the text after it.
pub fn first_line(text: &[u8]) -> (&[u8], &[u8])
    requires { 0 < length text.now }
    ensures lines { lines_of text.now ≡ result.0.now ∷ lines_of result.1.now }
    ensures line { result.0.now ≡ before is_newline text.now }
    ensures rest { result.1.now ≡ drop 1 (from is_newline text.now) }
    ensures shorter { length result.1.now < length text.now }
{
    let (line, rest) = cut_at_newline(text);
    match rest {
        [] => (line, rest),
        [_, after @ ..] => (line, after),
    }
}

/// The text cut after so many lines: each part has the lines that stand in it.
pub fn split_lines(text: &[u8], count: u64) -> (&[u8], &[u8])
    requires { count ≤ length (lines_of text.now) }
    ensures front { lines_of result.0.now ≡ take count (lines_of text.now) }
    ensures rest { lines_of result.1.now ≡ drop count (lines_of text.now) }
    ensures whole { result.0.now ++ result.1.now ≡ text.now }
{
    let mut rest = text;
    for _ in 0..count {
        rest = first_line(rest).1;
    }
    text.split_at(text.len() - rest.len())
}

/// The first field of a line, and the line after it.
pub fn first_field(line: &[u8]) -> Option<(&[u8], &[u8])>
    ensures fields { MatchOption result (fields_of line.now ≡ []) (λ x. fields_of line.now ≡ x.0.now ∷ fields_of x.1.now) }
    ensures shorter { IfSome result (λ x. length x.1.now < length line.now) }
{
    let text = trim_start(line);
    if text.is_empty() {
        return None;
    }
    Some(cut_at(text, b' '))
}
