//! Lines of a text by their shapes: in a shape `#` stands for a number, and each other byte for itself.
ghost use Rattle.std.specs.Prelude.{◌≡◌, length, map, option_map};
ghost use Rattle.text_parts.specs.Lines.{before, from};
ghost use Rattle.log_section.specs.Lines.{is_other, number_of, past_number, past_byte, past_sign, behind_line, behind_one, behind_count, behind_most};

use entry_lines::number_in;
use itoa::Buffer;

/// The sign of a shape that stands for a number.
const NUMBER: u8 = b'#';

// Is it no decimal digit?
fn is_other(byte: u8) -> bool
    ensures { result ≡ is_other byte }
{
    !(byte >= b'0' && byte <= b'9')
}

// The text cut before the first byte that is no digit.
fn cut_digits(text: &[u8]) -> (&[u8], &[u8])
    ensures digits { result.0.now ≡ before is_other text.now }
    ensures rest { result.1.now ≡ from is_other text.now }
{
    for (i, byte) in text.iter().enumerate() {
        if is_other(*byte) {
            return text.split_at(i);
        }
    }
    (text, &[])
}

// The number below 2^64 that is printed like this.
fn exact_number(digits: &[u8]) -> Option<u64>
    ensures { result ≡ number_of digits.now }
{
    let number = number_in(digits);
    let mut buffer = Buffer::new();
    if buffer.format(number).as_bytes() == digits {
        Some(number)
    } else {
        None
    }
}

fn past_number(text: &[u8]) -> Option<(u64, &[u8])>
    ensures { option_map (λ x. (x.0, x.1.now)) result ≡ past_number text.now }
{
    let (digits, rest) = cut_digits(text);
    match exact_number(digits) {
        Some(number) => Some((number, rest)),
        None => None,
    }
}

fn past_byte(sign: u8, last: u64, text: &[u8]) -> Option<(u64, &[u8])>
    ensures { option_map (λ x. (x.0, x.1.now)) result ≡ past_byte sign last text.now }
{
    match text {
        [byte, rest @ ..] if *byte == sign => Some((last, rest)),
        _ => None,
    }
}

// Behind one sign of a shape: the number that was read last, and the text that is left.
fn past_sign(sign: u8, last: u64, text: &[u8]) -> Option<(u64, &[u8])>
    ensures { option_map (λ x. (x.0, x.1.now)) result ≡ past_sign sign (last, text.now) }
{
    if sign == NUMBER {
        past_number(text)
    } else {
        past_byte(sign, last, text)
    }
}

/// The last number of a line of this shape, or 0 where it has none, and the text behind the line, if the text begins
/// with one.
pub fn behind_line<'a>(shape: &[u8], text: &'a [u8]) -> Option<(u64, &'a [u8])>
    ensures { option_map (λ x. (x.0, x.1.now)) result ≡ behind_line shape.now text.now }
{
    let mut last = 0;
    let mut rest = text;
    for sign in shape {
        match past_sign(*sign, last, rest) {
            Some((number, after)) => {
                last = number;
                rest = after;
            }
            None => return None,
        }
    }
    Some((last, rest))
}

/// The text behind a line of one of these shapes, if the text begins with one.
pub fn behind_one<'a>(shapes: &[&[u8]], text: &'a [u8]) -> Option<&'a [u8]>
    ensures { option_map (λ s. s.now) result ≡ behind_one (map (λ s. s.now) shapes.now) text.now }
{
    for shape in shapes {
        if let Some((_, rest)) = behind_line(shape, text) {
            return Some(rest);
        }
    }
    None
}

/// The text behind so many lines of these shapes.
pub fn behind_count<'a>(shapes: &[&[u8]], count: u64, text: &'a [u8]) -> Option<&'a [u8]>
    ensures { option_map (λ s. s.now) result ≡ behind_count (behind_one (map (λ s. s.now) shapes.now)) count text.now }
{
    let mut rest = text;
    for _ in 0..count {
        match behind_one(shapes, rest) {
            Some(after) => rest = after,
            None => return None,
        }
    }
    Some(rest)
}

/// The text behind all lines of these shapes in front of it, of which there are at most as many as bytes.
pub fn behind_all<'a>(shapes: &[&[u8]], text: &'a [u8]) -> &'a [u8]
    ensures { result.now ≡ behind_most (behind_one (map (λ s. s.now) shapes.now)) (length text.now) text.now }
{
    let mut rest = text;
    for _ in 0..text.len() {
        match behind_one(shapes, rest) {
            Some(after) => rest = after,
            None => return rest,
        }
    }
    rest
}
