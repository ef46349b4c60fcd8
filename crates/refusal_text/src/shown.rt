//! A line of the input as it is shown to a person.
ghost use Rattle.std.specs.Prelude.{◌≡◌, IfOk, map, option_map, take};
ghost use Rattle.refusal_text.specs.Shown.{dots as dots_of, shown as shown_of, shown_where as shown_where_of, visible as visible_of};

use std::alloc::Global;
use t32_base::lists::{Bytes, Text};
use t32_base::streams::NoMemory;
use text_parts::is_printable;

// The most bytes of a line that are shown.
const MOST: usize = 100;

/// A line that is there, as it is shown: each byte outside 0x20 to 0x7E as `?`, and a long line cut.
pub fn shown_where(alloc: Global, line: Option<&[u8]>) -> Result<Option<Text>, NoMemory>
    ensures { IfOk result (λ r. r ≡ shown_where_of (option_map (λ s. s.now) line.entry)) }
{
    match line {
        Some(line) => Ok(Some(shown(alloc, line)?)),
        None => Ok(None),
    }
}

/// A line as it is shown.
pub fn shown(alloc: Global, line: &[u8]) -> Result<Text, NoMemory>
    ensures { IfOk result (λ text. text ≡ shown_of line.now) }
{
    let mut text = Bytes::from_vec(front(alloc, line)?);
    text.extend(dots(line).as_bytes())?;
    Ok(text)
}

fn front(alloc: Global, line: &[u8]) -> Result<Vec<u8>, NoMemory>
    ensures { IfOk result (λ v. v.items ≡ map visible_of (take 100 line.now)) }
{
    Ok(line.iter().take(MOST).map(|b| visible(*b)).collect(alloc)?)
}

fn visible(byte: u8) -> u8
    ensures { result ≡ visible_of byte }
{
    if is_printable(byte) { byte } else { b'?' }
}

fn dots(line: &[u8]) -> &'static str
    ensures { result.now ≡ dots_of line.now }
{
    if line.len() <= MOST { "" } else { " .." }
}
