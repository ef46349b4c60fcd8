//! Texts in quotes.
ghost use Rattle.std.specs.Prelude.{◌≡◌, ◌≤◌, ◌++◌, List, length, false, OnOk, IfOk, IsOk, MatchOption, IfSome};
ghost use Rattle.std.specs.Option.{option_copied, option_map, option_to_list};
ghost use Rattle.rv_asm.specs.Quoted.{quoted as quoted_in, escaped_byte as escaped_in, spelled as spelled_in, is_quote as is_quote_in, escapes as escapes_in, text_from};

use std::alloc::{AllocError, Global};

/// The text from after its first quote on.
pub fn quoted(text: &[u8]) -> Option<&[u8]>
    ensures { option_copied result ≡ quoted_in text.now }
{
    match text {
        [b'"', rest @ ..] => Some(rest),
        _ => None,
    }
}

/// The byte that a byte after a backslash stands for.
fn escaped_byte(byte: u8) -> Option<u8>
    ensures { result ≡ escaped_in byte }
{
    match byte {
        b'n' => Some(b'\n'),
        b'\\' => Some(b'\\'),
        b'"' => Some(b'"'),
        _ => None,
    }
}

/// The byte that a byte adds, if it adds one; `None` where it may not stand there.
fn spelled(escaped: bool, byte: u8) -> Option<Option<u8>>
    ensures { result ≡ spelled_in escaped byte }
{
    if escaped {
        let byte = escaped_byte(byte)?;
        Some(Some(byte))
    } else if byte == b'\\' {
        Some(None)
    } else {
        Some(Some(byte))
    }
}

/// Does the byte end the text?
fn is_quote(escaped: bool, byte: u8) -> bool
    ensures { result ≡ is_quote_in escaped byte }
{
    !escaped && byte == b'"'
}

/// Is the byte after this one escaped?
fn escapes(escaped: bool, byte: u8) -> bool
    ensures { result ≡ escapes_in escaped byte }
{
    !escaped && byte == b'\\'
}

/// How many bytes that is.
fn count_of(byte: Option<u8>) -> usize
    ensures count { result ≡ length (option_to_list byte) }
    ensures small { result ≤ 1 }
{
    match byte {
        Some(_) => 1,
        None => 0,
    }
}

/// How many bytes a text stands for; `None` where it is malformed.
pub fn text_len(text: &[u8]) -> Option<usize>
    ensures { result ≡ option_map length (text_from false text.now) }
{
    let mut rest = text;
    let mut escaped = false;
    let mut count = 0usize;
    while let Some((byte, after)) = rest.split_first() {
        if is_quote(escaped, *byte) {
            return if after.is_empty() { Some(count) } else { None };
        }
        let byte_spelled = spelled(escaped, *byte)?;
        count += count_of(byte_spelled);
        escaped = escapes(escaped, *byte);
        rest = after;
    }
    None
}

/// Puts the byte, if there is one, at the end.
fn push_some(bytes: &mut Vec<u8>, byte: Option<u8>) -> Result<(), AllocError>
    ensures { OnOk result (bytes.new.items ≡ bytes.old.items ++ option_to_list byte) }
{
    if let Some(byte) = byte {
        bytes.push(byte)?;
    }
    Ok(())
}

/// The bytes that a text stands for; `None` where it is malformed.
pub fn decode(alloc: Global, text: &[u8]) -> Result<Option<Vec<u8>>, AllocError>
    ensures { IfOk result (λ bytes. option_map (λ v. v.items) bytes ≡ text_from false text.now) }
{
    let mut rest = text;
    let mut escaped = false;
    let mut bytes = Vec::new(alloc);
    while let Some((byte, after)) = rest.split_first() {
        if is_quote(escaped, *byte) {
            return if after.is_empty() {
                Ok(Some(bytes))
            } else {
                Ok(None)
            };
        }
        let Some(byte_spelled) = spelled(escaped, *byte) else {
            return Ok(None);
        };
        push_some(&mut bytes, byte_spelled)?;
        escaped = escapes(escaped, *byte);
        rest = after;
    }
    Ok(None)
}
