//! Words and numbers of a line. What is no number is read as some number: it is found out where the line is compared.
ghost use Rattle.std.specs.Prelude.{◌≡◌, ◌==◌, IfOk};
ghost use Rattle.text_parts.specs.Lines.{is_space};
ghost use Rattle.entry_lines.specs.Guess.{word as word_of, after as after_word, past as past_words, with_digit, number_after, number as number_of, numbers_after, bytes_in};

use hex::FromHexError;
use std::alloc::Global;
use t32_base::lists::{Bytes, List};
use t32_base::streams::NoMemory;
use text_parts::cut_at;

/// The first word, and the text behind its space.
pub fn cut(text: &[u8]) -> (&[u8], &[u8])
    ensures word { result.0.now ≡ word_of text.now }
    ensures rest { result.1.now ≡ after_word text.now }
{
    let (word, rest) = cut_at(text, b' ');
    match rest {
        [] => (word, rest),
        [_, after @ ..] => (word, after),
    }
}

/// The text behind the first word.
pub fn after(text: &[u8]) -> &[u8]
    ensures { result.now ≡ after_word text.now }
{
    cut(text).1
}

/// The text behind the first two words.
pub fn past(text: &[u8]) -> &[u8]
    ensures { result.now ≡ past_words text.now }
{
    after(after(text))
}

/// A number with one more digit.
fn more(value: u64, byte: u8) -> u64
    ensures { result ≡ with_digit value byte }
{
    value
        .wrapping_mul(10)
        .wrapping_add(u64::from(byte.saturating_sub(b'0')))
}

/// The number that a word would be.
pub fn number_in(word: &[u8]) -> u64
    ensures { result ≡ number_after 0 word.now }
{
    let mut value = 0u64;
    for byte in word {
        value = more(value, *byte);
    }
    value
}

/// The number that the first word would be.
pub fn number(text: &[u8]) -> u64
    ensures { result ≡ number_of text.now }
{
    number_in(cut(text).0)
}

/// The numbers that end with a space.
pub fn numbers(alloc: Global, text: &[u8]) -> Result<List<u64>, NoMemory>
    ensures { IfOk result (λ numbers. numbers ≡ numbers_after 0 text.now) }
{
    let mut found = List::new(alloc);
    let mut value = 0u64;
    for byte in text {
        if *byte == b' ' {
            found.push(value)?;
            value = 0;
        } else {
            value = more(value, *byte);
        }
    }
    Ok(found)
}

/// The bytes that hexadecimal digits would be.
pub fn bytes(alloc: Global, digits: &[u8]) -> Result<Bytes, NoMemory>
    ensures { IfOk result (λ bytes. bytes ≡ bytes_in digits.now) }
{
    match hex::decode(alloc, digits) {
        Ok(bytes) => Ok(Bytes::from_vec(bytes)),
        Err(FromHexError::OutOfMemory) => Err(NoMemory),
        Err(_) => Ok(Bytes::new(alloc)),
    }
}
