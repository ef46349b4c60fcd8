//! The numbers of a statement.
ghost use Rattle.std.specs.Prelude.{◌≡◌, ◌<◌, ◌^◌, ◌≤ℤ◌, IfOk, IsTrue, int_le, pos, negsuc};
ghost use Rattle.rv_asm.specs.Number.{hex_digits_of, negative_digits_of, hex_of, decimal_of, negative, number_of, within, ranged, modulo32, cut_off};
ghost use Rattle.std.specs.Option.{option_map, option_copied};

use crate::refusal::Rule;
use text_parts::numeral;

/// The value as a number.
fn positive(value: u64) -> i64
    requires { value < 2 ^ 63 }
    ensures { result ≡ pos value }
{
    value as i64
}

/// The value as a negative number.
fn negative(value: u64) -> i64
    requires { value < 2 ^ 63 }
    ensures { result ≡ negative value }
{
    -(value as i64)
}

/// The digits after `0x`.
fn hex_digits(text: &[u8]) -> Option<&[u8]>
    ensures { option_copied result ≡ hex_digits_of text.now }
{
    match text {
        [b'0', b'x', digits @ ..] => Some(digits),
        _ => None,
    }
}

/// The digits after `-`.
fn negative_digits(text: &[u8]) -> Option<&[u8]>
    ensures { option_copied result ≡ negative_digits_of text.now }
{
    match text {
        [b'-', digits @ ..] => Some(digits),
        _ => None,
    }
}

/// Hexadecimal digits, of which there are at most eight.
fn hexadecimal(digits: &[u8]) -> Option<i64>
    ensures { result ≡ option_map cut_off (option_map pos (hex_of digits.now)) }
{
    if digits.len() > 8 {
        return None;
    }
    let value = numeral(digits, 16)?;
    Some(positive(value))
}

/// A decimal number.
fn decimal(text: &[u8]) -> Option<i64>
    ensures { result ≡ option_map cut_off (decimal_of text.now (negative_digits_of text.now)) }
{
    match negative_digits(text) {
        Some(digits) => {
            let value = numeral(digits, 10)?;
            Some(negative(value))
        }
        None => {
            let value = numeral(text, 10)?;
            Some(positive(value))
        }
    }
}

/// The number, or one that is as far off any range.
fn number(text: &[u8]) -> Option<i64>
    ensures { result ≡ option_map cut_off (number_of text.now) }
{
    match hex_digits(text) {
        Some(digits) => hexadecimal(digits),
        None => decimal(text),
    }
}

/// The value, where it is from `low` to `high`.
fn within(value: i64, low: i64, high: i64) -> Result<i64, Rule>
    ensures number { result ≡ within low high value }
    ensures range { IfOk result (λ v. (low ≤ℤ v) × (v ≤ℤ high)) }
{
    if value < low || value > high {
        return Err(Rule::NumberRange);
    }
    Ok(value)
}

/// The number, which must be from `low` to `high`.
pub fn number_within(text: &[u8], low: i64, high: i64) -> Result<i64, Rule>
    requires low { IsTrue (int_le (negsuc 0xFF_FFFF_FFFE) low) }
    requires high { IsTrue (int_le high (pos 0xFF_FFFF_FFFF)) }
    ensures number { result ≡ ranged low high text.now }
    ensures range { IfOk result (λ v. (low ≤ℤ v) × (v ≤ℤ high)) }
{
    let value = number(text).ok_or(Rule::BadForm)?;
    within(value, low, high)
}

/// The number modulo 2^32.
pub fn modulo_32(value: i64) -> u32
    ensures { result ≡ modulo32 value }
{
    value.rem_euclid(0x1_0000_0000) as u32
}
