//! Numbers in a text.
ghost use Rattle.std.specs.Prelude.{ℕ, ◌≡◌, ◌*◌, ◌<◌, ◌≤◌, ◌^◌, [], ◌∷◌, min, decimal};
ghost use Rattle.std.specs.Option.{option_map};
ghost use Rattle.text_parts.specs.Numbers.{numeral_of, number_of, word_of, digit_or_more, digits_or_more_after};

/// What a numeral stands for at most: one that stands for more is read as this.
pub const MOST: u64 = 0x100_0000_0000;

/// The number that digits stand for, of which there are any number; `MOST` where it is more.
#[inline(always)]
pub fn numeral(text: &[u8], radix: u32) -> Option<u64>
    requires low { 2 ≤ radix }
    requires high { radix ≤ 16 }
    ensures { result ≡ option_map (min MOST) (numeral_of radix text.now) }
{
    if text.is_empty() {
        return None;
    }
    let mut value = 0;
    for b in text {
        let digit = char::from(*b).to_digit(radix)?;
        value = (value * u64::from(radix) + u64::from(digit)).min(MOST);
    }
    Some(value)
}

/// A number: 1 to 10 decimal digits, leading zeros allowed.
pub fn number(text: &[u8]) -> Option<u64>
    ensures { result ≡ number_of text.now }
{
    if text.len() > 10 {
        return None;
    }
    numeral(text, 10)
}

/// What a byte that is no digit counts as: more than any eight digits stand for.
const MORE: u64 = 0x8_0000_0000;

// What each byte counts as among hexadecimal digits of either case.
const HEX_DIGITS: [u64; 256] = [
    MORE, MORE, MORE, MORE, MORE, MORE, MORE, MORE, MORE, MORE, MORE, MORE, MORE, MORE, MORE, MORE,
    MORE, MORE, MORE, MORE, MORE, MORE, MORE, MORE, MORE, MORE, MORE, MORE, MORE, MORE, MORE, MORE,
    MORE, MORE, MORE, MORE, MORE, MORE, MORE, MORE, MORE, MORE, MORE, MORE, MORE, MORE, MORE, MORE,
    0, 1, 2, 3, 4, 5, 6, 7, 8, 9, MORE, MORE, MORE, MORE, MORE, MORE, MORE, 10, 11, 12, 13, 14, 15,
    MORE, MORE, MORE, MORE, MORE, MORE, MORE, MORE, MORE, MORE, MORE, MORE, MORE, MORE, MORE, MORE,
    MORE, MORE, MORE, MORE, MORE, MORE, MORE, MORE, MORE, MORE, 10, 11, 12, 13, 14, 15, MORE, MORE,
    MORE, MORE, MORE, MORE, MORE, MORE, MORE, MORE, MORE, MORE, MORE, MORE, MORE, MORE, MORE, MORE,
    MORE, MORE, MORE, MORE, MORE, MORE, MORE, MORE, MORE, MORE, MORE, MORE, MORE, MORE, MORE, MORE,
    MORE, MORE, MORE, MORE, MORE, MORE, MORE, MORE, MORE, MORE, MORE, MORE, MORE, MORE, MORE, MORE,
    MORE, MORE, MORE, MORE, MORE, MORE, MORE, MORE, MORE, MORE, MORE, MORE, MORE, MORE, MORE, MORE,
    MORE, MORE, MORE, MORE, MORE, MORE, MORE, MORE, MORE, MORE, MORE, MORE, MORE, MORE, MORE, MORE,
    MORE, MORE, MORE, MORE, MORE, MORE, MORE, MORE, MORE, MORE, MORE, MORE, MORE, MORE, MORE, MORE,
    MORE, MORE, MORE, MORE, MORE, MORE, MORE, MORE, MORE, MORE, MORE, MORE, MORE, MORE, MORE, MORE,
    MORE, MORE, MORE, MORE, MORE, MORE, MORE, MORE, MORE, MORE, MORE, MORE, MORE, MORE, MORE, MORE,
    MORE, MORE, MORE, MORE, MORE, MORE, MORE, MORE, MORE, MORE, MORE, MORE, MORE, MORE, MORE, MORE,
    MORE, MORE, MORE, MORE, MORE, MORE, MORE,
];

/// What a byte counts as among hexadecimal digits.
fn hex_digit(byte: u8) -> u64
    ensures value { result ≡ digit_or_more byte }
    ensures small { result ≤ 2 ^ 35 }
{
    HEX_DIGITS[usize::from(byte)]
}

/// What four bytes count as together.
fn four_digits(a: u8, b: u8, c: u8, d: u8) -> u64
    ensures value { result ≡ digits_or_more_after 0 (a ∷ b ∷ c ∷ d ∷ []) }
    ensures small { result ≤ 2 ^ 35 * 4369 }
{
    ((hex_digit(a) * 16 + hex_digit(b)) * 16 + hex_digit(c)) * 16 + hex_digit(d)
}

/// A word: eight hexadecimal digits, either case.
pub fn word(text: &[u8]) -> Option<u32>
    ensures { result ≡ word_of text.now }
{
    let [a, b, c, d, e, f, g, h] = text else {
        return None;
    };
    // One test for the eight: a byte that is no digit makes the sum too large.
    let value = four_digits(*a, *b, *c, *d) * 0x1_0000 + four_digits(*e, *f, *g, *h);
    if value < 0x1_0000_0000 {
        Some(value as u32)
    } else {
        None
    }
}

/// A law and no code: a number is read again as it is printed.
pub fn numbers_read_back()
    ensures { (n : ℕ) → n < 10 ^ 10 → number_of (decimal n) ≡ Some n }
{}
