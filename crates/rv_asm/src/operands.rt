//! The operands of a statement.
ghost use Rattle.std.specs.Prelude.{◌≡◌};
ghost use Rattle.rv_asm.specs.Line.{split_operands, no_operand, just_one, just_two, just_three, based};
ghost use Rattle.rv_asm.specs.Operands.{NextOperand, at_one, at_two, at_three};

use crate::refusal::Rule;
use text_parts::{cut_at, trim};

/// The operand before the first comma, and the text after it.
fn next_operand(text: &[u8]) -> Option<(&[u8], &[u8])>
    ensures { NextOperand result text.now }
{
    let (operand, rest) = cut_at(text, b',');
    match rest {
        [] => None,
        [_, after @ ..] => Some((trim(operand), after)),
    }
}

/// No operand.
pub fn no_operand(text: &[u8]) -> Result<(), Rule>
    ensures { result ≡ no_operand text.now }
{
    if text.is_empty() {
        Ok(())
    } else {
        Err(Rule::BadForm)
    }
}

/// The one operand.
pub fn one_operand(text: &[u8]) -> Result<&[u8], Rule>
    ensures { at_one result ≡ just_one (split_operands text.now) }
{
    match next_operand(text) {
        None => Ok(trim(text)),
        Some(_) => Err(Rule::BadForm),
    }
}

/// The two operands.
pub fn two_operands(text: &[u8]) -> Result<(&[u8], &[u8]), Rule>
    ensures { at_two result ≡ just_two (split_operands text.now) }
{
    let (first, rest) = next_operand(text).ok_or(Rule::BadForm)?;
    let second = one_operand(rest)?;
    Ok((first, second))
}

/// The three operands.
pub fn three_operands(text: &[u8]) -> Result<(&[u8], &[u8], &[u8]), Rule>
    ensures { at_three result ≡ just_three (split_operands text.now) }
{
    let (first, rest) = next_operand(text).ok_or(Rule::BadForm)?;
    let (second, third) = two_operands(rest)?;
    Ok((first, second, third))
}

/// The texts of the number and of the register in `number(register)`.
pub fn based(operand: &[u8]) -> Result<(&[u8], &[u8]), Rule>
    ensures { at_two result ≡ based operand.now }
{
    let (number, rest) = cut_at(operand, b'(');
    let inside = match rest {
        [] => rest,
        [_, inside @ ..] => inside,
    };
    let (register, end) = cut_at(inside, b')');
    match end {
        [b')'] => Ok((number, register)),
        _ => Err(Rule::BadForm),
    }
}
