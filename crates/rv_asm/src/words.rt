//! The words of a statement, once the labels are known.
ghost use Rattle.std.specs.Prelude.{◌≡◌, ◌+◌, ◌*◌, ◌++◌, ◌<◌, ◌%◌, ◌^◌, IsTrue, IsFalse, OnOk, Some, false, unwrap_or, length, []};
ghost use Rattle.text_parts.specs.Table.{lookup as lookup_in};
ghost use Rattle.rv_insn.specs.declared.Insn.TheVariants as insns;
ghost use Rattle.rv_insn.specs.Encoding.{IsEven, IsRegister, encoded};
ghost use Rattle.rv_asm.specs.Statement.{BranchTo, JumpTo};
ghost use Rattle.rv_asm.specs.Quoted.{text_from};
ghost use Rattle.rv_asm.specs.Instructions.{branch_insn as branch_insn_in};
ghost use Rattle.rv_asm.specs.View.{seen, FieldsFit};
ghost use Rattle.rv_asm.specs.Program.{address_after, address_of, is_near, distance as distance_in, is_undefined, is_far, too_far, target_of, words_at, words_of_bytes};

use crate::form::BranchInsn;
use crate::instruction::{branch_insn, first_half, second_half, word_of};
use crate::labels::Labels;
use crate::quoted::decode;
use crate::statement::Statement;
use rv_insn::Insn;
use std::alloc::{AllocError, Global};
use t32_base::lists::List;

/// The distance from after so many words to after so many.
fn distance(here: u64, there: u64) -> i32
    requires { IsTrue (is_near 1048576 1048574 (address_after here) (address_after there)) }
    ensures distance { result ≡ distance_in (address_after here) (address_after there) }
    ensures even { IsEven 21 result }
{
    if there >= here {
        ((there - here) * 4) as i32
    } else {
        -(((here - there) * 4) as i32)
    }
}

/// The same, where a branch reaches it.
fn branch_distance(here: u64, there: u64) -> i32
    requires { IsTrue (is_near 4096 4094 (address_after here) (address_after there)) }
    ensures distance { result ≡ distance_in (address_after here) (address_after there) }
    ensures even { IsEven 13 result }
{
    distance(here, there)
}

/// The address after so many words, modulo 2^32.
fn address(words: u64) -> u32
    ensures { result ≡ address_after words % 2 ^ 32 }
{
    ((words % 0x4000_0000 * 4 + 0x1_0000) % 0x1_0000_0000) as u32
}

/// The words before a label that is defined.
fn words_before<'a>(labels: &Labels<'a>, name: &'a [u8]) -> u64
    requires { IsFalse (is_undefined labels.now (Some name.now)) }
    ensures { address_of (lookup_in labels.now name.now) ≡ address_after result }
{
    match labels.value(name) {
        Some(place) => place.words,
        None => unreachable!(),
    }
}

/// A branch to a label, from after so many words.
fn branch_word<'a>(
    labels: &Labels<'a>,
    here: u64,
    branch: (BranchInsn, u8, u8),
    name: &'a [u8],
) -> u32
    requires registers { IsRegister branch.1 × IsRegister branch.2 }
    requires defined { IsFalse (is_undefined labels.now (Some name.now)) }
    requires near { IsFalse (is_far (BranchTo branch.0 branch.1 branch.2 name.now) (address_after here) (lookup_in labels.now name.now)) }
    ensures { result ≡ encoded (branch_insn_in branch.0 branch.1 branch.2 (distance_in (address_after here) (address_of (lookup_in labels.now name.now)))) }
{
    let (insn, rs1, rs2) = branch;
    let there = words_before(labels, name);
    word_of(branch_insn(insn, rs1, rs2, branch_distance(here, there)))
}

/// A jump to a label, from after so many words.
fn jump_word<'a>(labels: &Labels<'a>, here: u64, rd: u8, name: &'a [u8]) -> u32
    requires rd { IsRegister rd }
    requires defined { IsFalse (is_undefined labels.now (Some name.now)) }
    requires near { IsFalse (is_far (JumpTo rd name.now) (address_after here) (lookup_in labels.now name.now)) }
    ensures { result ≡ encoded (insns.Jal rd (distance_in (address_after here) (address_of (lookup_in labels.now name.now)))) }
{
    let there = words_before(labels, name);
    let imm = distance(here, there);
    word_of(Insn::Jal { rd, imm })
}

/// Up to four bytes as a word.
fn packed(a: u8, b: u8, c: u8, d: u8) -> u32
    ensures { result ≡ a + 2 ^ 8 * b + 2 ^ 16 * c + 2 ^ 24 * d }
{
    u32::from(a) + (u32::from(b) << 8) + (u32::from(c) << 16) + (u32::from(d) << 24)
}

/// Puts bytes behind the words, filled with zero bytes.
fn push_bytes(out: &mut List<u32>, bytes: &[u8]) -> Result<(), AllocError>
    ensures { OnOk result (out.new ≡ out.old ++ words_of_bytes bytes.now) }
{
    let mut rest = bytes;
    while let [a, b, c, d, after @ ..] = rest {
        out.push(packed(*a, *b, *c, *d))?;
        rest = after;
    }
    match rest {
        [a, b, c, ..] => out.push(packed(*a, *b, *c, 0))?,
        [a, b] => out.push(packed(*a, *b, 0, 0))?,
        [a] => out.push(packed(*a, 0, 0, 0))?,
        [] => {}
    }
    Ok(())
}

/// Puts the words of a statement behind the words so far.
pub fn push_words<'a>(
    alloc: Global,
    labels: &Labels<'a>,
    statement: Statement<'a>,
    out: &mut List<u32>,
) -> Result<(), AllocError>
    requires fits { FieldsFit statement }
    requires defined { IsFalse (is_undefined labels.now (target_of (seen statement))) }
    requires near { IsFalse (too_far labels.now (seen statement) (address_after (length out.old)) (target_of (seen statement))) }
    ensures { OnOk result (out.new ≡ out.old ++ words_at labels.now (address_after (length out.old)) (seen statement.entry)) }
{
    let here = out.len() as u64;
    match statement {
        Statement::Nothing => {}
        Statement::One(word) => out.push(word)?,
        Statement::Two(first, second) => {
            out.push(first)?;
            out.push(second)?;
        }
        Statement::BranchTo(insn, rs1, rs2, name) => {
            out.push(branch_word(labels, here, (insn, rs1, rs2), name))?;
        }
        Statement::JumpTo(rd, name) => out.push(jump_word(labels, here, rd, name))?,
        Statement::AddressOf(rd, name) => {
            let target = address(words_before(labels, name));
            out.push(first_half(rd, target))?;
            out.push(second_half(rd, target))?;
        }
        Statement::Bytes(text) => {
            if let Some(bytes) = decode(alloc, text)? {
                push_bytes(out, &bytes)?;
            }
        }
    }
    Ok(())
}
