//! What a statement stands for, where its labels are not resolved.
#![tactic(auto, unfolding(crate::specs::Statement::code_in))]

ghost use Rattle.std.specs.Prelude.{◌≡◌, ◌<◌, ◌≤◌, ◌^◌, IfOk, IsTrue, is_some, false};
ghost use Rattle.rv_insn.specs.declared.Insn.TheVariants as insns;
ghost use Rattle.rv_insn.specs.Encoding.{IsRegister, IsShift, IsSigned, encoded};
ghost use Rattle.rv_asm.specs.Number.{modulo32};
ghost use Rattle.rv_asm.specs.Quoted.{text_from};
ghost use Rattle.rv_asm.specs.Statement.{register as register_in, target as target_in, short, shift, upper, whole, load_number, code_in, code_by_word, code_of_statement};
ghost use Rattle.rv_asm.specs.Operands.{at_one};
ghost use Rattle.rv_asm.specs.View.{seen, seen_result, FieldsFit as StatementFits};

use crate::form::{
    BareInsn, BranchInsn, Form, LoadInsn, NumberInsn, RegisterInsn, ShiftInsn, StoreInsn,
    UpperInsn, form_named,
};
use crate::instruction::{
    bare_insn, first_half, load_insn, number_insn, register_insn, second_half, shift_insn,
    store_insn, upper_insn, word_of,
};
use crate::line::{cut_statement, is_label};
use crate::number::{modulo_32, number_within};
use crate::operands::{based, no_operand, one_operand, three_operands, two_operands};
use crate::quoted::{quoted, text_len};
use crate::refusal::Rule;
use crate::registers::register;
use rv_insn::Insn;

/// A statement by its words, or by what they are made of once the labels are known.
#[derive(Clone, Copy)]
pub enum Statement<'a> {
    Nothing,
    One(u32),
    Two(u32, u32),
    /// rs1, rs2 and the label.
    BranchTo(BranchInsn, u8, u8, &'a [u8]),
    /// rd and the label.
    JumpTo(u8, &'a [u8]),
    /// rd and the label.
    AddressOf(u8, &'a [u8]),
    /// The text from after its first quote on.
    Bytes(&'a [u8]),
}

// ---- operands

/// A register.
fn register_operand(name: &[u8]) -> Result<u8, Rule>
    ensures register { result ≡ register_in name.now }
    ensures fits { IfOk result IsRegister }
{
    register(name).ok_or(Rule::BadForm)
}

/// A label that the statement goes to or loads.
fn target_operand(name: &[u8]) -> Result<&[u8], Rule>
    ensures { at_one result ≡ target_in name.now }
{
    if is_label(name) {
        Ok(name)
    } else {
        Err(Rule::BadForm)
    }
}

/// A number of twelve bits.
fn short_operand(text: &[u8]) -> Result<i32, Rule>
    ensures number { result ≡ short text.now }
    ensures fits { IfOk result (IsSigned 12) }
{
    let value = number_within(text, -2048, 2047)?;
    Ok(value as i32)
}

/// A number of bits.
fn shift_operand(text: &[u8]) -> Result<i32, Rule>
    ensures number { result ≡ shift text.now }
    ensures fits { IfOk result IsShift }
{
    let value = number_within(text, 0, 31)?;
    Ok(value as i32)
}

/// The upper bits of a word.
fn upper_operand(text: &[u8]) -> Result<u32, Rule>
    ensures number { result ≡ upper text.now }
    ensures fits { IfOk result (λ number. number < 2 ^ 20) }
{
    let value = number_within(text, 0, 1_048_575)?;
    Ok(modulo_32(value))
}

/// A number of 32 bits, signed or not.
fn whole_operand(text: &[u8]) -> Result<i64, Rule>
    ensures { result ≡ whole text.now }
{
    number_within(text, -2_147_483_648, 4_294_967_295)
}

// ---- the statements

fn registers_statement(insn: RegisterInsn, text: &[u8]) -> Result<Statement<'_>, Rule>
    ensures code { seen_result result ≡ code_in (Form.Registers insn) text.now }
    ensures fits { IfOk result StatementFits }
{
    let (rd, rs1, rs2) = three_operands(text)?;
    let rd = register_operand(rd)?;
    let rs1 = register_operand(rs1)?;
    let rs2 = register_operand(rs2)?;
    Ok(Statement::One(word_of(register_insn(insn, rd, rs1, rs2))))
}

fn number_statement(insn: NumberInsn, text: &[u8]) -> Result<Statement<'_>, Rule>
    ensures code { seen_result result ≡ code_in (Form.Number insn) text.now }
    ensures fits { IfOk result StatementFits }
{
    let (rd, rs1, number) = three_operands(text)?;
    let rd = register_operand(rd)?;
    let rs1 = register_operand(rs1)?;
    let number = short_operand(number)?;
    Ok(Statement::One(word_of(number_insn(insn, rd, rs1, number))))
}

fn shift_statement(insn: ShiftInsn, text: &[u8]) -> Result<Statement<'_>, Rule>
    ensures code { seen_result result ≡ code_in (Form.Shift insn) text.now }
    ensures fits { IfOk result StatementFits }
{
    let (rd, rs1, bits) = three_operands(text)?;
    let rd = register_operand(rd)?;
    let rs1 = register_operand(rs1)?;
    let bits = shift_operand(bits)?;
    Ok(Statement::One(word_of(shift_insn(insn, rd, rs1, bits))))
}

fn load_statement(insn: LoadInsn, text: &[u8]) -> Result<Statement<'_>, Rule>
    ensures code { seen_result result ≡ code_in (Form.Load insn) text.now }
    ensures fits { IfOk result StatementFits }
{
    let (rd, place) = two_operands(text)?;
    let rd = register_operand(rd)?;
    let (number, rs1) = based(place)?;
    let rs1 = register_operand(rs1)?;
    let number = short_operand(number)?;
    Ok(Statement::One(word_of(load_insn(insn, rd, rs1, number))))
}

fn store_statement(insn: StoreInsn, text: &[u8]) -> Result<Statement<'_>, Rule>
    ensures code { seen_result result ≡ code_in (Form.Store insn) text.now }
    ensures fits { IfOk result StatementFits }
{
    let (rs2, place) = two_operands(text)?;
    let rs2 = register_operand(rs2)?;
    let (number, rs1) = based(place)?;
    let rs1 = register_operand(rs1)?;
    let number = short_operand(number)?;
    Ok(Statement::One(word_of(store_insn(insn, rs1, rs2, number))))
}

fn branch_statement(insn: BranchInsn, text: &[u8]) -> Result<Statement<'_>, Rule>
    ensures code { seen_result result ≡ code_in (Form.Branch insn) text.now }
    ensures fits { IfOk result StatementFits }
{
    let (rs1, rs2, target) = three_operands(text)?;
    let rs1 = register_operand(rs1)?;
    let rs2 = register_operand(rs2)?;
    let target = target_operand(target)?;
    Ok(Statement::BranchTo(insn, rs1, rs2, target))
}

fn upper_statement(insn: UpperInsn, text: &[u8]) -> Result<Statement<'_>, Rule>
    ensures code { seen_result result ≡ code_in (Form.Upper insn) text.now }
    ensures fits { IfOk result StatementFits }
{
    let (rd, bits) = two_operands(text)?;
    let rd = register_operand(rd)?;
    let bits = upper_operand(bits)?;
    Ok(Statement::One(word_of(upper_insn(insn, rd, bits))))
}

fn bare_statement(insn: BareInsn, text: &[u8]) -> Result<Statement<'_>, Rule>
    ensures code { seen_result result ≡ code_in (Form.Bare insn) text.now }
    ensures fits { IfOk result StatementFits }
{
    no_operand(text)?;
    Ok(Statement::One(word_of(bare_insn(insn))))
}

/// The word that loads a short number.
fn short_word(rd: u8, value: i64) -> u32
    requires rd { IsRegister rd }
    requires short { IsSigned 12 value }
    ensures { result ≡ encoded (insns.Addi rd 0 value) }
{
    let imm = value as i32;
    word_of(Insn::Addi { rd, rs1: 0, imm })
}

/// One word for a short number, else two.
fn load_number(rd: u8, value: i64) -> Statement<'static>
    requires { IsRegister rd }
    ensures code { seen result ≡ load_number rd value }
    ensures fits { StatementFits result }
{
    if value >= -2048 && value <= 2047 {
        Statement::One(short_word(rd, value))
    } else {
        let word = modulo_32(value);
        Statement::Two(first_half(rd, word), second_half(rd, word))
    }
}

fn jump_and_link_statement(text: &[u8]) -> Result<Statement<'_>, Rule>
    ensures code { seen_result result ≡ code_in Form.JumpAndLink text.now }
    ensures fits { IfOk result StatementFits }
{
    let (rd, target) = two_operands(text)?;
    let rd = register_operand(rd)?;
    let target = target_operand(target)?;
    Ok(Statement::JumpTo(rd, target))
}

fn load_number_statement(text: &[u8]) -> Result<Statement<'_>, Rule>
    ensures code { seen_result result ≡ code_in Form.LoadNumber text.now }
    ensures fits { IfOk result StatementFits }
{
    let (rd, number) = two_operands(text)?;
    let rd = register_operand(rd)?;
    let number = whole_operand(number)?;
    Ok(load_number(rd, number))
}

fn load_address_statement(text: &[u8]) -> Result<Statement<'_>, Rule>
    ensures code { seen_result result ≡ code_in Form.LoadAddress text.now }
    ensures fits { IfOk result StatementFits }
{
    let (rd, target) = two_operands(text)?;
    let rd = register_operand(rd)?;
    let target = target_operand(target)?;
    Ok(Statement::AddressOf(rd, target))
}

fn jump_statement(text: &[u8]) -> Result<Statement<'_>, Rule>
    ensures code { seen_result result ≡ code_in Form.Jump text.now }
    ensures fits { IfOk result StatementFits }
{
    let target = one_operand(text)?;
    let target = target_operand(target)?;
    Ok(Statement::JumpTo(0, target))
}

fn move_statement(text: &[u8]) -> Result<Statement<'_>, Rule>
    ensures code { seen_result result ≡ code_in Form.Move text.now }
    ensures fits { IfOk result StatementFits }
{
    let (rd, rs1) = two_operands(text)?;
    let rd = register_operand(rd)?;
    let rs1 = register_operand(rs1)?;
    Ok(Statement::One(word_of(Insn::Addi { rd, rs1, imm: 0 })))
}

fn word_statement(text: &[u8]) -> Result<Statement<'_>, Rule>
    ensures code { seen_result result ≡ code_in Form.Word text.now }
    ensures fits { IfOk result StatementFits }
{
    let number = one_operand(text)?;
    let number = whole_operand(number)?;
    Ok(Statement::One(modulo_32(number)))
}

fn ascii_statement(text: &[u8]) -> Result<Statement<'_>, Rule>
    ensures code { seen_result result ≡ code_in Form.Ascii text.now }
    ensures fits { IfOk result StatementFits }
{
    let text = quoted(text).ok_or(Rule::BadForm)?;
    match text_len(text) {
        Some(_) => Ok(Statement::Bytes(text)),
        None => Err(Rule::BadForm),
    }
}

/// The statement of a form with these operands.
fn statement_in(form: Form, text: &[u8]) -> Result<Statement<'_>, Rule>
    ensures code { seen_result result ≡ code_in form text.now }
    ensures fits { IfOk result StatementFits }
{
    match form {
        Form::Registers(insn) => registers_statement(insn, text),
        Form::Number(insn) => number_statement(insn, text),
        Form::Shift(insn) => shift_statement(insn, text),
        Form::Load(insn) => load_statement(insn, text),
        Form::Store(insn) => store_statement(insn, text),
        Form::Branch(insn) => branch_statement(insn, text),
        Form::Upper(insn) => upper_statement(insn, text),
        Form::Bare(insn) => bare_statement(insn, text),
        Form::JumpAndLink => jump_and_link_statement(text),
        Form::LoadNumber => load_number_statement(text),
        Form::LoadAddress => load_address_statement(text),
        Form::Jump => jump_statement(text),
        Form::Move => move_statement(text),
        Form::Word => word_statement(text),
        Form::Ascii => ascii_statement(text),
    }
}

/// What a statement with a word stands for.
fn statement_by_word(statement: &[u8]) -> Result<Statement<'_>, Rule>
    ensures code { seen_result result ≡ code_by_word statement.now }
    ensures fits { IfOk result StatementFits }
{
    let (word, operands) = cut_statement(statement);
    let form = form_named(word).ok_or(Rule::UnknownWord)?;
    statement_in(form, operands)
}

/// What a statement stands for.
pub fn read_statement(statement: &[u8]) -> Result<Statement<'_>, Rule>
    ensures code { seen_result result ≡ code_of_statement statement.now }
    ensures fits { IfOk result StatementFits }
{
    match statement {
        [] => Ok(Statement::Nothing),
        [_, ..] => statement_by_word(statement),
    }
}
