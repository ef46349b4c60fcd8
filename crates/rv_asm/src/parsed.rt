//! A line by itself.
ghost use Rattle.std.specs.Prelude.{◌≡◌, true, IfOk};
ghost use Rattle.std.specs.Result.{ForOk};
ghost use Rattle.std.specs.Option.{option_copied};
ghost use Rattle.text_parts.specs.Lines.{are_printable};
ghost use Rattle.rv_asm.specs.Line.{label_of};
ghost use Rattle.rv_asm.specs.View.{seen, seen_result, FieldsFit};
ghost use Rattle.rv_asm.specs.Labels.{own_code, code_or_nothing, if_label, defined_in, size_of};
ghost use Rattle.rv_asm.specs.Program.{bad_label, is_rule, target_of};

use crate::line::{cut_line, is_label};
use crate::quoted::text_len;
use crate::refusal::Rule;
use crate::statement::{Statement, read_statement};
use text_parts::are_printable;

/// A line and what stands in it.
#[derive(Clone, Copy)]
pub struct Parsed<'a> {
    pub line: &'a [u8],
    /// The label that the line defines: what stands before the colon, if it is well formed.
    pub defines: Option<&'a [u8]>,
    pub has_bad_label: bool,
    /// Each byte of the line is one from 0x20 to 0x7E.
    pub is_printable: bool,
    /// The statement, or which of the rules on its form it breaks.
    pub statement: Result<Statement<'a>, Rule>,
    pub ghost defines_is: { option_copied defines ≡ defined_in line.now },
    pub ghost printable_is: { is_printable ≡ are_printable line.now },
    pub ghost bad_label_is: { has_bad_label ≡ bad_label (label_of line.now) },
    pub ghost statement_is: { seen_result statement ≡ own_code line.now },
    pub ghost fits: { ForOk statement FieldsFit },
}

/// Is the line printable, as each line of a clean text is?
fn is_printable_line(line: &[u8], clean: bool) -> bool
    requires { clean ≡ true → are_printable line.now ≡ true }
    ensures { result ≡ are_printable line.now }
{
    clean || are_printable(line)
}

/// The parts of a line, each looked at by itself. In a clean text its bytes need not be tested.
pub fn parse_line(line: &[u8], clean: bool) -> Parsed<'_>
    requires { clean ≡ true → are_printable line.now ≡ true }
    ensures { result.line.now ≡ line.now }
{
    let parts = cut_line(line);
    let defines = defined(parts.label);
    Parsed {
        line,
        defines,
        has_bad_label: is_bad_label(parts.label, defines),
        is_printable: is_printable_line(line, clean),
        statement: read_statement(parts.statement),
    }
}

/// The statement; nothing where it breaks a rule.
pub fn statement_or_nothing(statement: Result<Statement<'_>, Rule>) -> Statement<'_>
    ensures statement { seen result ≡ code_or_nothing (seen_result statement.entry) }
    ensures fits { IfOk statement.entry FieldsFit → FieldsFit result }
{
    match statement {
        Ok(statement) => statement,
        Err(_) => Statement::Nothing,
    }
}

/// Does the statement break this rule?
pub fn breaks_rule(statement: Result<Statement<'_>, Rule>, rule: Rule) -> bool
    ensures { result ≡ is_rule rule (seen_result statement.entry) }
{
    match statement {
        Ok(_) => false,
        Err(broken) => rule.number() == broken.number(),
    }
}

/// The label, if it is well formed.
fn defined(label: Option<&[u8]>) -> Option<&[u8]>
    ensures { option_copied result ≡ if_label (option_copied label.entry) }
{
    match label {
        Some(name) if is_label(name) => Some(name),
        _ => None,
    }
}

/// Is the label malformed, of which this is what it defines?
fn is_bad_label(label: Option<&[u8]>, defines: Option<&[u8]>) -> bool
    requires { option_copied defines ≡ if_label (option_copied label) }
    ensures { result ≡ bad_label (option_copied label.entry) }
{
    match label {
        Some(_) => defines.is_none(),
        None => false,
    }
}

/// How many words the statement has.
pub fn size_of_statement(statement: Statement<'_>) -> usize
    ensures { result ≡ size_of (seen statement.entry) }
{
    match statement {
        Statement::Nothing => 0,
        Statement::One(_) => 1,
        Statement::Two(_, _) => 2,
        Statement::BranchTo(_, _, _, _) => 1,
        Statement::JumpTo(_, _) => 1,
        Statement::AddressOf(_, _) => 2,
        Statement::Bytes(text) => text_len(text).unwrap_or(0).div_ceil(4),
    }
}

/// The label that the statement names.
pub fn target(statement: Statement<'_>) -> Option<&[u8]>
    ensures { option_copied result ≡ target_of (seen statement.entry) }
{
    match statement {
        Statement::BranchTo(_, _, _, target) => Some(target),
        Statement::JumpTo(_, target) => Some(target),
        Statement::AddressOf(_, target) => Some(target),
        _ => None,
    }
}
