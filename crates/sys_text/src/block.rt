//! The assembler blocks of a system text.
ghost use Rattle.std.specs.Prelude.{◌≡◌, ◌+◌, ◌≤◌, ◌<◌, ◌^◌, true, [], Some, None, Ok, OnOk, IfOk, IfSome, MatchOption, is_some, length, take, drop, codes};
ghost use Rattle.std.specs.Str.{bytes_eq};
ghost use Rattle.text_parts.specs.Lines.{lines_of, fields_of};
ghost use Rattle.rv_asm.specs.Program.{reading_of_lines};
ghost use Rattle.sys_text.specs.Rules.{HasRoom};
ghost use Rattle.sys_text.specs.ImageNames.{KnowsImages};
ghost use Rattle.sys_text.specs.Reading.{InBlock, reading_from, is_end, ended_in_block, close_block, lines_before_end};
ghost use Rattle.sys_text.specs.Answers.{IsRefusal, RefusesBlock, IsCounted, ClosesBlock, TakesLines};

use crate::adding::close_image;
use crate::refusal::{Rule, SystemRefused};
use crate::state::Reader;
use rv_asm::{AsmRefused, assemble};
use std::alloc::Global;
use t32_base::lists::List;
use text_parts::{are_printable, first_field, first_line};

fn is_end_field(field: &[u8]) -> bool
    ensures { result ≡ bytes_eq field.now (codes "end") }
{
    field == b"end".as_slice()
}

/// Is `end` the only field of the line? An assembler block ends at the first such line.
#[tactic(auto, using(crate::proofs::Blocks::other_first_field))]
pub fn is_end(line: &[u8]) -> bool
    ensures { result ≡ is_end (fields_of line.now) }
{
    let Some((field, rest)) = first_field(line) else {
        return false;
    };
    // Few lines begin so.
    if !is_end_field(field) {
        return false;
    }
    match first_field(rest) {
        Some(_) => false,
        None => true,
    }
}

/// An assembler block that ends: how many lines it has, their text, and the text after its end.
#[derive(Clone, Copy)]
struct Block<'a> {
    lines: u64,
    text: &'a [u8],
    after: &'a [u8],
}

/// The block that a text begins with, if it ends.
fn first_block(text: &[u8]) -> Option<Block<'_>>
    ensures ended { MatchOption result (lines_before_end (lines_of text.now) ≡ None) (λ block. lines_before_end (lines_of text.now) ≡ Some block.lines) }
    ensures lines { IfSome result (λ block. lines_of block.text.now ≡ take block.lines (lines_of text.now)) }
    ensures after { IfSome result (λ block. lines_of block.after.now ≡ drop (block.lines + 1) (lines_of text.now)) }
    ensures within { IfSome result (λ block. length block.text.now ≤ length text.now) }
    ensures shorter { IfSome result (λ block. block.lines + length block.after.now < length text.now) }
{
    let mut rest = text;
    let mut lines = 0u64;
    while !rest.is_empty() {
        let (line, after) = first_line(rest);
        if is_end(line) {
            let (block, _) = text.split_at(text.len() - rest.len());
            return Some(Block {
                lines,
                text: block,
                after,
            });
        }
        lines += 1;
        rest = after;
    }
    None
}

/// The refusal of a text that ends inside a block, after these lines.
fn ended_in_block(header: u64, block: &[u8]) -> SystemRefused
    requires { header + length block.now < 2 ^ 64 }
    ensures { IsRefusal result (ended_in_block header (lines_of block.now)) }
{
    let mut rest = block;
    let mut number = header;
    while !rest.is_empty() {
        let (line, after) = first_line(rest);
        number += 1;
        if !are_printable(line) {
            return SystemRefused::BadLine {
                line: number,
                rule: Rule::ForeignByte.number(),
            };
        }
        rest = after;
    }
    SystemRefused::BadLine {
        line: number,
        rule: Rule::Ended.number(),
    }
}

/// Gives the image of a block its words, if they fit its pages.
fn close_with(
    alloc: Global,
    reader: &mut Reader<'_>,
    header: u64,
    number: u64,
    words: List<u32>,
) -> Result<(), SystemRefused>
    requires room { HasRoom reader.old.state }
    requires open_block { is_some reader.old.state.block ≡ true }
    requires known { KnowsImages reader.old }
    ensures step { ClosesBlock result reader.new.state (close_block reader.old.state header number (Ok words)) }
    ensures room { OnOk result (HasRoom reader.new.state) }
    ensures known { OnOk result (KnowsImages reader.new) }
{
    let Some(block) = reader.state.block.as_mut() else {
        unreachable!()
    };
    if words.len() > 64 * usize::from(block.pages()) {
        return Err(SystemRefused::BadLine {
            line: number,
            rule: Rule::Room.number(),
        });
    }
    block.set_words(words);
    close_image(alloc, reader)?;
    Ok(())
}

/// What the assembler says of a block, in the numbers of the whole text.
fn block_refused(header: u64, refused: AsmRefused) -> SystemRefused
    requires { IsCounted header refused }
    ensures { RefusesBlock result header refused }
{
    match refused {
        AsmRefused::NoMemory => SystemRefused::NoMemory,
        AsmRefused::Line { line, rule } => SystemRefused::BadLine {
            line: header + line,
            rule: if rule == 1 { 1 } else { 9 },
        },
    }
}

/// Assembles a block that line `number` ends.
fn close_block(
    alloc: Global,
    reader: &mut Reader<'_>,
    header: u64,
    number: u64,
    block: &[u8],
) -> Result<(), SystemRefused>
    requires room { HasRoom reader.old.state }
    requires open_block { is_some reader.old.state.block ≡ true }
    requires known { KnowsImages reader.old }
    requires few { header + length block.now < 2 ^ 64 }
    ensures step { ClosesBlock result reader.new.state (close_block reader.old.state header number (reading_of_lines (lines_of block.now))) }
    ensures room { OnOk result (HasRoom reader.new.state) }
    ensures known { OnOk result (KnowsImages reader.new) }
{
    match assemble(alloc, block) {
        Err(refused) => Err(block_refused(header, refused)),
        Ok(words) => close_with(alloc, reader, header, number, words),
    }
}

/// Takes the lines of the assembler block that line `header` opened, to its end. Gives the number of its
/// last line, and the text after it.
pub fn take_block<'a>(
    alloc: Global,
    reader: &mut Reader<'_>,
    header: u64,
    text: &'a [u8],
) -> Result<(u64, &'a [u8]), SystemRefused>
    requires room { HasRoom reader.old.state }
    requires open_block { is_some reader.old.state.block ≡ true }
    requires known { KnowsImages reader.old }
    requires few { header + length text.now < 2 ^ 64 }
    ensures read { TakesLines result reader.new.state (reading_from (InBlock reader.old.state header []) header (lines_of text.now)) }
    ensures room { OnOk result (HasRoom reader.new.state) }
    ensures known { OnOk result (KnowsImages reader.new) }
    ensures left { IfOk result (λ after. after.0 + length after.1.now ≤ header + length text.now) }
    ensures shorter { IfOk result (λ after. length after.1.now < length text.now) }
{
    let Some(block) = first_block(text) else {
        return Err(ended_in_block(header, text));
    };
    let number = header + block.lines + 1;
    match close_block(alloc, reader, header, number, block.text) {
        Ok(()) => Ok((number, block.after)),
        Err(refused) => Err(refused),
    }
}
