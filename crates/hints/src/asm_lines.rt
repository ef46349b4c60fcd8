//! The line of an assembler block from which a word of its image comes.
ghost use Rattle.std.specs.Prelude.{◌≡◌, IfOk};
ghost use Rattle.text_parts.specs.Lines.{lines_of};
ghost use Rattle.hints.specs.AsmLines.{asm_line as asm_line_of, begun as begun_by, behind_colon as behind_colon_of, block_with as block_with_of, has_space as has_space_of, names_address as names_address_of, size_of as size_of_line, size_with_label as size_with_label_of, statement_in, word_line as word_line_of};

use crate::blocks::{Block, keyword_of, opened, with_line};
use rv_asm::{AsmRefused, assemble};
use std::alloc::Global;
use sys_text::is_end;
use t32_base::streams::NoMemory;
use text_parts::{cut_at, first_field, first_line, trim_start};

/// The number of the line that makes the word with this index of the image with this index, where that is a line of an `asm`
/// block of a system text. Lines are counted from 1, images and words from 0.
pub fn asm_line(alloc: Global, text: &[u8], image: u64, word: u64) -> Result<Option<u64>, NoMemory>
    ensures { IfOk result (λ line. line ≡ asm_line_of (lines_of text.now) image word) }
{
    match block_with(text, image) {
        Some(block) if block.asm => word_line(alloc, text, block.header, word),
        _ => Ok(None),
    }
}

// The block of the image with this index.
fn block_with(text: &[u8], image: u64) -> Option<Block>
    ensures { result ≡ block_with_of (lines_of text.now) image }
{
    let mut rest = text;
    let mut left = image;
    let mut number = 0u64;
    let mut around = None;
    while !rest.is_empty() {
        let (line, after) = first_line(rest);
        number += 1;
        if let Some(block) = begun(around, number, line) {
            if left == 0 {
                return Some(block);
            }
            left -= 1;
        }
        around = with_line(around, number, line);
        rest = after;
    }
    None
}

// The block that the line with this number opens, where it stands in none.
fn begun(around: Option<Block>, number: u64, line: &[u8]) -> Option<Block>
    ensures { result ≡ begun_by around number line.now }
{
    match around {
        None => opened(number, keyword_of(line)),
        Some(_) => None,
    }
}

// The line that makes the word after so many of the block that this line opens.
fn word_line(alloc: Global, text: &[u8], header: u64, word: u64) -> Result<Option<u64>, NoMemory>
    ensures { IfOk result (λ line. line ≡ word_line_of header 0 word (lines_of text.now)) }
{
    let mut rest = text;
    let mut left = word;
    let mut number = 0u64;
    while !rest.is_empty() {
        let (line, after) = first_line(rest);
        number += 1;
        rest = after;
        if number <= header {
            continue;
        }
        if is_end(line) {
            return Ok(None);
        }
        let size = size_of(alloc, line)?;
        if left < size {
            return Ok(Some(number));
        }
        left -= size;
    }
    Ok(None)
}

// How many words a line makes, by the assembler. It refuses one alone that names a label, which makes two words where it takes an
// address, and else one.
fn size_of(alloc: Global, line: &[u8]) -> Result<u64, NoMemory>
    ensures { IfOk result (λ size. size ≡ size_of_line line.now) }
{
    match assemble(alloc, line) {
        Ok(words) => Ok(words.len() as u64),
        Err(AsmRefused::Line { .. }) => Ok(size_with_label(line)),
        Err(AsmRefused::NoMemory) => Err(NoMemory),
    }
}

fn size_with_label(line: &[u8]) -> u64
    ensures { result ≡ size_with_label_of line.now }
{
    if names_address(line) { 2 } else { 1 }
}

fn names_address(line: &[u8]) -> bool
    ensures { result ≡ names_address_of line.now }
{
    match first_field(statement_of(line)) {
        Some((word, _)) => word == b"la".as_slice(),
        None => false,
    }
}

// What stands behind the label of a line.
fn statement_of(line: &[u8]) -> &[u8]
    ensures { result.now ≡ statement_in line.now }
{
    let text = trim_start(line);
    let (label, rest) = cut_at(text, b':');
    behind_colon(text, label, rest)
}

// What stands behind the colon, where no space stands before it; or the whole text.
fn behind_colon<'a>(text: &'a [u8], label: &[u8], rest: &'a [u8]) -> &'a [u8]
    ensures { result.now ≡ behind_colon_of text.now label.now rest.now }
{
    match rest {
        [] => text,
        [_, statement @ ..] => { if has_space(label) { text } else { statement } }
    }
}

fn has_space(label: &[u8]) -> bool
    ensures { result ≡ has_space_of label.now }
{
    !cut_at(label, b' ').1.is_empty()
}
