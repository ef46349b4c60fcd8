//! The assembler block in which a line stands, and the rule of the assembler that the line breaks.
ghost use Rattle.std.specs.Prelude.{◌≡◌, ◌≤◌, IfOk, if◌then◌else◌, length};
ghost use Rattle.text_parts.specs.Lines.{lines_of};
ghost use Rattle.refusal_text.specs.Block.{block_size as block_size_of, header_before as header_before_of, inner_rule as inner_rule_of, opens_block as opens_block_of};

use rv_asm::{AsmRefused, assemble};
use std::alloc::Global;
use sys_text::is_end;
use t32_base::streams::NoMemory;
use text_parts::{first_field, first_line, split_lines};

/// The rule of the assembler that the line with this number breaks in its block; `None` where it breaks none.
pub fn inner_rule(alloc: Global, text: &[u8], number: u64) -> Result<Option<u8>, NoMemory>
    ensures { IfOk result (λ rule. rule ≡ inner_rule_of (lines_of text.now) number) }
{
    let header = header_before(text, number);
    let (_, rest) = split_lines(text, header);
    let (block, _) = split_lines(rest, block_size(rest));
    match assemble(alloc, block) {
        Ok(_) => Ok(None),
        Err(AsmRefused::Line { line, rule }) => {
            if line == number.saturating_sub(header) {
                Ok(Some(rule))
            } else {
                Ok(None)
            }
        }
        Err(AsmRefused::NoMemory) => Err(NoMemory),
    }
}

// The number of the last line before this one that opens an assembler block; 0 where none does.
fn header_before(text: &[u8], number: u64) -> u64
    ensures header { result ≡ header_before_of (lines_of text.now) number }
    ensures within { result ≤ length (lines_of text.now) }
{
    let mut rest = text;
    let mut left = number.saturating_sub(1);
    let mut count = 0u64;
    let mut header = 0u64;
    while left > 0 && !rest.is_empty() {
        let (line, after) = first_line(rest);
        count += 1;
        header = header_with(line, count, header);
        left -= 1;
        rest = after;
    }
    header
}

// The number of the line, where it opens a block, and else that of the last line before it that does.
fn header_with(line: &[u8], number: u64, header: u64) -> u64
    ensures { result ≡ if opens_block_of line.now then number else header }
{
    if opens_block(line) { number } else { header }
}

fn opens_block(line: &[u8]) -> bool
    ensures { result ≡ opens_block_of line.now }
{
    match first_field(line) {
        Some((field, _)) => field == b"asm".as_slice(),
        None => false,
    }
}

// How many lines stand before the end of a block; all, where it has none.
fn block_size(text: &[u8]) -> u64
    ensures lines { result ≡ block_size_of (lines_of text.now) }
    ensures within { result ≤ length (lines_of text.now) }
{
    let mut rest = text;
    let mut count = 0u64;
    while !rest.is_empty() {
        let (line, after) = first_line(rest);
        if is_end(line) {
            return count;
        }
        count += 1;
        rest = after;
    }
    count
}
