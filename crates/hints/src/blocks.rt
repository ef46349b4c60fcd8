//! The blocks of a system text.
ghost use Rattle.std.specs.Prelude.{◌≡◌};
ghost use Rattle.text_parts.specs.Lines.{fields_of, lines_of};
ghost use Rattle.hints.specs.Blocks.{block_behind as block_behind_of, keyword_of as keyword_of_line, opened as opened_by, with_line as with_line_of};

use sys_text::{Keyword, is_end, keyword_named};
use text_parts::{first_field, first_line};

/// A block: the number of the line that opens it, and whether the assembler reads it.
#[derive(Clone, Copy, PartialEq, Eq, Debug)]
pub struct Block {
    pub header: u64,
    pub asm: bool,
}

/// The block that is open behind so many lines.
pub fn block_behind(text: &[u8], count: u64) -> Option<Block>
    ensures { result ≡ block_behind_of (lines_of text.now) count }
{
    let mut rest = text;
    let mut left = count;
    let mut number = 0u64;
    let mut around = None;
    while left > 0 && !rest.is_empty() {
        let (line, after) = first_line(rest);
        number += 1;
        around = with_line(around, number, line);
        left -= 1;
        rest = after;
    }
    around
}

/// The block that is open behind the line with this number.
pub fn with_line(around: Option<Block>, number: u64, line: &[u8]) -> Option<Block>
    ensures { result ≡ with_line_of around number line.now }
{
    match around {
        None => opened(number, keyword_of(line)),
        Some(block) => { if is_end(line) { None } else { Some(block) } }
    }
}

/// The block that such a line opens.
pub fn opened(number: u64, keyword: Option<Keyword>) -> Option<Block>
    ensures { result ≡ opened_by number keyword }
{
    match keyword {
        Some(Keyword::Image | Keyword::Elf) => Some(Block {
            header: number,
            asm: false,
        }),
        Some(Keyword::Asm) => Some(Block {
            header: number,
            asm: true,
        }),
        _ => None,
    }
}

/// What the first field of a line says.
pub fn keyword_of(line: &[u8]) -> Option<Keyword>
    ensures { result ≡ keyword_of_line (fields_of line.now) }
{
    let (field, _) = first_field(line)?;
    keyword_named(field)
}
