//! What is guessed of a refused line by the block in which it stands and by its fields.
ghost use Rattle.std.specs.Prelude.{◌≡◌, ◌-◌, option_map};
ghost use Rattle.std.specs.List.{list_any};
ghost use Rattle.text_parts.specs.Lines.{fields_of, lines_of};
ghost use Rattle.sys_text.specs.Rules.{begins_comment as begins_comment_of};
ghost use Rattle.hints.specs.Guesses.{comment_in, guess_of as guess_of_lines, inside as inside_of, suspect_behind as suspect_behind_of, suspects as suspects_of, unended as unended_of, unended_by};

use crate::blocks::{Block, block_behind, keyword_of};
use crate::kinds::is_outside;
use refusal_text::lines::line_after;
use sys_text::{Keyword, begins_comment};
use text_parts::{first_field, first_line};

/// What is guessed of a refused line.
#[derive(Clone, Copy, PartialEq, Eq, Debug)]
pub enum Guess {
    /// A field of it begins with `#`.
    Comment,
    /// It begins with `end`, but has more fields, and stands in a block.
    EndWithMore,
    /// It stands in the block that this line opens, and looks like one behind it.
    InBlock { header: u64 },
    /// The block that this line opens has no end.
    NoEnd { header: u64 },
    /// The same, and a line in it looks like one behind it.
    NoEndBefore { header: u64, line: u64 },
}

/// What is guessed of the line with this number, which is refused by this rule.
pub fn guess_of(text: &[u8], line: u64, rule: u8) -> Option<Guess>
    ensures { result ≡ guess_of_lines (lines_of text.now) line rule }
{
    let before = line.saturating_sub(1);
    match rule {
        2 | 9 => inside(block_behind(text, before), line_after(text, before)),
        3 | 4 => comment(line_after(text, before)),
        10 => unended(text, block_behind(text, line)),
        _ => None,
    }
}

// What is guessed of a line in this block.
fn inside(block: Option<Block>, line: Option<&[u8]>) -> Option<Guess>
    ensures { result ≡ inside_of block (option_map (λ s. s.now) line.entry) }
{
    let header = block?.header;
    match keyword_of(line?) {
        Some(Keyword::End) => Some(Guess::EndWithMore),
        Some(keyword) if is_outside(keyword) => Some(Guess::InBlock { header }),
        _ => None,
    }
}

fn comment(line: Option<&[u8]>) -> Option<Guess>
    ensures { result ≡ comment_in (option_map (λ s. s.now) line.entry) }
{
    if has_comment(line?) {
        Some(Guess::Comment)
    } else {
        None
    }
}

fn has_comment(line: &[u8]) -> bool
    ensures { result ≡ list_any begins_comment_of (fields_of line.now) }
{
    let mut rest = line;
    'fields: while let Some((field, after)) = first_field(rest) {
        if begins_comment(field) {
            return true;
        }
        rest = after;
    }
    false
}

// What is guessed of a text that ends in this block.
fn unended(text: &[u8], block: Option<Block>) -> Option<Guess>
    ensures { result ≡ unended_of (lines_of text.now) block }
{
    let header = block?.header;
    Some(unended_with(header, suspect_behind(text, header)))
}

fn unended_with(header: u64, suspect: Option<u64>) -> Guess
    ensures { result ≡ unended_by header suspect }
{
    match suspect {
        Some(line) => Guess::NoEndBefore { header, line },
        None => Guess::NoEnd { header },
    }
}

// The first line behind the header that looks like the end of a block or like a line outside.
fn suspect_behind(text: &[u8], header: u64) -> Option<u64>
    ensures { result ≡ suspect_behind_of header 0 (lines_of text.now) }
{
    let mut rest = text;
    let mut count = 0u64;
    while !rest.is_empty() {
        let (line, after) = first_line(rest);
        count += 1;
        if count > header && suspects(keyword_of(line)) {
            return Some(count);
        }
        rest = after;
    }
    None
}

fn suspects(keyword: Option<Keyword>) -> bool
    ensures { result ≡ suspects_of keyword }
{
    match keyword {
        None | Some(Keyword::Words) => false,
        Some(_) => true,
    }
}
