//! The two parts of an input: a system text, and the section behind it.
ghost use Rattle.std.specs.Prelude.{◌≡◌, ◌≤◌, length};
ghost use Rattle.text_parts.specs.Lines.{fields_of, lines_of};
ghost use Rattle.targon_cli.specs.Sections.{begins_section as begins_section_of, IsCutAt, lines_before_section as lines_before_section_of, lines_before, lines_from};

use text_parts::{first_field, first_line, split_lines};

/// Cuts a text before the first line whose first field is this word. The second part is empty where there is no such
/// line.
pub fn split_at_section<'a>(text: &'a [u8], word: &[u8]) -> (&'a [u8], &'a [u8])
    ensures before { lines_of result.0.now ≡ lines_before word.now (lines_of text.now) }
    ensures section { lines_of result.1.now ≡ lines_from word.now (lines_of text.now) }
    // The two are the text, so no other cut has these lines.
    ensures cut { IsCutAt word.now text.now result.0.now result.1.now }
{
    split_lines(text, lines_before_section(text, word))
}

// How many lines stand before that line; all, where there is none.
fn lines_before_section(text: &[u8], word: &[u8]) -> u64
    ensures lines { result ≡ lines_before_section_of word.now (lines_of text.now) }
    ensures within { result ≤ length (lines_of text.now) }
{
    let mut rest = text;
    let mut count = 0u64;
    while !rest.is_empty() {
        let (line, after) = first_line(rest);
        if begins_section(line, word) {
            return count;
        }
        count += 1;
        rest = after;
    }
    count
}

fn begins_section(line: &[u8], word: &[u8]) -> bool
    ensures { result ≡ begins_section_of word.now line.now }
{
    match first_field(line) {
        Some((field, _)) => field == word,
        None => false,
    }
}
