//! Lines of words, of which a long text has most: each field is read once, as it is cut off.
ghost use Rattle.std.specs.Prelude.{◌≡◌, ◌++◌, [], take, None, OnOk, IfErr, IfSome, MatchOption, length, codes};
ghost use Rattle.std.specs.List.{list_all};
ghost use Rattle.std.specs.Str.{bytes_eq};
ghost use Rattle.text_parts.specs.Lines.{fields_of, is_space};
ghost use Rattle.sys_text.specs.Line.{words_in};
ghost use Rattle.sys_text.specs.Rules.{fit_limit};
ghost use Rattle.sys_text.specs.WordLines.{IsWordsLine, FirstWord, lowest_of_words, RefusesBy};

use crate::refusal::{Rule, SystemRefused};
use crate::stage::Stage;
use t32_base::lists::List;
use text_parts::{are_printable, first_field, trim_start, word};

/// Does a field that stands before these bytes end there?
fn is_after_field(rest: &[u8]) -> bool
    ensures { result ≡ list_all is_space (take 1 rest.now) }
{
    match rest {
        [] => true,
        [byte, ..] => *byte == b' ',
    }
}

/// What stands after `words`, where the line is one of words in an open image.
pub fn after_words<'a>(stage: Stage, line: &'a [u8]) -> Option<&'a [u8]>
    ensures { IfSome result (λ rest. IsWordsLine stage line.now rest.now) }
{
    let Stage::InImage = stage else {
        return None;
    };
    let [b'w', b'o', b'r', b'd', b's', rest @ ..] = trim_start(line) else {
        return None;
    };
    if is_after_field(rest) && are_printable(line) {
        Some(rest)
    } else {
        None
    }
}

/// The word after one space, as most stand, and the line after it; nothing where the line begins otherwise.
fn word_after_space(line: &[u8]) -> Option<(u32, &[u8])>
    ensures { IfSome result (λ x. FirstWord line.now (Some x.0) x.1.now) }
{
    let [b' ', text @ ..] = line else {
        return None;
    };
    if text.len() < 8 {
        return None;
    }
    let (field, rest) = text.split_at(8);
    if !is_after_field(rest) {
        return None;
    }
    let value = word(field)?;
    Some((value, rest))
}

/// What the first field of a line is as a word, and the line after it.
fn first_word(line: &[u8]) -> Option<(Option<u32>, &[u8])>
    ensures { MatchOption result (fields_of line.now ≡ []) (λ x. FirstWord line.now x.0 x.1.now) }
{
    if let Some((value, rest)) = word_after_space(line) {
        return Some((Some(value), rest));
    }
    let (field, rest) = first_field(line)?;
    Some((word(field), rest))
}

/// Do so many words fit so many pages, where that is a limit?
fn fit_limit(words: usize, pages: Option<u16>) -> bool
    ensures { result ≡ fit_limit words pages }
{
    match pages {
        Some(pages) => words <= 64 * usize::from(pages),
        None => true,
    }
}

/// Reads the words of line `number` behind those so far of a block of so many pages, where these are a limit.
pub fn read_words(
    words: &mut List<u32>,
    pages: Option<u16>,
    number: u64,
    fields: &[u8],
) -> Result<(), SystemRefused>
    ensures words { OnOk result (words.new ≡ words.old ++ words_in (fields_of fields.now)) }
    ensures kept { OnOk result (lowest_of_words (length words.old) pages (fields_of fields.now) ≡ None) }
    ensures refused { IfErr result (λ refused. RefusesBy refused number (lowest_of_words (length words.old) pages (fields_of fields.now))) }
{
    let before = words.len();
    let mut rest = fields;
    'fields: while let Some((value, after)) = first_word(rest) {
        let Some(value) = value else {
            return Err(refused(number, Rule::FieldKind));
        };
        words.push(value)?;
        rest = after;
    }
    if words.len() == before {
        return Err(refused(number, Rule::FieldCount));
    }
    if !fit_limit(words.len(), pages) {
        return Err(refused(number, Rule::Room));
    }
    Ok(())
}

/// The line is refused by this rule.
pub fn refused(line: u64, rule: Rule) -> SystemRefused
    ensures { RefusesBy result line (Some rule) }
{
    SystemRefused::BadLine {
        line,
        rule: rule.number(),
    }
}
