//! From a text to its words.
ghost use Rattle.std.specs.Prelude.{◌≡◌, ◌+◌, ◌++◌, ◌≤◌, ◌<◌, ◌^◌, IfOk, IfErr, IsOkUnless, OnOk, length};
ghost use Rattle.text_parts.specs.Lines.{lines_of};
ghost use Rattle.std.specs.List.{All, Contains};
ghost use Rattle.text_parts.specs.Table.{FindSame};
ghost use Rattle.rv_asm.specs.SortedLabels.{places_of};
ghost use Rattle.rv_asm.specs.Labels.{labels_from, entry_at, defined_in, line_size, line_code};
ghost use Rattle.rv_asm.specs.Program.{reading_of, reading_of_lines, broken_by, words_at, address_after};
ghost use Rattle.rv_asm.specs.Answers.{Answers, LineAnswers};
ghost use Rattle.rv_asm.specs.Parsed.{texts_of};
ghost use Rattle.rv_asm.specs.RuleByRule.{AreWordsOf, HasCause};

use crate::clean::is_clean;
use crate::labels::{Labels, Place};
use crate::parsed::{Parsed, parse_line, size_of_statement, statement_or_nothing};
use crate::refusal::AsmRefused;
use crate::row::Row;
use crate::rules::broken_rule;
use crate::words::push_words;
use std::alloc::Global;
use t32_base::lists::List;
use text_parts::first_line;

/// The lines of a text, each parsed once.
#[tactic(auto, using(crate::proofs::CleanTexts::clean_line, crate::proofs::CleanTexts::clean_rest))]
fn parse_lines(alloc: Global, text: &[u8]) -> Result<Vec<Parsed<'_>>, AsmRefused>
    ensures lines { IfOk result (λ lines. texts_of lines.items ≡ lines_of text.now) }
    ensures memory { IsOkUnless result AsmRefused.NoMemory }
{
    let clean = is_clean(text);
    let mut lines = Vec::new(alloc);
    let mut rest = text;
    while !rest.is_empty() {
        let (line, after) = first_line(rest);
        lines.push(parse_line(line, clean))?;
        rest = after;
    }
    Ok(lines)
}

/// Adds the label that a line defines, and counts its words.
fn add_label<'a>(
    rows: &mut Vec<Row<'a>>,
    number: u64,
    words: u64,
    parsed: &Parsed<'a>,
) -> Result<u64, AsmRefused>
    ensures label { OnOk result (places_of rows.new.items ≡ places_of rows.old.items ++ entry_at number words (defined_in parsed.now.line.now)) }
    ensures words { IfOk result (λ after. after ≡ words + line_size parsed.now.line.now) }
    ensures memory { IsOkUnless result AsmRefused.NoMemory }
{
    let size = size_of_statement(statement_or_nothing(parsed.statement)) as u64;
    if let Some(name) = parsed.defines {
        let place = Place {
            line: number,
            words,
        };
        rows.push(Row::new(name, place))?;
    }
    // No text that memory holds has so many words.
    words.checked_add(size).ok_or(AsmRefused::NoMemory)
}

/// The labels of lines, which are counted from 1.
fn label_table<'a>(alloc: Global, lines: &[Parsed<'a>]) -> Result<Labels<'a>, AsmRefused>
    ensures labels { IfOk result (λ labels. FindSame labels (labels_from 1 0 (texts_of lines.now))) }
    ensures each { IfOk result (λ labels. All (Contains labels) (labels_from 1 0 (texts_of lines.now))) }
    ensures memory { IsOkUnless result AsmRefused.NoMemory }
{
    let mut rows = Vec::new(alloc);
    let mut number = 1u64;
    let mut words = 0u64;
    for parsed in lines {
        words = add_label(&mut rows, number, words, parsed)?;
        number += 1;
    }
    Ok(Labels::sorted(rows))
}

/// Puts the words of a line behind those of the lines before it.
fn assemble_line<'a>(
    alloc: Global,
    labels: &Labels<'a>,
    number: u64,
    parsed: &Parsed<'a>,
    words: &mut List<u32>,
) -> Result<(), AsmRefused>
    requires room { length words.old ≤ 16384 }
    requires own { All (Contains labels.now) (entry_at number (length words.old) (defined_in parsed.now.line.now)) }
    ensures answer { LineAnswers result number (broken_by labels.now number (length words.old) parsed.now.line.now) }
    ensures words { OnOk result (words.new ≡ words.old ++ words_at labels.now (address_after (length words.old)) (line_code parsed.now.line.now)) }
{
    match broken_rule(labels, number, words.len() as u64, parsed) {
        Some(rule) => Err(AsmRefused::Line {
            line: number,
            rule: rule.number(),
        }),
        None => {
            push_words(alloc, labels, statement_or_nothing(parsed.statement), words)?;
            Ok(())
        }
    }
}

/// The words of the lines, one after the other, with the labels that they define.
fn words_of_lines<'a>(
    alloc: Global,
    labels: &Labels<'a>,
    lines: &[Parsed<'a>],
) -> Result<List<u32>, AsmRefused>
    requires same { FindSame labels.now (labels_from 1 0 (texts_of lines.now)) }
    requires each { All (Contains labels.now) (labels_from 1 0 (texts_of lines.now)) }
    ensures { Answers result (reading_of_lines (texts_of lines.now)) }
{
    let mut words = List::new(alloc);
    let mut number = 1u64;
    for parsed in lines {
        assemble_line(alloc, labels, number, parsed, &mut words)?;
        number += 1;
    }
    Ok(words)
}

/// The words of the lines, or the first that breaks a rule.
fn read_lines<'a>(alloc: Global, lines: &[Parsed<'a>]) -> Result<List<u32>, AsmRefused>
    ensures { Answers result (reading_of_lines (texts_of lines.now)) }
{
    let labels = label_table(alloc, lines)?;
    words_of_lines(alloc, &labels, lines)
}

/// The words of a text's lines, each of which is parsed once.
fn read_program(alloc: Global, text: &[u8]) -> Result<List<u32>, AsmRefused>
    ensures { Answers result (reading_of text.now) }
{
    let lines = parse_lines(alloc, text)?;
    read_lines(alloc, &lines)
}

/// The words of a program, or the first line that breaks a rule and the lowest rule that it breaks.
///
/// The lines may be a part of a text, as `text_parts::split_lines` cuts it off: they are counted from 1.
pub fn assemble(alloc: Global, text: &[u8]) -> Result<List<u32>, AsmRefused>
    // No line breaks a rule, and these are the words.
    ensures words { IfOk result (λ words. AreWordsOf text.now words) }
    // The line is the first that breaks a rule, and the rule the lowest that it breaks.
    ensures refused { IfErr result (HasCause text.now) }
    // Which of the two it is.
    ensures exact { Answers result (reading_of text.now) }
{
    read_program(alloc, text)
}
