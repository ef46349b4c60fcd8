//! From a text to its system.
ghost use Rattle.std.specs.Prelude.{◌≡◌, ◌+◌, ◌≤◌, ◌<◌, ◌^◌, ℕ, List, true, Ok, OnOk, IfOk, IfErr, is_some, length};
ghost use Rattle.text_parts.specs.Lines.{lines_of, fields_of};
ghost use Rattle.sys_text.specs.declared.stage.Keyword.TheVariants.{Words as WordsOf};
ghost use Rattle.sys_text.specs.Rules.{HasRoom};
ghost use Rattle.sys_text.specs.Fronts.{Starts};
ghost use Rattle.sys_text.specs.ImageNames.{KnowsImages};
ghost use Rattle.sys_text.specs.Reading.{Answer, Outside, Place, Step, goes_on, reading_from, reading_of, step_outside, is_asm, may_end, last_line, named, ended, nothing_yet};
ghost use Rattle.sys_text.specs.Refusal.{number_of_rule};
ghost use Rattle.sys_text.specs.declared.system.System.{System as Described};
ghost use Rattle.sys_text.specs.Valid.{is_system};
ghost use Rattle.sys_text.specs.Text.{system_text};
ghost use Rattle.sys_text.specs.Answers.{Answers, ClosesBlock, IsRefusal, RefusesStep, TakesLine, TakesLines};
ghost use Rattle.sys_text.specs.RuleByRule.{IsSystemOf, HasCause};
ghost use Rattle.sys_text.specs.ElfBlocks.{HasElfBlock, HasLoaded};

use crate::adding::add_line;
use crate::block::take_block;
use crate::line::line_of;
use crate::refusal::{Rule, SystemRefused};
use crate::rules::{Front, broken_rule, front_of};
use crate::stage::{Keyword, Stage};
use crate::state::{Reader, State};
use crate::system::System;
use crate::types::{all_numbers_fit, all_words_fit};
use crate::word_lines::refused;
use std::alloc::Global;
use t32_base::lists::List;
use t32_base::process::ClusterNo;
use text_parts::{Names, first_line};

/// Does the line open an assembler block?
fn opens_block(keyword: Keyword) -> bool
    ensures { result ≡ is_asm keyword }
{
    match keyword {
        Keyword::Asm => true,
        _ => false,
    }
}

/// Takes line `number`, a line of words with these fields.
fn take_words(
    reader: &mut Reader<'_>,
    number: u64,
    line: &[u8],
    fields: &[u8],
) -> Result<(), SystemRefused>
    requires words { Starts reader.old.state line.now WordsOf (fields_of fields.now) }
    requires room { HasRoom reader.old.state }
    requires known { KnowsImages reader.old }
    ensures step { ClosesBlock result reader.new.state (step_outside reader.old.state number line.now) }
    ensures room { OnOk result (HasRoom reader.new.state) }
    ensures known { OnOk result (KnowsImages reader.new) }
{
    let file = reader.state.file;
    let Some(block) = reader.state.block.as_mut() else {
        unreachable!()
    };
    block.read_words(file, number, fields)
}

/// Takes line `number`, which has this keyword and this text after it. Does it open an assembler block?
fn take_fields<'a>(
    alloc: Global,
    reader: &mut Reader<'a>,
    number: u64,
    line: &[u8],
    keyword: Keyword,
    text: &'a [u8],
) -> Result<bool, SystemRefused>
    requires others { keyword ≡ WordsOf → ⊥ }
    requires starts { Starts reader.old.state line.now keyword (fields_of text.now) }
    requires room { HasRoom reader.old.state }
    requires known { KnowsImages reader.old }
    ensures step { TakesLine result reader.new.state number (step_outside reader.old.state number line.now) }
    ensures opens { IfOk result (λ is_asm. is_asm ≡ true → is_some reader.new.state.block ≡ true) }
    ensures room { OnOk result (HasRoom reader.new.state) }
    ensures known { OnOk result (KnowsImages reader.new) }
{
    match line_of(keyword, text) {
        Err(rule) => Err(refused(number, rule)),
        Ok(read) => match broken_rule(reader, read) {
            Some(rule) => Err(refused(number, rule)),
            None => match add_line(alloc, reader, number, read) {
                Err(refused) => Err(refused),
                Ok(()) => Ok(opens_block(keyword)),
            },
        },
    }
}

/// Takes line `number`, outside assembler blocks. Does it open one?
fn take_line<'a>(
    alloc: Global,
    reader: &mut Reader<'a>,
    number: u64,
    line: &'a [u8],
) -> Result<bool, SystemRefused>
    requires room { HasRoom reader.old.state }
    requires known { KnowsImages reader.old }
    ensures step { TakesLine result reader.new.state number (step_outside reader.old.state number line.now) }
    ensures opens { IfOk result (λ is_asm. is_asm ≡ true → is_some reader.new.state.block ≡ true) }
    ensures room { OnOk result (HasRoom reader.new.state) }
    ensures known { OnOk result (KnowsImages reader.new) }
{
    match front_of(&reader.state, line) {
        Front::Refused(rule) => Err(refused(number, rule)),
        Front::Skipped => Ok(false),
        Front::Known(keyword, text) => match keyword {
            Keyword::Words => match take_words(reader, number, line, text) {
                Ok(()) => Ok(false),
                Err(refused) => Err(refused),
            },
            _ => take_fields(alloc, reader, number, line, keyword, text),
        },
    }
}

/// The number of the rule that is named of a refused line before this text.
#[tactic(auto, using(crate::proofs::LastLines::number_last, crate::proofs::LastLines::number_before))]
fn named(rule: u8, after: &[u8]) -> u8
    ensures { (broken : Rule) → rule ≡ number_of_rule broken → result ≡ number_of_rule (named broken (lines_of after.now)) }
{
    if after.is_empty() { rule.min(10) } else { rule }
}

/// The refusal of a text by a line before this rest of it.
fn refused_before(refused: SystemRefused, after: &[u8]) -> SystemRefused
    ensures { (step : Step) (rest : Place → Answer) → RefusesStep refused step → IsRefusal result (goes_on step (lines_of after.now) rest) }
{
    match refused {
        SystemRefused::NoMemory => SystemRefused::NoMemory,
        SystemRefused::BadLine { line, rule } => SystemRefused::BadLine {
            line,
            rule: named(rule, after),
        },
    }
}

/// Takes the next line, and the whole of a block that it opens.
fn take_next<'a>(
    alloc: Global,
    reader: &mut Reader<'a>,
    number: u64,
    text: &'a [u8],
) -> Result<(u64, &'a [u8]), SystemRefused>
    requires some { 0 < length text.now }
    requires room { HasRoom reader.old.state }
    requires known { KnowsImages reader.old }
    requires few { number + length text.now < 2 ^ 64 }
    ensures read { TakesLines result reader.new.state (reading_from (Outside reader.old.state) number (lines_of text.now)) }
    ensures room { OnOk result (HasRoom reader.new.state) }
    ensures known { OnOk result (KnowsImages reader.new) }
    ensures left { IfOk result (λ after. after.0 + length after.1.now ≤ number + length text.now) }
    ensures shorter { IfOk result (λ after. length after.1.now < length text.now) }
{
    let (line, after) = first_line(text);
    let next = number + 1;
    match take_line(alloc, reader, next, line) {
        Ok(true) => take_block(alloc, reader, next, after),
        Ok(false) => Ok((next, after)),
        Err(refused) => Err(refused_before(refused, after)),
    }
}

/// Nothing has been read.
fn nothing_yet<'a>(alloc: Global) -> State<'a>
    ensures state { result ≡ nothing_yet }
    ensures room { HasRoom result }
{
    State {
        stage: Stage::Start,
        system: empty_system(alloc),
        block: None,
        file: None,
    }
}

fn empty_system(alloc: Global) -> System
    ensures { result ≡ nothing_yet.system }
{
    System {
        clusters: 0,
        pager: (ClusterNo(0), ClusterNo(0)),
        syncreads: 0,
        syncsteps: 0,
        images: List::new(alloc),
        roots: List::new(alloc),
        chans: List::new(alloc),
    }
}

/// May a text end here?
fn may_end(stage: Stage) -> bool
    ensures { result ≡ may_end stage }
{
    match stage {
        Stage::Roots | Stage::Chans => true,
        _ => false,
    }
}

fn last_line(lines: u64) -> u64
    ensures { result ≡ last_line lines }
{
    if lines == 0 { 1 } else { lines }
}

/// The reading before its first line.
fn new_reader<'a>(alloc: Global) -> Reader<'a>
    ensures state { result.state ≡ nothing_yet }
    ensures room { HasRoom result.state }
    ensures known { KnowsImages result }
{
    Reader {
        state: nothing_yet(alloc),
        places: Names::new(alloc),
    }
}

/// The system, where the text may end.
fn ended(state: State<'_>, lines: u64) -> Result<System, SystemRefused>
    ensures { Answers result (ended state.entry.stage state.entry.system lines) }
{
    if may_end(state.stage) {
        Ok(state.system)
    } else {
        Err(SystemRefused::BadLine {
            line: last_line(lines),
            rule: Rule::Ended.number(),
        })
    }
}

/// The lines one after the other.
#[tactic(auto, unfolding(crate::specs::Reading::system_of_lines))]
fn read_lines(alloc: Global, text: &[u8]) -> Result<System, SystemRefused>
    ensures { Answers result (reading_of text.now) }
{
    let mut reader = new_reader(alloc);
    let mut rest = text;
    let mut number = 0u64;
    while !rest.is_empty() {
        let (next, after) = take_next(alloc, &mut reader, number, rest)?;
        number = next;
        rest = after;
    }
    ended(reader.state, number)
}

/// The system of a text, or the first line that breaks a rule and the lowest rule that it breaks.
pub fn read_system(alloc: Global, text: &[u8]) -> Result<System, SystemRefused>
    // Which of the two it is.
    ensures exact { Answers result (reading_of text.now) }
    // No line breaks a rule, and the system is what the lines say together.
    ensures system { IfOk result (IsSystemOf text.now) }
    // The line is the first that breaks a rule, and the rule the lowest that it breaks.
    ensures refused { IfErr result (HasCause text.now) }
    // The system keeps the rules.
    ensures valid { IfOk result (λ system. is_system system ≡ true) }
{
    match read_lines(alloc, text) {
        Ok(system) => {
            all_words_fit(system.images.as_slice());
            all_numbers_fit(system.roots.as_slice());
            Ok(system)
        }
        Err(refused) => Err(refused),
    }
}

/// A law and no code: the canonical text of a system that keeps the rules is read as this system. So each such
/// system is one that some text has.
pub fn systems_read_back()
    ensures { (s : Described) → is_system s ≡ true → reading_of (system_text s) ≡ Ok s }
{}

/// A law and no code: the end of a block `elf` adds the image of its file, which stays where it is: the loaded memory without
/// the zero words at its end, and the file's entry.
pub fn elf_blocks_load()
    ensures { (text : List ℕ) (before number : ℕ) (file : List ℕ) (pages : ℕ) (s : Described)
        → HasElfBlock text before number file pages → reading_of text ≡ Ok s → HasLoaded s number file pages }
{}
