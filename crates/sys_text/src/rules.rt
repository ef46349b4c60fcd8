//! The rules that a line may break, by what the lines before it said.
ghost use Rattle.std.specs.Prelude.{◌≡◌, ◌≤◌, ◌+◌, ◌/◌, ◌==◌, length, nat_lt, ◌&&◌, ◌||◌};
ghost use Rattle.sys_text.specs.Valid.{births_of, is_entry, is_within};
ghost use Rattle.sys_text.specs.Rules.{may_stand, keyword_in, begins_comment, has_root, places_with, is_full, keeps_limits, are_same, misnames, lacks_words, overfills, lowest_of, HasRoom};
ghost use Rattle.sys_text.specs.Line.{said};
ghost use Rattle.sys_text.specs.Fronts.{IsFront};
ghost use Rattle.sys_text.specs.ImageNames.{KnowsImages};

use crate::kinds::keyword_named;
use crate::line::{Line, RootFields};
use crate::refusal::Rule;
use crate::stage::{Keyword, Stage};
use crate::state::{Reader, State};
use crate::system::System;
use crate::valid::{births, links};
use crate::word_lines::after_words;
use text_parts::{are_printable, first_field};

/// May a line with this first field come next?
fn may_stand(stage: Stage, keyword: Keyword) -> bool
    ensures { result ≡ may_stand stage keyword }
{
    match stage {
        Stage::Start => matches!(keyword, Keyword::Clusters),
        Stage::AfterClusters => matches!(keyword, Keyword::Pager),
        Stage::AfterPager => matches!(keyword, Keyword::Syncreads),
        Stage::AfterSyncreads => matches!(keyword, Keyword::Syncsteps),
        Stage::Images => matches!(
            keyword,
            Keyword::Image | Keyword::Asm | Keyword::Elf | Keyword::Root
        ),
        Stage::InImage => matches!(keyword, Keyword::Words | Keyword::End),
        Stage::Roots => matches!(keyword, Keyword::Root | Keyword::Chan),
        Stage::Chans => matches!(keyword, Keyword::Chan),
    }
}

/// What the first field of a line says, where it may stand here.
fn keyword_in_stage(stage: Stage, field: &[u8]) -> Option<Keyword>
    ensures { result ≡ keyword_in stage field.now }
{
    match keyword_named(field) {
        Some(keyword) if may_stand(stage, keyword) => Some(keyword),
        _ => None,
    }
}

fn is_within(low: u64, high: u64, number: u64) -> bool
    ensures { result ≡ is_within low high number }
{
    low <= number && number <= high
}

/// May an instruction stand at this address, in so many pages?
fn is_entry(pages: u64, entry: u64) -> bool
    requires { pages ≤ 256 }
    ensures { result ≡ is_entry pages entry }
{
    entry % 4 == 0 && BASE <= entry && entry <= BASE - 4 + 256 * pages
}

/// The address of the first byte of every memory.
const BASE: u64 = 0x10000;

fn root_keeps_limits(clusters: u64, root: RootFields) -> bool
    ensures { result ≡ (nat_lt root.home clusters && nat_lt root.backup clusters && is_within 1 100000 root.limit && is_within 0 31 root.births && is_within 0 15 root.tty) }
{
    root.home < clusters
        && root.backup < clusters
        && is_within(1, 100_000, root.limit)
        && is_within(0, 31, root.births)
        && is_within(0, 15, root.tty)
}

/// Is each number within its limits, and each cluster there?
fn keeps_limits(clusters: u64, line: Line<'_>) -> bool
    ensures { result ≡ keeps_limits clusters (said line.entry) }
{
    match line {
        Line::Clusters(count) => is_within(2, 16, count),
        Line::Pager(first, second) => first < clusters && second < clusters,
        Line::Syncreads(count) => is_within(1, 1000, count),
        Line::Syncsteps(count) => is_within(64, 100_000, count),
        Line::Image(_, pages, entry) => is_within(1, 256, pages) && is_entry(pages, entry),
        Line::Asm(_, pages) => is_within(1, 256, pages),
        Line::Elf(_, pages, size) => is_within(1, 256, pages) && is_within(1, 65536, size),
        Line::Root(root, _) => root_keeps_limits(clusters, root),
        Line::End => true,
        Line::Chan(_, _) => true,
    }
}

/// Are the two clusters or the two roots the same?
fn are_same(line: Line<'_>) -> bool
    ensures { result ≡ are_same (said line.entry) }
{
    match line {
        Line::Pager(first, second) => first == second,
        Line::Root(root, _) => root.home == root.backup,
        Line::Chan(first, second) => first == second,
        _ => false,
    }
}

/// Is it the number of a root, counted from 1?
fn has_root(system: &System, root: u64) -> bool
    ensures { result ≡ has_root system.now root }
{
    1 <= root && root <= system.roots.len() as u64
}

/// Is an image name used twice, or something not there?
fn misnames<'a>(reader: &Reader<'a>, line: Line<'a>) -> bool
    requires { KnowsImages reader.now }
    ensures { result ≡ misnames reader.now.state.system (said line.entry) }
{
    match line {
        Line::Image(name, _, _) => reader.place(name).is_some(),
        Line::Asm(name, _) => reader.place(name).is_some(),
        Line::Elf(name, _, _) => reader.place(name).is_some(),
        Line::Root(_, image) => reader.place(image).is_none(),
        Line::Chan(first, second) => {
            let system = &reader.state.system;
            !has_root(system, first) || !has_root(system, second)
        }
        _ => false,
    }
}

/// Do one root more and its births exceed the 32 places?
fn leaves_no_place(system: &System, births_more: u64) -> bool
    requires { length system.now.roots + births_of system.now.roots ≤ 32 }
    ensures { result ≡ nat_lt 32 (places_with system.now births_more) }
{
    let roots = system.roots.as_slice();
    let places = (roots.len() + births(roots)) as u64;
    places >= 32 || births_more > 31 - places
}

/// Has the root linked all its ends?
fn is_full(system: &System, root: u64) -> bool
    ensures { result ≡ is_full system.now root }
{
    links(system.chans.as_slice(), root as usize) >= 31
}

fn is_either_full(system: &System, first: u64, second: u64) -> bool
    ensures { result ≡ (is_full system.now first || is_full system.now second) }
{
    is_full(system, first) || is_full(system, second)
}

/// Are the words of the open block not as many as its file has?
fn lacks_words(state: &State<'_>) -> bool
    ensures { result ≡ lacks_words state.now.file state.now.block }
{
    let Some(size) = state.file else {
        return false;
    };
    match &state.block {
        Some(block) => !has_words(size, block.len()),
        None => false,
    }
}

/// Are so many words those of a file of so many bytes, the last one filled up?
fn has_words(size: u32, words: usize) -> bool
    ensures { result ≡ (words == (size + 3) / 4) }
{
    words as u64 == (u64::from(size) + 3) / 4
}

/// Is there no room for the line, or has a file not its words?
fn overfills(state: &State<'_>, line: Line<'_>) -> bool
    requires { HasRoom state.now }
    ensures { result ≡ overfills state.now (said line.entry) }
{
    match line {
        Line::End => lacks_words(state),
        Line::Root(root, _) => leaves_no_place(&state.system, root.births),
        Line::Chan(first, second) => is_either_full(&state.system, first, second),
        _ => false,
    }
}

/// The lowest of the rules 5 to 8 that the line breaks.
pub fn broken_rule<'a>(reader: &Reader<'a>, line: Line<'a>) -> Option<Rule>
    requires room { HasRoom reader.now.state }
    requires known { KnowsImages reader.now }
    ensures { result ≡ lowest_of reader.now.state (said line.entry) }
{
    if !keeps_limits(u64::from(reader.state.system.clusters), line) {
        Some(Rule::Limit)
    } else if are_same(line) {
        Some(Rule::Same)
    } else if misnames(reader, line) {
        Some(Rule::Name)
    } else if overfills(&reader.state, line) {
        Some(Rule::Room)
    } else {
        None
    }
}

/// Is the first byte of a field `#`? A line whose first field begins so is skipped.
pub fn begins_comment(field: &[u8]) -> bool
    ensures { result ≡ begins_comment field.now }
{
    match field {
        [b'#', ..] => true,
        _ => false,
    }
}

/// What a line outside assembler blocks begins with.
#[derive(Clone, Copy)]
pub enum Front<'a> {
    /// The rule that it breaks by its bytes or its first field, whatever its other fields are.
    Refused(Rule),
    /// It has no fields, or is a comment.
    Skipped,
    /// A keyword, and the text after it.
    Known(Keyword, &'a [u8]),
}

/// The front of a line that is no plain line of words.
fn front_by_name<'a>(state: &State<'_>, line: &'a [u8]) -> Front<'a>
    ensures { IsFront state.now line.now result }
{
    if !are_printable(line) {
        return Front::Refused(Rule::ForeignByte);
    }
    let Some((first, text)) = first_field(line) else {
        return Front::Skipped;
    };
    if begins_comment(first) {
        return Front::Skipped;
    }
    match keyword_in_stage(state.stage, first) {
        None => Front::Refused(Rule::Misplaced),
        Some(keyword) => Front::Known(keyword, text),
    }
}

/// What the line begins with, outside assembler blocks.
pub fn front_of<'a>(state: &State<'_>, line: &'a [u8]) -> Front<'a>
    ensures { IsFront state.now line.now result }
{
    match after_words(state.stage, line) {
        Some(text) => Front::Known(Keyword::Words, text),
        None => front_by_name(state, line),
    }
}
