//! From a file to the memory of a process.
ghost use Rattle.std.specs.Prelude.{◌≡◌, ◌≤◌, ◌*◌, false, length, IfOk, IfErr, IfSome, IsOkUnless, Some, is_none};
ghost use Rattle.std.specs.List.{find};
ghost use Rattle.rv_elf.specs.Answers.{Answers, AnswersBy, HasCause, IsImageOf, Refuses};
ghost use Rattle.rv_elf.specs.File.{headers as headers_of};
ghost use Rattle.rv_elf.specs.Loaded.{memory_of};
ghost use Rattle.rv_elf.specs.Placing.{AreSound};
ghost use Rattle.rv_elf.specs.Rules.{breaks, lacks_table, late_rules, overlap};

use crate::fields::{half, word};
use crate::headers::{Header, headers};
use crate::placing::place_all;
use crate::refusal::{ElfRefused, Rule};
use crate::rules::{broken_by_headers, broken_in_front, lies_within};
use std::alloc::{AllocError, Global};
use t32_base::lists::Bytes;

/// The memory of a process as its file describes it, and the address of its first instruction.
#[derive(Drop)]
pub struct Loaded {
    pub bytes: Bytes,
    pub entry: u32,
}

fn refused(rule: Rule) -> ElfRefused
    ensures { Refuses result (Some rule) }
{
    ElfRefused::Rule(rule.number())
}

/// The memory of so many pages with the segments of these headers: None where two of them share an address.
fn memory(
    alloc: Global,
    file: &[u8],
    headers: &[Header],
    pages: u16,
) -> Result<Option<Vec<u8>>, AllocError>
    requires at_most { pages ≤ 256 }
    requires sound { AreSound (length file.now) (256 * pages) headers.now }
    ensures overlap { IfOk result (λ memory. is_none memory ≡ overlap headers.now) }
    ensures bytes { IfOk result (λ memory. IfSome memory (λ bytes. bytes.items ≡ memory_of file.now headers.now (256 * pages))) }
{
    let size = 256 * usize::from(pages);
    let mut bytes = vec![in alloc; 0u8; size]?;
    let mut taken = vec![in alloc; false; size]?;
    if place_all(file, headers, &mut bytes, &mut taken) {
        Ok(Some(bytes))
    } else {
        Ok(None)
    }
}

/// The image of a file with these headers, which keeps the rules of its file header.
fn load_segments(
    alloc: Global,
    file: &[u8],
    headers: &[Header],
    pages: u16,
) -> Result<Loaded, ElfRefused>
    requires at_most { pages ≤ 256 }
    requires long { 52 ≤ length file.now }
    requires all { headers.now ≡ headers_of file.now }
    ensures { AnswersBy file.now pages (find (breaks file.now pages) late_rules) result }
{
    if let Some(rule) = broken_by_headers(file.len(), pages, headers) {
        return Err(refused(rule));
    }
    let Some(bytes) = memory(alloc, file, headers, pages)? else {
        return Err(refused(Rule::Overlap));
    };
    let entry = word(file, 24);
    if entry % 4 != 0 || !lies_within(pages, entry, 4) {
        return Err(refused(Rule::Entry));
    }
    Ok(Loaded {
        bytes: Bytes::from_vec(bytes),
        entry,
    })
}

/// The headers of a file that has its table.
fn all_headers(alloc: Global, file: &[u8]) -> Result<Vec<Header>, ElfRefused>
    requires long { 52 ≤ length file.now }
    requires table { lacks_table file.now ≡ false }
    ensures headers { IfOk result (λ headers. headers.items ≡ headers_of file.now) }
    ensures memory { IsOkUnless result ElfRefused.NoMemory }
{
    let table = word(file, 28) as usize;
    let headers = headers(alloc, file, table, half(file, 44))?;
    Ok(headers)
}

/// The image of a file, or the lowest rule that the file breaks.
fn load_file(alloc: Global, file: &[u8], pages: u16) -> Result<Loaded, ElfRefused>
    requires at_most { pages ≤ 256 }
    ensures { Answers file.now pages result }
{
    if let Some(rule) = broken_in_front(file, pages) {
        return Err(refused(rule));
    }
    let headers = all_headers(alloc, file)?;
    load_segments(alloc, file, &headers, pages)
}

/// The memory of so many pages that a static executable describes, and the address of its first instruction; or the lowest
/// rule that the file breaks. It reads the file once, and each byte of the memory once or twice.
pub fn load_elf(alloc: Global, file: &[u8], pages: u16) -> Result<Loaded, ElfRefused>
    requires some { 1 ≤ pages }
    requires at_most { pages ≤ 256 }
    // Which of the two it is.
    ensures exact { Answers file.now pages result }
    // No rule is broken, each segment is in memory, and the rest is zero.
    ensures image { IfOk result (IsImageOf file.now pages) }
    // The rule is the lowest that is broken.
    ensures refused { IfErr result (HasCause file.now pages) }
{
    load_file(alloc, file, pages)
}
