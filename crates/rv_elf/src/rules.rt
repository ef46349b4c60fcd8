//! The rules that a file may break before its segments are placed.
ghost use Rattle.std.specs.Prelude.{◌≡◌, ◌≤◌, length};
ghost use Rattle.std.specs.List.{find, list_any};
ghost use Rattle.rv_elf.specs.Loaded.{is_segment as is_segment_of};
ghost use Rattle.rv_elf.specs.Rules.{breaks, break_as, is_dynamic as is_dynamic_of, lies_in_file as lies_in_file_of, lies_in_memory as lies_in_memory_of, lies_within as lies_within_of, goes_beyond as goes_beyond_of, goes_outside as goes_outside_of, lacks_table as lacks_table_of, front_rules, header_rules};

use crate::fields::{half, word};
use crate::headers::Header;
use crate::refusal::Rule;

// 7F 45 4C 46
const MAGIC: u32 = 0x464c_457f;

/// The address of the first byte of every memory.
pub const BASE: u32 = 0x10000;

/// Is it a segment that is loaded?
pub fn is_segment(header: Header) -> bool
    ensures { result ≡ is_segment_of header }
{
    header.kind == 1
}

fn is_dynamic(header: Header) -> bool
    ensures { result ≡ is_dynamic_of header }
{
    header.kind == 2 || header.kind == 3
}

fn lies_in_file(size: usize, header: Header) -> bool
    ensures { result ≡ lies_in_file_of size header }
{
    header.file_size <= header.memory_size
        && (header.file_size == 0
            || u64::from(header.offset) + u64::from(header.file_size) <= size as u64)
}

/// Do so many bytes from this address on lie in a memory of so many pages?
pub fn lies_within(pages: u16, address: u32, size: u32) -> bool
    ensures { result ≡ lies_within_of pages address size }
{
    BASE <= address
        && u64::from(address) + u64::from(size) <= u64::from(BASE) + 256 * u64::from(pages)
}

fn lies_in_memory(pages: u16, header: Header) -> bool
    ensures { result ≡ lies_in_memory_of pages header }
{
    header.memory_size == 0 || lies_within(pages, header.address, header.memory_size)
}

fn goes_beyond(size: usize, header: Header) -> bool
    ensures { result ≡ goes_beyond_of size header }
{
    is_segment(header) && !lies_in_file(size, header)
}

fn goes_outside(pages: u16, header: Header) -> bool
    ensures { result ≡ goes_outside_of pages header }
{
    is_segment(header) && !lies_in_memory(pages, header)
}

fn any_is_dynamic(headers: &[Header]) -> bool
    ensures { result ≡ list_any is_dynamic_of headers.now }
{
    headers.iter().any(|header| is_dynamic(*header))
}

fn any_goes_beyond(size: usize, headers: &[Header]) -> bool
    ensures { result ≡ list_any (goes_beyond_of size) headers.now }
{
    headers.iter().any(|header| goes_beyond(size, *header))
}

fn any_goes_outside(pages: u16, headers: &[Header]) -> bool
    ensures { result ≡ list_any (goes_outside_of pages) headers.now }
{
    headers.iter().any(|header| goes_outside(pages, *header))
}

/// The lowest of the rules for each header that one breaks.
pub fn broken_by_headers(size: usize, pages: u16, headers: &[Header]) -> Option<Rule>
    ensures { result ≡ find (break_as size pages headers.now) header_rules }
{
    if any_is_dynamic(headers) {
        Some(Rule::Dynamic)
    } else if any_goes_beyond(size, headers) {
        Some(Rule::FileBytes)
    } else if any_goes_outside(pages, headers) {
        Some(Rule::Outside)
    } else {
        None
    }
}

/// Is the table of headers not in the file, or are its rows of another size?
fn lacks_table(file: &[u8]) -> bool
    requires { 52 ≤ length file.now }
    ensures { result ≡ lacks_table_of file.now }
{
    let count = half(file, 44);
    let end = u64::from(word(file, 28)) + 32 * u64::from(count);
    count != 0 && (half(file, 42) != 32 || (file.len() as u64) < end)
}

/// The lowest of the rules for the file header that the file breaks.
pub fn broken_in_front(file: &[u8], pages: u16) -> Option<Rule>
    ensures { result ≡ find (breaks file.now pages) front_rules }
{
    if file.len() < 52 || word(file, 0) != MAGIC {
        Some(Rule::NoElf)
    } else if file[4] != 1 || file[5] != 1 {
        Some(Rule::Class)
    } else if half(file, 16) != 2 || half(file, 18) != 243 {
        Some(Rule::Machine)
    } else if word(file, 36) % 2 != 0 {
        Some(Rule::Compressed)
    } else if lacks_table(file) {
        Some(Rule::Table)
    } else {
        None
    }
}
