//! The segments of a file in memory. They are placed from the last of the table to the first.
ghost use Rattle.std.specs.Prelude.{◌≡◌, ◌≤◌, ◌<◌, ◌+◌, ◌-◌, ◌∷◌, [], true, false, not, ℕ, List, ◌&&◌, ◌||◌, nat_le, nat_lt, length, drop, get_or, slice_get, Some, if◌then◌else◌};
ghost use Rattle.std.specs.List.{list_any};
ghost use Rattle.rv_elf.specs.declared.headers.Header.{Header as AHeader};
ghost use Rattle.rv_elf.specs.Loaded.{is_segment as is_segment_of};
ghost use Rattle.rv_elf.specs.Rules.{overlap, share};
ghost use Rattle.rv_elf.specs.Placing.{AreSound, Holds, IsFree, IsSound, IsTaken, Marks};

use crate::headers::Header;
use crate::rules::{BASE, is_segment};

/// Sets the marks of a part, where none of them is set.
fn take(taken: &mut [bool], first: usize, end: usize) -> bool
    requires part { first ≤ end }
    requires room { end ≤ length taken.old }
    ensures size { length taken.new ≡ length taken.old }
    ensures found { result ≡ false → IsTaken taken.old first end }
    ensures free { result ≡ true → IsFree taken.old first end }
    ensures marks { result ≡ true → (k : ℕ) → k < length taken.old
        → get_or taken.new k false ≡ ((nat_le first k && nat_lt k end) || get_or taken.old k false) }
{
    for k in first..end {
        if taken[k] {
            return false;
        }
        taken[k] = true;
    }
    true
}

/// Copies so many bytes of the file to a place in memory.
fn copy(bytes: &mut [u8], to: usize, file: &[u8], from: usize, size: usize)
    requires room { to + size ≤ length bytes.old }
    requires there { from + size ≤ length file.now }
    ensures size { length bytes.new ≡ length bytes.old }
    ensures put { (k : ℕ) → k < length bytes.old
        → get_or bytes.new k 0 ≡ (if nat_le to k && nat_lt k (to + size) then get_or file.now (from + k - to) 0 else get_or bytes.old k 0) }
{
    for i in 0..size {
        bytes[to + i] = file[from + i];
    }
}

/// Places a segment where no byte of its memory is taken.
fn place_segment(file: &[u8], header: Header, bytes: &mut [u8], taken: &mut [bool]) -> bool
    requires sound { IsSound (length file.now) (length bytes.old) header }
    requires some { 0 < header.memory_size }
    requires each { length taken.old ≡ length bytes.old }
    ensures size { length bytes.new ≡ length bytes.old }
    ensures each { length taken.new ≡ length bytes.old }
    ensures found { result ≡ false → IsTaken taken.old (header.address - 0x10000) (header.address - 0x10000 + header.memory_size) }
    ensures free { result ≡ true → IsFree taken.old (header.address - 0x10000) (header.address - 0x10000 + header.memory_size) }
    ensures marks { result ≡ true → (k : ℕ) → k < length bytes.old
        → get_or taken.new k false ≡
        ((nat_le (header.address - 0x10000) k && nat_lt k (header.address - 0x10000 + header.memory_size)) || get_or taken.old k false) }
    ensures put { result ≡ true → (k : ℕ) → k < length bytes.old
        → get_or bytes.new k 0 ≡
        (if nat_le (header.address - 0x10000) k && nat_lt k (header.address - 0x10000 + header.file_size)
        then get_or file.now (header.offset + k - (header.address - 0x10000)) 0 else get_or bytes.old k 0) }
{
    let first = (header.address - BASE) as usize;
    if !take(taken, first, first + header.memory_size as usize) {
        return false;
    }
    if header.file_size > 0 {
        copy(
            bytes,
            first,
            file,
            header.offset as usize,
            header.file_size as usize,
        );
    }
    true
}

/// Places what a header says, before the headers behind it: a segment, where none of these has an address of it. Other
/// headers say nothing.
fn place(file: &[u8], header: Header, bytes: &mut [u8], taken: &mut [bool]) -> bool
    requires sound { is_segment_of header ≡ true → IsSound (length file.now) (length bytes.old) header }
    requires each { length taken.old ≡ length bytes.old }
    ensures size { length bytes.new ≡ length bytes.old }
    ensures each { length taken.new ≡ length bytes.old }
    ensures shared { (behind : List AHeader) → Marks taken.old behind → list_any (share header) behind ≡ not result }
    ensures marks { result ≡ true → (behind : List AHeader) → Marks taken.old behind → Marks taken.new (header ∷ behind) }
    ensures holds { result ≡ true → (behind : List AHeader) → Holds bytes.old file.now behind → Holds bytes.new file.now (header ∷ behind) }
{
    if !is_segment(header) || header.memory_size == 0 {
        return true;
    }
    place_segment(file, header, bytes, taken)
}

// The header at a place of the table.
fn header_of(headers: &[Header], i: usize) -> Header
    requires { i < length headers.now }
    ensures at { slice_get headers.now i ≡ Some result }
    ensures first { drop i headers.now ≡ result ∷ drop (i + 1) headers.now }
{
    headers[i]
}

/// Places what the header at a place of the table says, where those behind it were placed.
fn place_from(
    file: &[u8],
    headers: &[Header],
    i: usize,
    bytes: &mut [u8],
    taken: &mut [bool],
) -> bool
    requires there { i < length headers.now }
    requires sound { AreSound (length file.now) (length bytes.old) headers.now }
    requires each { length taken.old ≡ length bytes.old }
    requires apart { overlap (drop (i + 1) headers.now) ≡ false }
    requires marks { Marks taken.old (drop (i + 1) headers.now) }
    requires holds { Holds bytes.old file.now (drop (i + 1) headers.now) }
    ensures size { length bytes.new ≡ length bytes.old }
    ensures each { length taken.new ≡ length bytes.old }
    ensures apart { overlap (drop i headers.now) ≡ not result }
    ensures marks { result ≡ true → Marks taken.new (drop i headers.now) }
    ensures holds { result ≡ true → Holds bytes.new file.now (drop i headers.now) }
{
    place(file, header_of(headers, i), bytes, taken)
}

/// Places the segments of these headers in an empty memory, of which nothing is taken. False where two of them share an address.
pub fn place_all(file: &[u8], headers: &[Header], bytes: &mut [u8], taken: &mut [bool]) -> bool
    requires sound { AreSound (length file.now) (length bytes.old) headers.now }
    requires each { length taken.old ≡ length bytes.old }
    requires zeros { Holds bytes.old file.now [] }
    requires free { Marks taken.old [] }
    ensures size { length bytes.new ≡ length bytes.old }
    ensures apart { overlap headers.now ≡ not result }
    ensures holds { result ≡ true → Holds bytes.new file.now headers.now }
{
    let mut left = headers.len();
    while left > 0 {
        left -= 1;
        if !place_from(file, headers, left, bytes, taken) {
            return false;
        }
    }
    true
}
