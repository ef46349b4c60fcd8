//! The program headers of a file.
ghost use Rattle.std.specs.Prelude.{◌≡◌, ◌+◌, ◌*◌, ◌<◌, ◌≤◌, length, IfOk};
ghost use Rattle.rv_elf.specs.File.{header_at as header_in, headers_to};

use crate::fields::word;
use std::alloc::{AllocFailed, Global};

/// A program header. The fields that have no part in loading are left out.
#[derive(Clone, Copy)]
pub struct Header {
    /// The type of the header.
    pub kind: u32,
    /// Where its bytes stand in the file.
    pub offset: u32,
    /// The address of the first of them in memory.
    pub address: u32,
    /// How many bytes the file has of it.
    pub file_size: u32,
    /// How many bytes of memory it takes.
    pub memory_size: u32,
}

/// The header whose 32 bytes stand at this place.
fn header_at(file: &[u8], at: usize) -> Header
    requires { at + 32 ≤ length file.now }
    ensures { result ≡ header_in file.now at }
{
    Header {
        kind: word(file, at),
        offset: word(file, at + 4),
        address: word(file, at + 8),
        file_size: word(file, at + 16),
        memory_size: word(file, at + 20),
    }
}

/// The headers of a table that begins at this place.
pub fn headers(
    alloc: Global,
    file: &[u8],
    table: usize,
    count: u16,
) -> Result<Vec<Header>, AllocFailed<Header>>
    requires { 0 < count → table + 32 * count ≤ length file.now }
    ensures { IfOk result (λ headers. headers.items ≡ headers_to file.now table count) }
{
    let mut headers = Vec::new(alloc);
    for i in 0..count {
        headers.push(header_at(file, table + 32 * usize::from(i)))?;
    }
    Ok(headers)
}
