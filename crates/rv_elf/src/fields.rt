//! The numbers in a file, lowest byte first.
ghost use Rattle.std.specs.Prelude.{◌≡◌, ◌+◌, ◌≤◌, length};
ghost use Rattle.rv_elf.specs.File.{half as half_at, word as word_at};

use byteorder::{ByteOrder, LittleEndian};

/// The number in the two bytes at this place.
pub fn half(file: &[u8], at: usize) -> u16
    requires { at + 2 ≤ length file.now }
    ensures { result ≡ half_at file.now at }
{
    LittleEndian::read_u16(&file[at..])
}

/// The number in the four bytes at this place.
pub fn word(file: &[u8], at: usize) -> u32
    requires { at + 4 ≤ length file.now }
    ensures { result ≡ word_at file.now at }
{
    LittleEndian::read_u32(&file[at..])
}
