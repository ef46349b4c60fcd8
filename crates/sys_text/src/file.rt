//! From the words of a file to those of its image.
ghost use Rattle.std.specs.Prelude.{◌≡◌, ◌≤◌, ◌<◌, ◌+◌, ◌-◌, ◌*◌, ◌/◌, true, false, IfOk, IfErr, None, length, take};
ghost use Rattle.rv_elf.specs.Answers.{Refuses};
ghost use Rattle.sys_text.specs.Files.{broken_in, entry_loaded, file_of, trimmed, words_loaded, words_of_bytes};

use byteorder::{ByteOrder, LittleEndian};
use rv_elf::{ElfRefused, load_elf};
use std::alloc::{AllocError, Global};
use t32_base::lists::List;

/// What an image has from its file.
#[derive(Drop)]
pub struct FileImage {
    pub words: List<u32>,
    pub entry: u32,
}

/// The first bytes of words, lowest byte first.
fn file_of(alloc: Global, words: &[u32], size: u32) -> Result<Vec<u8>, AllocError>
    requires { length words.now ≡ (size + 3) / 4 }
    ensures { IfOk result (λ file. file.items ≡ file_of size words.now) }
{
    let mut bytes = vec![in alloc; 0u8; 4 * words.len()]?;
    LittleEndian::write_u32_into(words, &mut bytes);
    bytes.truncate(size as usize);
    Ok(bytes)
}

/// Reads words from bytes, lowest byte first.
fn read_words(words: &mut [u32], bytes: &[u8])
    requires { length bytes.now ≡ 4 * length words.old }
    ensures { words.new ≡ words_of_bytes bytes.now }
{
    LittleEndian::read_u32_into(bytes, words);
}

/// The words of bytes, lowest byte first.
fn words_of_bytes(alloc: Global, bytes: &[u8], count: usize) -> Result<Vec<u32>, AllocError>
    requires { length bytes.now ≡ 4 * count }
    ensures { IfOk result (λ words. words.items ≡ words_of_bytes bytes.now) }
{
    let mut words = vec![in alloc; 0u32; count]?;
    read_words(&mut words, bytes);
    Ok(words)
}

/// Is the last word a zero?
fn ends_in_zero(words: &[u32]) -> bool
    ensures some { result ≡ true → 0 < length words.now }
    ensures dropped { result ≡ true → trimmed (take (length words.now - 1) words.now) ≡ trimmed words.now }
    ensures kept { result ≡ false → trimmed words.now ≡ words.now }
{
    let count = words.len();
    count > 0 && words[count - 1] == 0
}

/// Drops the zeros at the end.
fn trim(words: &mut Vec<u32>)
    ensures { words.new.items ≡ trimmed words.old.items }
{
    while ends_in_zero(words) {
        words.pop();
    }
}

/// The words and the entry of the image of the file of so many bytes in these words, in so many pages; or the lowest rule
/// that the file breaks.
pub fn load_words(
    alloc: Global,
    words: &[u32],
    size: u32,
    pages: u16,
) -> Result<FileImage, ElfRefused>
    requires size { length words.now ≡ (size + 3) / 4 }
    requires least { 1 ≤ pages }
    requires most { pages ≤ 256 }
    ensures words { IfOk result (λ image. image.words ≡ words_loaded size words.now pages) }
    ensures entry { IfOk result (λ image. image.entry ≡ entry_loaded size words.now) }
    ensures kept { IfOk result (λ image. broken_in size words.now pages ≡ None) }
    ensures refused { IfErr result (λ refused. Refuses refused (broken_in size words.now pages)) }
{
    let file = file_of(alloc, words, size)?;
    match load_elf(alloc, &file, pages) {
        Err(refused) => Err(refused),
        Ok(loaded) => {
            let mut words = words_of_bytes(
                alloc,
                loaded.bytes.as_slice(),
                64 * usize::from(pages),
            )?;
            trim(&mut words);
            Ok(FileImage {
                words: List::from_vec(words),
                entry: loaded.entry,
            })
        }
    }
}
