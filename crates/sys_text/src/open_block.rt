//! The block of an image that is open.
ghost use Rattle.std.specs.Prelude.{◌≡◌, ◌≤◌, ◌+◌, ◌/◌, ◌++◌, None, OnOk, IfOk, IfErr, length};
ghost use Rattle.text_parts.specs.Lines.{fields_of};
ghost use Rattle.sys_text.specs.Line.{words_in};
ghost use Rattle.sys_text.specs.Rules.{image_with, limit_of, no_words};
ghost use Rattle.sys_text.specs.Files.{broken_in, image_of_file};
ghost use Rattle.rv_elf.specs.Answers.{Refuses};
ghost use Rattle.sys_text.specs.WordLines.{lowest_of_words, RefusesBy};

use crate::file::load_words;
use crate::refusal::SystemRefused;
use crate::system::Image;
use crate::word_lines::read_words;
use rv_elf::ElfRefused;
use std::alloc::Global;
use std::marker::Model;
use t32_base::lists::{Bytes, List};
use t32_base::streams::NoMemory;

/// The block that is open, seen as the image that it has described so far. Its name stands in the text.
#[derive(Drop)]
pub struct OpenBlock<'a> {
    name: &'a [u8],
    pages: u16,
    entry: u32,
    words: List<u32>,
}

impl<'a> Model for OpenBlock<'a> {
    ghost use Rattle.std.specs.Prelude.{◌≤◌};
    ghost use Rattle.sys_text.specs.declared.system.Image.{Image as Described};

    ghost Value = { Described };

    ghost view = { λ b. record { name = b.name.now; pages = b.pages; entry = b.entry; words = b.words } };

    ghost invariant = { λ b. (1 ≤ b.pages) × (b.pages ≤ 256) };
}

/// How many pages the words of a block may fill, where these are a limit.
fn limit_of(file: Option<u32>, pages: u16) -> Option<u16>
    ensures { result ≡ limit_of file pages }
{
    match file {
        Some(_) => None,
        None => Some(pages),
    }
}

impl<'a> OpenBlock<'a> {
    /// A block of no words yet. Takes no memory.
    pub fn new(alloc: Global, name: &'a [u8], pages: u16, entry: u32) -> Self
        requires least { 1 ≤ pages }
        requires most { pages ≤ 256 }
        ensures { result ≡ no_words name.now pages entry }
    {
        OpenBlock {
            name,
            pages,
            entry,
            words: List::new(alloc),
        }
    }

    pub fn name(&self) -> &'a [u8]
        ensures { result.now ≡ self.now.name }
    {
        self.name
    }

    pub fn pages(&self) -> u16
        ensures { result ≡ self.now.pages }
    {
        self.pages
    }

    /// The number of its words so far.
    pub fn len(&self) -> usize
        ensures { result ≡ length self.now.words }
    {
        self.words.len()
    }

    /// Reads the words of line `number` behind those so far, which fill no more than the pages where they are not a file's.
    pub fn read_words(
        &mut self,
        file: Option<u32>,
        number: u64,
        fields: &[u8],
    ) -> Result<(), SystemRefused>
        ensures words { OnOk result (self.new ≡ image_with self.old (self.old.words ++ words_in (fields_of fields.now))) }
        ensures kept { OnOk result (lowest_of_words (length self.old.words) (limit_of file self.old.pages) (fields_of fields.now) ≡ None) }
        ensures refused { IfErr result (λ refused. RefusesBy refused number (lowest_of_words (length self.old.words) (limit_of file self.old.pages) (fields_of fields.now))) }
    {
        read_words(&mut self.words, limit_of(file, self.pages), number, fields)
    }

    /// Has these words in place of its own.
    pub fn set_words(&mut self, words: List<u32>)
        ensures { self.new ≡ image_with self.old words }
    {
        self.words = words;
    }

    /// Has the memory of the file of so many bytes in its words in their place, and the entry of this file; or says which
    /// rule the file breaks.
    pub fn load_file(&mut self, alloc: Global, size: u32) -> Result<(), ElfRefused>
        requires { length self.old.words ≡ (size + 3) / 4 }
        ensures loaded { OnOk result (self.new ≡ image_of_file size self.old) }
        ensures kept { OnOk result (broken_in size self.old.words self.old.pages ≡ None) }
        ensures refused { IfErr result (λ refused. Refuses refused (broken_in size self.old.words self.old.pages)) }
    {
        match load_words(alloc, self.words.as_slice(), size, self.pages) {
            Err(refused) => Err(refused),
            Ok(loaded) => {
                self.words = loaded.words;
                self.entry = loaded.entry;
                Ok(())
            }
        }
    }

    /// The image of the block that ends.
    pub fn into_image(self, alloc: Global) -> Result<Image, NoMemory>
        ensures { IfOk result (λ image. image ≡ self.entry) }
    {
        Ok(Image {
            name: Bytes::copy_of(alloc, self.name)?,
            pages: self.pages,
            entry: self.entry,
            words: self.words,
        })
    }
}
