//! A root at its start, whose memory was not made yet.
ghost use Rattle.std.specs.Prelude.{◌≡◌, ◌≤◌, ◌<◌, ◌*◌, ◌+◌, ◌++◌, ℕ, List, Ok, IfOk, drop, length, take};
ghost use Rattle.rv_mem.specs.Memory.{page_at};
ghost use Rattle.sys_text.specs.Boot.{bytes_of_words};
ghost use Rattle.proc_state.specs.Ends.{free_end as free_end_in};
ghost use Rattle.proc_state.specs.State.{linked_to, state_of, IsFresh};
ghost use Rattle.plain_kernel.specs.Kernel.{root_process};
ghost use Rattle.plain_kernel.specs.Starts.{page_of_words, state_load};
ghost use Rattle.plain_kernel.specs.Maps.{CanBoot, IsImageOf};
ghost use Rattle.plain_kernel.specs.ElfBoot.{BootsFile};
ghost use Rattle.sys_text.specs.ElfBlocks.{HasElfBlock};
ghost use Rattle.sys_text.specs.Reading.{reading_of};
ghost use Rattle.sys_text.specs.declared.system.System.{System as Described};
ghost use Rattle.sys_text.specs.declared.system.Root.{Root as ARoot};
ghost use Rattle.t32_base.specs.declared.process.Pid.{Pid as APid};

use byteorder::{ByteOrder, LittleEndian};
use proc_state::process::{Process, first_small, free_end, link_lowest};
use std::alloc::Global;
use std::marker::Model;
use sys_text::system::{Image, Root, System};
use t32_base::process::{Pid, Small};
use t32_base::streams::NoMemory;

/// A root at its start, seen as its process will be: its state, and the image with which its memory begins. The memory
/// itself is made by `process`, and a page of it by `page`.
#[derive(Drop)]
pub struct Start<'a> {
    small: Small,
    image: &'a Image,
}

impl<'a> Model for Start<'a> {
    ghost use Rattle.proc_state.specs.State.{ProcState, started};
    ghost use Rattle.sys_text.specs.Boot.{bytes_of_words};
    ghost use Rattle.plain_kernel.specs.Starts.{IsReady};

    ghost Value = { ProcState };

    ghost view = { λ s. started s.small (bytes_of_words s.image.now.words) };

    ghost invariant = { λ s. IsReady s.small s.image.now };
}

impl<'a> Start<'a> {
    /// A root of a system: its image, followed by zero bytes, and nothing read, sent or synchronised yet. Takes no memory.
    pub fn of_root(system: &'a System, pid: Pid, root: Root) -> Start<'a>
        requires { CanBoot system.now root }
        ensures state { result ≡ root_process system.now pid root }
        ensures load { state_load result ≡ 2 * (root.limit + 34 + root.births * (root.limit + 34)) }
    {
        let image = image_of(system, root);
        Start {
            small: first_small(
                pid,
                image.entry,
                image.pages,
                root.limit,
                root.births,
                root.tty,
            ),
            image,
        }
    }

    /// Its state. Takes no memory.
    pub fn small(&self) -> &Small
        ensures { result.now ≡ self.now.small }
    {
        &self.small
    }

    /// How many pages of 256 bytes its memory has. Takes no memory.
    pub fn pages(&self) -> u16
        ensures pages { result ≡ self.now.small.pages }
        ensures bytes { length self.now.memory ≡ 256 * result }
        ensures some { 1 ≤ result }
        ensures at_most { result ≤ 256 }
    {
        self.small.pages
    }

    /// Page `i` of its memory, counted from 0. Takes no memory.
    pub fn page(&self, i: u16) -> [u8; 256]
        requires { i < self.now.small.pages }
        ensures { result ≡ page_at self.now.memory i }
    {
        page_of(self.image.words.as_slice(), i)
    }

    /// The lowest end that was never linked, if there is one. Takes no memory.
    pub fn free_end(&self) -> Option<u8>
        ensures { result ≡ free_end_in self.now.small.ends }
    {
        free_end(&self.small)
    }

    /// Links the lowest end that was never linked to the end `far` of a peer, if there is one. Takes no memory.
    pub fn link(&mut self, peer: Pid, far: u8)
        ensures linked { self.new ≡ linked_to self.old peer far }
        ensures load { state_load self.new ≡ state_load self.old }
    {
        link_lowest(&mut self.small, peer, far);
    }

    /// The process, with its memory.
    pub fn process(self, alloc: Global) -> Result<Process, NoMemory>
        ensures state { IfOk result (λ p. state_of p ≡ self.entry) }
        ensures fresh { IfOk result IsFresh }
    {
        let bytes = bytes_of(alloc, self.image.words.as_slice())?;
        Process::starting(alloc, self.small, &bytes)
    }
}

// The image of a root, which is there.
fn image_of(system: &System, root: Root) -> &Image
    requires { CanBoot system.now root }
    ensures { IsImageOf system.now root result.now }
{
    &system.images.as_slice()[root.image as usize]
}

// The bytes of words, lowest byte first.
fn bytes_of(alloc: Global, words: &[u32]) -> Result<Vec<u8>, NoMemory>
    requires { length words.now ≤ 16384 }
    ensures bytes { IfOk result (λ bytes. bytes.items ≡ bytes_of_words words.now) }
    ensures size { IfOk result (λ bytes. length bytes.items ≡ 4 * length words.now) }
{
    let mut bytes = vec![in alloc; 0u8; 4 * words.len()]?;
    LittleEndian::write_u32_into(words, &mut bytes);
    Ok(bytes)
}

// Page `i` of the bytes of words, lowest byte first, which zero bytes follow.
fn page_of(words: &[u32], i: u16) -> [u8; 256]
    ensures { result ≡ page_of_words (take 64 (drop (64 * i) words.now)) }
{
    let mut page = [0u8; 256];
    put_words(&mut page, words_of_page(words, i));
    page
}

// The words of page `i`.
fn words_of_page(words: &[u32], i: u16) -> &[u32]
    ensures { result.now ≡ take 64 (drop (64 * i) words.now) }
{
    let first = words.len().min(64 * usize::from(i));
    let rest = &words[first..];
    &rest[..rest.len().min(64)]
}

// Puts words at the front of a page, lowest byte first.
fn put_words(page: &mut [u8; 256], words: &[u32])
    requires { length words.now ≤ 64 }
    ensures { page.new ≡ bytes_of_words words.now ++ drop (4 * length words.now) page.old }
{
    LittleEndian::write_u32_into(words, &mut page[..4 * words.len()]);
}

/// A law and no code: a root whose image the block `elf` of a text gives begins with exactly the memory of the file, at the
/// entry of the file.
pub fn elf_blocks_boot()
    ensures { (text : List ℕ) (before number : ℕ) (file : List ℕ) (pages : ℕ) (system : Described) (p : APid) (root : ARoot)
        → HasElfBlock text before number file pages → reading_of text ≡ Ok system → root.image ≡ number
        → BootsFile file pages (root_process system p root) }
{}
