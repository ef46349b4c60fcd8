//! The memory of a process: a list of bytes, with a mark for each page that changed.
#![tactic(auto)]

ghost use Rattle.std.specs.Prelude.{true, false, ◌≡◌, ◌+◌, ◌-◌, ◌*◌, ◌^◌, ◌≤◌, ◌<◌, ◌++◌, length, replicate, slice_get, slice_set, IfOk, OnOk, OnErr};
ghost use Rattle.byteorder.specs.Endian.{little_bytes};
ghost use Rattle.rv_mem.specs.Memory.{IsWidth, bytes_at, copy_refusal, is_inside, number_at, page_at, refusal, stored, unless, with_bytes, written};

use byteorder::{ByteOrder, LittleEndian};
use std::alloc::{AllocError, Global};
use std::marker::Model;
use thiserror::Error;

/// The address of the first byte of every memory.
pub const BASE: u32 = 0x10000;

/// Why an access was refused, with its address.
#[derive(Clone, Copy, PartialEq, Eq, Debug, Error)]
pub enum BadAddr {
    /// The address is no multiple of the access's width.
    #[error("address {0:#x} is no multiple of the width of the access")]
    Misaligned(u32),
    /// A byte of the access lies outside the memory.
    #[error("the access at address {0:#x} goes outside the memory")]
    OutOfRange(u32),
}

/// The allocator refused the room for a memory.
#[derive(Clone, Copy, PartialEq, Eq, Debug, Error)]
#[error("no room for the memory of a process")]
pub struct NoMemory;

impl From<AllocError> for NoMemory {
    ghost from_gives = { λ _ _. Unit {0} };

    fn from(_error: AllocError) -> Self {
        NoMemory
    }
}

/// The memory of a process: 1 to 256 pages of 256 bytes, whose first byte has the address 0x10000. Each
/// page has a mark, which is set while the page is dirty: some byte of it was written since the page was
/// put or its mark cleared. Contracts see the list of the bytes and the list of the marks.
#[derive(Drop)]
pub struct Ram {
    bytes: Vec<u8>,
    dirty: Vec<bool>,
}

impl Model for Ram {
    ghost use Rattle.std.specs.Prelude.{◌≡◌, ◌*◌, ◌≤◌, length};
    ghost use Rattle.rv_mem.specs.Marks.{Memory};

    ghost Value = { Memory };

    ghost view = { λ r. record { bytes = r.bytes.items; dirty = r.dirty.items } };

    ghost invariant = { λ r. (length r.bytes.items ≡ 256 * length r.dirty.items) × (1 ≤ length r.dirty.items) × (length r.dirty.items ≤ 256) };
}

impl Ram {
    /// A memory of `pages` pages that begins with the image; the rest is zero, and no page is dirty.
    /// `NoMemory` says that the allocator refused, and nothing is kept then.
    pub fn filled(alloc: Global, pages: u16, image: &[u8]) -> Result<Ram, NoMemory>
        requires some { 1 ≤ pages }
        requires at_most { pages ≤ 256 }
        requires fits { length image.now ≤ 256 * pages }
        ensures { IfOk result (λ r. r ≡ record {
          bytes = image.now ++ replicate (256 * pages - length image.now) 0;
          dirty = replicate pages false;
        }) }
    {
        let mut bytes = vec![in alloc; 0u8; usize::from(pages) * 256]?;
        let dirty = vec![in alloc; false; usize::from(pages)]?;
        bytes[0..image.len()].copy_from_slice(image);
        Ok(Ram { bytes, dirty })
    }

    /// How many pages of 256 bytes the memory has: 1 to 256, with a mark each.
    pub fn pages(&self) -> u16
        ensures marks { result ≡ length self.now.dirty }
        ensures bytes { length self.now.bytes ≡ 256 * length self.now.dirty }
        ensures some { 1 ≤ result }
        ensures at_most { result ≤ 256 }
    {
        self.dirty.len() as u16
    }

    /// Whether each of the `len` bytes from `addr` on lies in memory. No bytes do, at any address.
    #[inline(always)]
    pub fn inside(&self, addr: u32, len: u32) -> bool
        ensures { result ≡ is_inside self.now.bytes addr len }
    {
        let size = self.bytes.len();
        len == 0 || addr.wrapping_sub(BASE) as usize + len as usize <= size
    }

    /// The number in the `width` bytes at `addr`, lowest byte first (RISC-V unprivileged specification,
    /// RV32I: load and store instructions). The width is 1, 2 or 4. An address that is no multiple of the
    /// width is refused first, and then one with a byte outside.
    #[inline(always)]
    pub fn load(&self, addr: u32, width: u8) -> Result<u32, BadAddr>
        requires { IsWidth width }
        ensures answer { result ≡ unless (refusal self.now.bytes addr width) (number_at self.now.bytes addr width) }
        ensures fits { IfOk result (λ n. n < 2 ^ (8 * width)) }
    {
        let width = u32::from(width);
        if addr % width != 0 {
            return Err(BadAddr::Misaligned(addr));
        }
        if !self.inside(addr, width) {
            return Err(BadAddr::OutOfRange(addr));
        }
        let bytes = &self.bytes[addr.wrapping_sub(BASE) as usize..];
        Ok(match width {
            1 => u32::from(bytes[0]),
            2 => u32::from(LittleEndian::read_u16(bytes)),
            _ => LittleEndian::read_u32(bytes),
        })
    }

    /// Puts the low `width` bytes of a number at `addr`, lowest byte first, and marks their page. The width
    /// is 1, 2 or 4. Refuses as `load` does, and then changes nothing.
    #[inline(always)]
    pub fn store(&mut self, addr: u32, width: u8, value: u32) -> Result<(), BadAddr>
        requires { IsWidth width }
        ensures answer { result ≡ unless (refusal self.old.bytes addr width) tt }
        ensures ok { OnOk result (self.new ≡ stored self.old addr width value) }
        ensures err { OnErr result (self.new ≡ self.old) }
        ensures marks { length self.new.dirty ≡ length self.old.dirty }
    {
        let width = u32::from(width);
        if addr % width != 0 {
            return Err(BadAddr::Misaligned(addr));
        }
        if !self.inside(addr, width) {
            return Err(BadAddr::OutOfRange(addr));
        }
        let at = addr.wrapping_sub(BASE) as usize;
        let end = at + width as usize;
        put_number(&mut self.bytes[at..end], width, value);
        self.dirty[at / 256] = true;
        Ok(())
    }

    /// Copies the bytes from `addr` on into all of `out`. The address may be any number. With a byte outside
    /// it answers `OutOfRange`, and `out` is as it was.
    #[inline(always)]
    pub fn copy_out(&self, addr: u32, out: &mut [u8]) -> Result<(), BadAddr>
        requires { length out.old < 2 ^ 32 }
        ensures answer { result ≡ unless (copy_refusal self.now.bytes addr (length out.old)) tt }
        ensures ok { OnOk result (out.new ≡ bytes_at self.now.bytes addr (length out.old)) }
        ensures err { OnErr result (out.new ≡ out.old) }
    {
        if !self.inside(addr, out.len() as u32) {
            return Err(BadAddr::OutOfRange(addr));
        }
        if out.len() > 0 {
            let at = addr.wrapping_sub(BASE) as usize;
            let end = at + out.len();
            out.copy_from_slice(&self.bytes[at..end]);
        }
        Ok(())
    }

    /// The `len` bytes from `addr` on, which lie in memory, with no copy of them.
    pub fn part(&self, addr: u32, len: u32) -> &[u8]
        requires { is_inside self.now.bytes addr len ≡ true }
        ensures { result.now ≡ bytes_at self.now.bytes addr len }
    {
        if len == 0 {
            return &[];
        }
        let at = addr.wrapping_sub(BASE) as usize;
        let end = at + len as usize;
        &self.bytes[at..end]
    }

    /// Puts all of `from` at `addr`, and marks each page that has one of these bytes. The address may be any
    /// number. With a byte outside it answers `OutOfRange`, and changes nothing.
    pub fn copy_in(&mut self, addr: u32, from: &[u8]) -> Result<(), BadAddr>
        requires { length from.now < 2 ^ 32 }
        ensures answer { result ≡ unless (copy_refusal self.old.bytes addr (length from.now)) tt }
        ensures ok { OnOk result (self.new ≡ written self.old addr from.now) }
        ensures err { OnErr result (self.new ≡ self.old) }
        ensures marks { length self.new.dirty ≡ length self.old.dirty }
    {
        if !self.inside(addr, from.len() as u32) {
            return Err(BadAddr::OutOfRange(addr));
        }
        if from.len() > 0 {
            let at = addr.wrapping_sub(BASE) as usize;
            let end = at + from.len();
            self.bytes[at..end].copy_from_slice(from);
            for page in at / 256..(end - 1) / 256 + 1 {
                self.dirty[page] = true;
            }
        }
        Ok(())
    }

    /// A copy of page `i`, counted from 0.
    pub fn page(&self, i: u16) -> [u8; 256]
        requires { i < length self.now.dirty }
        ensures { result ≡ page_at self.now.bytes i }
    {
        let at = usize::from(i) * 256;
        let mut page = [0; 256];
        page.copy_from_slice(&self.bytes[at..at + 256]);
        page
    }

    /// Puts page `i`, counted from 0, which is not dirty afterwards.
    pub fn set_page(&mut self, i: u16, page: &[u8; 256])
        requires { i < length self.old.dirty }
        ensures { self.new ≡ record {
          bytes = with_bytes self.old.bytes (0x10000 + 256 * i) page.now;
          dirty = slice_set self.old.dirty i false;
        } }
    {
        let at = usize::from(i) * 256;
        self.bytes[at..at + 256].copy_from_slice(page);
        self.dirty[usize::from(i)] = false;
    }

    /// Whether page `i`, counted from 0, is dirty.
    pub fn is_dirty(&self, i: u16) -> bool
        requires { i < length self.now.dirty }
        ensures { slice_get self.now.dirty i ≡ Some result }
    {
        self.dirty[usize::from(i)]
    }

    /// Clears each mark: no page is dirty afterwards. The bytes stay.
    pub fn clear_dirty(&mut self)
        ensures { self.new ≡ record self.old { dirty = replicate (length self.old.dirty) false } }
    {
        for mark in self.dirty.iter_mut() {
            *mark = false;
        }
    }

    /// A memory of the same bytes, with every page dirty. `NoMemory` says that the allocator refused, and
    /// nothing is kept then.
    pub fn child(&self) -> Result<Ram, NoMemory>
        ensures { IfOk result (λ r. r ≡ record {
          bytes = self.now.bytes;
          dirty = replicate (length self.now.dirty) true;
        }) }
    {
        let bytes = self.bytes.clone()?;
        let mut dirty = self.dirty.clone()?;
        for mark in dirty.iter_mut() {
            *mark = true;
        }
        Ok(Ram { bytes, dirty })
    }
}

// Puts the low bytes of a number into a slice.
#[inline(always)]
fn put_number(bytes: &mut [u8], width: u32, value: u32)
    requires width { IsWidth width }
    requires fits { width ≡ length bytes.old }
    ensures { bytes.new ≡ little_bytes width value }
{
    match width {
        1 => bytes[0] = (value & 0xff) as u8,
        2 => LittleEndian::write_u16(bytes, (value & 0xffff) as u16),
        _ => LittleEndian::write_u32(bytes, value),
    }
}
