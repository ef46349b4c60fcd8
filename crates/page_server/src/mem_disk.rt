//! A page disk in memory, which fails at the calls of a list.
ghost use Rattle.std.specs.Prelude.{◌≡◌, [], Some, None, OnOk, OnErr, option_copied};
ghost use Rattle.std.specs.BTreeMap.{get};
ghost use Rattle.std.specs.Ordering.{nat_cmp};
ghost use Rattle.page_server.specs.Disk.{written};
ghost use Rattle.page_server.specs.Sheets.{pages_of, place_of, sheet_of};

use crate::disk::{DiskFault, DiskRefused, PageDisk};
use crate::sheet::{NEIGHBOURS, Sheet};
use std::alloc::{AllocError, Global};
use std::collections::BTreeMap;
use t32_base::lists::List;

// How far apart a pager's slots of a process's pages are: eight of them lie in one row.
const APART: u32 = 16777216;

/// A disk that holds `pages` by slot, in sheets. The calls whose numbers, from 0, stand in `failing` fail.
#[derive(Drop)]
pub struct MemDisk {
    alloc: Global,
    pub pages: BTreeMap<u32, Sheet>,
    pub failing: List<u64>,
    pub made: u64,
    pub fault_calls: u64,
}

impl MemDisk {
    /// A disk that holds no page, with no call made and no fault. Takes no memory.
    pub fn new(alloc: Global, failing: List<u64>) -> MemDisk
        ensures empty { result.pages.entries ≡ [] }
        ensures listed { result.failing ≡ failing }
        ensures calls { result.made ≡ 0 }
        ensures faults { result.fault_calls ≡ 0 }
    {
        MemDisk {
            alloc,
            pages: BTreeMap::new(alloc),
            failing,
            made: 0,
            fault_calls: 0,
        }
    }
}

impl PageDisk for MemDisk {
    ghost slots = { λ d. pages_of d.pages };

    ghost counts = { λ d. record { calls = d.made; faults = d.fault_calls; failing = Some d.failing } };

    fn faults(&self) -> u64 {
        self.fault_calls
    }

    fn calls(&self) -> u64 {
        self.made
    }

    fn put(&mut self, slot: u32, page: &[u8; 256]) -> Result<(), DiskRefused> {
        let call = self.made;
        if self.failing.as_slice().contains(&call) {
            self.made = call.saturating_add(1);
            self.fault_calls = self.fault_calls.saturating_add(1);
            return Err(DiskRefused::Fault(DiskFault { call }));
        }
        match write(self.alloc, &mut self.pages, slot, page) {
            Ok(()) => {
                self.made = call.saturating_add(1);
                Ok(())
            }
            Err(_) => Err(DiskRefused::NoMemory),
        }
    }

    fn get(&mut self, slot: u32) -> Result<[u8; 256], DiskFault> {
        let call = self.made;
        self.made = call.saturating_add(1);
        if self.failing.as_slice().contains(&call) {
            self.fault_calls = self.fault_calls.saturating_add(1);
            return Err(DiskFault { call });
        }
        match read(&self.pages, slot) {
            Some(page) => Ok(*page),
            None => unreachable!(),
        }
    }
}

// The sheet of a slot.
fn sheet_of(slot: u32) -> u32
    ensures { result ≡ sheet_of slot }
{
    slot % APART / NEIGHBOURS
}

// The place of a slot in its sheet: rows of eight places lie behind each other.
fn place_of(slot: u32) -> u32
    ensures { result ≡ place_of slot }
{
    let row = slot / (8 * APART) * NEIGHBOURS + slot % NEIGHBOURS;
    row * 8 + slot / APART % 8
}

// Writes a page to its slot. After want of memory every slot is as it was.
fn write(
    alloc: Global,
    pages: &mut BTreeMap<u32, Sheet>,
    slot: u32,
    page: &[u8; 256],
) -> Result<(), AllocError>
    ensures ok { OnOk result (pages_of pages.new ≡ written (pages_of pages.old) slot page.now) }
    ensures err { OnErr result (pages_of pages.new ≡ pages_of pages.old) }
{
    match pages.get_mut(&sheet_of(slot)) {
        Some(sheet) => sheet.put(place_of(slot), page),
        None => write_first(alloc, pages, slot, page),
    }
}

// Writes the first page of a sheet.
fn write_first(
    alloc: Global,
    pages: &mut BTreeMap<u32, Sheet>,
    slot: u32,
    page: &[u8; 256],
) -> Result<(), AllocError>
    requires { get nat_cmp pages.old (sheet_of slot) ≡ None }
    ensures ok { OnOk result (pages_of pages.new ≡ written (pages_of pages.old) slot page.now) }
    ensures err { OnErr result (pages_of pages.new ≡ pages_of pages.old) }
{
    let mut sheet = Sheet::new(alloc);
    sheet.put(place_of(slot), page)?;
    pages.insert(sheet_of(slot), sheet)?;
    Ok(())
}

// The page in a slot.
fn read(pages: &BTreeMap<u32, Sheet>, slot: u32) -> Option<&[u8; 256]>
    ensures { option_copied result ≡ pages_of pages.now slot }
{
    match pages.get(&sheet_of(slot)) {
        Some(sheet) => sheet.get(place_of(slot)),
        None => None,
    }
}
