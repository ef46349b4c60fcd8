//! The pages of one process: which of the four slots of each page its accounts hold.
ghost use Rattle.std.specs.Prelude.{◌≡◌, ◌<◌, ◌≤◌, ◌⊎◌, [], map, set, length, get_or, OnOk, OnErr, Some, IfSome, Contains};
ghost use Rattle.page_server.specs.Disk.{SlotsAfterPut, CountsAfterPut};
ghost use Rattle.page_server.specs.Slots.{slot, number_of, absent, spare, grown, put_in, change_at, settled, restored, TableAfterPut, IsMarked};

use crate::disk::{DiskRefused, PageDisk};
use std::alloc::{AllocError, Global};
use std::marker::Model;

/// One of the four slots of a page. A put needs no more than two of them; with four, both accounts of a page
/// can be written anew before either lets its old slot go.
#[derive(Clone, Copy, PartialEq)]
pub enum Which {
    First,
    Second,
    Third,
    Fourth,
}

/// The slots that the accounts hold of a page.
#[derive(Clone, Copy)]
pub struct Held {
    pub now: Option<Which>,
    pub kept: Option<Which>,
}

// Neither account has the page.
const ABSENT: Held = Held {
    now: None,
    kept: None,
};

/// How many page numbers there are.
pub const PAGE_NUMBERS: u16 = 256;

/// How many places there are for processes.
pub const PLACES: usize = 4194304;

/// One of the slots of a page of the process at a place. Each has one number of a u32.
pub fn slot_of(place: u32, i: u16, which: Which) -> u32
    requires place { place < 4194304 }
    requires number { i < 256 }
    ensures { result ≡ slot place i which }
{
    let page = u32::from(i) * 4194304 + place;
    page * 4 + number_of(which)
}

fn number_of(which: Which) -> u32
    ensures { result ≡ number_of which }
{
    match which {
        Which::First => 0,
        Which::Second => 1,
        Which::Third => 2,
        Which::Fourth => 3,
    }
}

/// The slots that a process's accounts hold, by page number. The numbers of the pages in which the accounts
/// may differ are noted, so that a commit or a revert visits no other.
#[derive(Drop)]
pub struct PageTable {
    rows: Vec<Held>,
    changed: Vec<u16>,
}

impl Model for PageTable {
    ghost use Rattle.std.specs.Prelude.{List, ◌≤◌, length};
    ghost use Rattle.page_server.specs.declared.table.Held.{Held};

    ghost Value = { List Held };

    ghost use Rattle.page_server.specs.Slots.{IsMarked};

    ghost view = { λ t. t.rows.items };

    ghost invariant = { λ t. IsMarked t.rows.items t.changed.items × (length t.rows.items ≤ 256) };
}

impl PageTable {
    /// No pages. Takes no memory.
    pub fn new(alloc: Global) -> Self
        ensures { result ≡ [] }
    {
        PageTable {
            rows: Vec::new(alloc),
            changed: Vec::new(alloc),
        }
    }

    /// Puts a page on the disk, in a slot that the committed account does not hold, and into the
    /// uncommitted account. After a refusal both accounts are as they were. A page number from 256 on has no
    /// slot, which is want of memory.
    pub fn put<D: PageDisk>(
        &mut self,
        disk: &mut D,
        place: u32,
        i: u16,
        page: &[u8; 256],
    ) -> Result<(), DiskRefused>
        requires { place < 4194304 }
        ensures table { TableAfterPut self.old self.new i result }
        ensures slots { SlotsAfterPut (D.slots disk.old) (D.slots disk.new) (slot place i (spare (get_or self.old i absent).kept)) page.now result }
        ensures counts { CountsAfterPut (D.counts disk.old) (D.counts disk.new) result }
    {
        if i >= PAGE_NUMBERS {
            return Err(DiskRefused::NoMemory);
        }
        match make_row(&mut self.rows, &mut self.changed, i) {
            Err(_) => Err(DiskRefused::NoMemory),
            Ok(()) => put_in_row(&mut self.rows, disk, place, i, page),
        }
    }

    /// The committed account becomes equal to the uncommitted one.
    pub fn commit(&mut self)
        ensures { self.new ≡ map settled self.old }
    {
        settle(&mut self.rows, &self.changed);
        self.changed.clear();
    }

    /// The uncommitted account becomes equal to the committed one.
    pub fn revert(&mut self)
        ensures { self.new ≡ map restored self.old }
    {
        restore(&mut self.rows, &self.changed);
        self.changed.clear();
    }

    /// The slot that the committed account holds of a page.
    pub fn kept(&self, i: u16) -> Option<Which>
        ensures slot { result ≡ (get_or self.now i absent).kept }
        ensures number { IfSome result (λ _. i < 256) }
    {
        match self.rows.get(usize::from(i)) {
            Some(held) => held.kept,
            None => None,
        }
    }

    /// The slot that the uncommitted account holds of a page.
    pub fn uncommitted(&self, i: u16) -> Option<Which>
        ensures slot { result ≡ (get_or self.now i absent).now }
        ensures number { IfSome result (λ _. i < 256) }
    {
        match self.rows.get(usize::from(i)) {
            Some(held) => held.now,
            None => None,
        }
    }
}

// A slot that the committed account does not hold.
fn spare_of(kept: Option<Which>) -> Which
    ensures { result ≡ spare kept }
{
    match kept {
        Some(Which::First) => Which::Second,
        _ => Which::First,
    }
}

// Puts a page into the uncommitted account, in its row.
fn put_in_row<D: PageDisk>(
    rows: &mut Vec<Held>,
    disk: &mut D,
    place: u32,
    i: u16,
    page: &[u8; 256],
) -> Result<(), DiskRefused>
    requires place { place < 4194304 }
    requires number { i < 256 }
    requires within { i < length rows.old.items }
    ensures ok { OnOk result (rows.new.items ≡ set rows.old.items i (put_in (get_or rows.old.items i absent))) }
    ensures err { OnErr result (rows.new.items ≡ rows.old.items) }
    ensures slots { SlotsAfterPut (D.slots disk.old) (D.slots disk.new) (slot place i (spare (get_or rows.old.items i absent).kept)) page.now result }
    ensures counts { CountsAfterPut (D.counts disk.old) (D.counts disk.new) result }
{
    let which = spare_of(rows[usize::from(i)].kept);
    match disk.put(slot_of(place, i, which), page) {
        Ok(()) => {
            hold(rows, i, which);
            Ok(())
        }
        Err(refused) => Err(refused),
    }
}

// The uncommitted account holds this slot of a page.
fn hold(rows: &mut Vec<Held>, i: u16, which: Which)
    requires { i < length rows.old.items }
    ensures { rows.new.items ≡ set rows.old.items i (record { now = Some which; kept = (get_or rows.old.items i absent).kept }) }
{
    let held = &mut rows[usize::from(i)];
    held.now = Some(which);
}

// Gives a page its row, and notes that the accounts may differ in it.
fn make_row(rows: &mut Vec<Held>, changed: &mut Vec<u16>, i: u16) -> Result<(), AllocError>
    requires number { i < 256 }
    requires length { length rows.old.items ≤ 256 }
    requires marked { IsMarked rows.old.items changed.old.items }
    ensures ok { OnOk result (rows.new.items ≡ grown rows.old.items i) }
    ensures within { OnOk result (i < length rows.new.items) }
    ensures number { length rows.new.items ≤ 256 }
    ensures err { OnErr result ((rows.new.items ≡ rows.old.items) ⊎ (rows.new.items ≡ grown rows.old.items i)) }
    ensures marked { IsMarked rows.new.items changed.new.items }
    ensures noted { OnOk result (Contains changed.new.items i) }
{
    grow(rows, i)?;
    mark(rows, changed, i)
}

// Gives a page its row.
fn grow(rows: &mut Vec<Held>, i: u16) -> Result<(), AllocError>
    requires number { i < 256 }
    requires length { length rows.old.items ≤ 256 }
    ensures ok { OnOk result (rows.new.items ≡ grown rows.old.items i) }
    ensures within { OnOk result (i < length rows.new.items) }
    ensures number { length rows.new.items ≤ 256 }
    ensures err { OnErr result (rows.new.items ≡ rows.old.items) }
{
    let row = usize::from(i);
    if rows.len() == row {
        rows.push(ABSENT)?;
    } else if rows.len() < row {
        rows.resize(row + 1, ABSENT)?;
    }
    Ok(())
}

// Notes that the accounts may differ in a page.
fn mark(rows: &[Held], changed: &mut Vec<u16>, i: u16) -> Result<(), AllocError>
    requires within { i < length rows.now }
    requires marked { IsMarked rows.now changed.old.items }
    ensures marked { IsMarked rows.now changed.new.items }
    ensures noted { OnOk result (Contains changed.new.items i) }
{
    let held = rows[usize::from(i)];
    if held.now == held.kept {
        changed.push(i)?;
    }
    Ok(())
}

// Changes every row that is noted.
fn settle(rows: &mut Vec<Held>, changed: &[u16])
    requires { IsMarked rows.old.items changed.now }
    ensures { rows.new.items ≡ map settled rows.old.items }
{
    for i in changed {
        settle_row(rows, usize::from(*i));
    }
}

fn settle_row(rows: &mut Vec<Held>, i: usize)
    ensures { rows.new.items ≡ change_at settled rows.old.items i }
{
    if i < rows.len() {
        let now = rows[i].now;
        rows[i] = Held { now, kept: now };
    }
}

fn restore(rows: &mut Vec<Held>, changed: &[u16])
    requires { IsMarked rows.old.items changed.now }
    ensures { rows.new.items ≡ map restored rows.old.items }
{
    for i in changed {
        restore_row(rows, usize::from(*i));
    }
}

fn restore_row(rows: &mut Vec<Held>, i: usize)
    ensures { rows.new.items ≡ change_at restored rows.old.items i }
{
    if i < rows.len() {
        let kept = rows[i].kept;
        rows[i] = Held { now: kept, kept };
    }
}
