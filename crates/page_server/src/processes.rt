//! The pages of each process, and the places of the processes.
ghost use Rattle.std.specs.Prelude.{◌≡◌, ◌≤◌, ◌<◌, ℕ, length, get_or, None, Some, is_some, IsSome, IfSome, IfNone, IfOk, OnOk, OnErr, option_map};
ghost use Rattle.std.specs.BTreeMap.{get};
ghost use Rattle.std.specs.Ordering.{nat_cmp};
ghost use Rattle.page_server.specs.Disk.{CountsAfterPut};
ghost use Rattle.page_server.specs.Slots.{settled, restored};
ghost use Rattle.page_server.specs.Places.{Owned, Becomes, Admits, Enters, SameProcesses, Puts, ChangesRows, kept_slot, now_slot};
ghost use Rattle.page_server.specs.declared.pages.Pages.{Pages};

use crate::disk::{DiskRefused, PageDisk};
use crate::pages::Pages;
use crate::table::{PLACES, PageTable, slot_of};
use std::alloc::{AllocError, Global};
use std::collections::BTreeMap;
use t32_base::streams::NoMemory;

/// Takes in a process, if it is not there.
pub fn admit(
    alloc: Global,
    processes: &mut BTreeMap<u32, Pages>,
    owners: &mut Vec<Option<u32>>,
    pid: u32,
) -> Result<(), NoMemory>
    requires { Owned processes.old owners.old.items }
    ensures owned { Owned processes.new owners.new.items }
    ensures there { OnOk result (IsSome (get nat_cmp processes.new pid)) }
    ensures admits { Admits processes.old processes.new }
{
    if processes.contains_key(&pid) {
        return Ok(());
    }
    enter(alloc, processes, owners, pid)
}

// Takes in a process that is not there, and gives it a place of its own.
fn enter(
    alloc: Global,
    processes: &mut BTreeMap<u32, Pages>,
    owners: &mut Vec<Option<u32>>,
    pid: u32,
) -> Result<(), NoMemory>
    requires new { get nat_cmp processes.old pid ≡ None }
    requires owned { Owned processes.old owners.old.items }
    ensures owned { Owned processes.new owners.new.items }
    ensures ok { OnOk result (Enters processes.old processes.new pid) }
    ensures err { OnErr result (SameProcesses processes.old processes.new) }
{
    let place = free_place(owners)?;
    let table = PageTable::new(alloc);
    processes.insert(pid, Pages { place, table })?;
    owners[place as usize] = Some(pid);
    Ok(())
}

// A place that no process has.
fn free_place(owners: &mut Vec<Option<u32>>) -> Result<u32, NoMemory>
    requires { length owners.old.items ≤ 4194304 }
    ensures few { length owners.new.items ≤ 4194304 }
    ensures within { IfOk result (λ place. place < length owners.new.items) }
    ensures free { IfOk result (λ place. get_or owners.new.items place None ≡ None) }
    ensures same { (k : ℕ) → get_or owners.new.items k None ≡ get_or owners.old.items k None }
{
    match owners.iter().position(|owner| owner.is_none()) {
        Some(place) => Ok(place as u32),
        None => add_place(owners),
    }
}

fn add_place(owners: &mut Vec<Option<u32>>) -> Result<u32, NoMemory>
    requires { length owners.old.items ≤ 4194304 }
    ensures few { length owners.new.items ≤ 4194304 }
    ensures within { IfOk result (λ place. place < length owners.new.items) }
    ensures free { IfOk result (λ place. get_or owners.new.items place None ≡ None) }
    ensures same { (k : ℕ) → get_or owners.new.items k None ≡ get_or owners.old.items k None }
{
    let place = owners.len();
    if place == PLACES {
        return Err(NoMemory);
    }
    owners.push(None)?;
    Ok(place as u32)
}

/// Lets a process go, with its place.
pub fn leave(processes: &mut BTreeMap<u32, Pages>, owners: &mut Vec<Option<u32>>, pid: u32)
    requires { Owned processes.old owners.old.items }
    ensures owned { Owned processes.new owners.new.items }
    ensures gone { Becomes processes.old processes.new pid None }
{
    if let Some(pages) = processes.remove(&pid) {
        owners[pages.place as usize] = None;
    }
}

/// Puts a page of a process on the disk and into its uncommitted account, if the process is there.
pub fn put_if_there<D: PageDisk>(
    processes: &mut BTreeMap<u32, Pages>,
    disk: &mut D,
    pid: u32,
    i: u16,
    page: &[u8; 256],
) -> Option<Result<(), DiskRefused>>
    requires { (pages : Pages) → get nat_cmp processes.old pid ≡ Some pages → pages.place < 4194304 }
    ensures puts { IfSome result (Puts processes.old processes.new (D.slots disk.old) (D.slots disk.new) pid i page.now) }
    ensures counts { IfSome result (CountsAfterPut (D.counts disk.old) (D.counts disk.new)) }
    ensures there { is_some result ≡ is_some (get nat_cmp processes.old pid) }
    ensures processes { IfNone result (processes.new ≡ processes.old) }
    ensures disk { IfNone result (disk.new ≡ disk.old) }
{
    match processes.get_mut(&pid) {
        Some(pages) => Some(pages.table.put(disk, pages.place, i, page)),
        None => None,
    }
}

/// Commits the pages of a process.
pub fn commit_at(processes: &mut BTreeMap<u32, Pages>, pid: u32)
    ensures { ChangesRows processes.old processes.new pid settled }
{
    if let Some(pages) = processes.get_mut(&pid) {
        pages.table.commit();
    }
}

/// Reverts the pages of a process.
pub fn revert_at(processes: &mut BTreeMap<u32, Pages>, pid: u32)
    ensures { ChangesRows processes.old processes.new pid restored }
{
    if let Some(pages) = processes.get_mut(&pid) {
        pages.table.revert();
    }
}

/// The slot of a page that the committed account of a process has.
pub fn kept_at(processes: &BTreeMap<u32, Pages>, pid: u32, i: u16) -> Option<u32>
    requires { (pages : Pages) → get nat_cmp processes.now pid ≡ Some pages → pages.place < 4194304 }
    ensures { result ≡ kept_slot (get nat_cmp processes.now pid) i }
{
    match processes.get(&pid) {
        Some(pages) => match pages.table.kept(i) {
            Some(which) => Some(slot_of(pages.place, i, which)),
            None => None,
        },
        None => None,
    }
}

/// The slot of a page that the uncommitted account of a process has.
pub fn now_at(processes: &BTreeMap<u32, Pages>, pid: u32, i: u16) -> Option<u32>
    requires { (pages : Pages) → get nat_cmp processes.now pid ≡ Some pages → pages.place < 4194304 }
    ensures { result ≡ now_slot (get nat_cmp processes.now pid) i }
{
    match processes.get(&pid) {
        Some(pages) => match pages.table.uncommitted(i) {
            Some(which) => Some(slot_of(pages.place, i, which)),
            None => None,
        },
        None => None,
    }
}
