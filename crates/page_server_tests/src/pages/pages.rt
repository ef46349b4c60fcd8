//! The accounts of a page server on a disk that works, and on one that fails at each call in turn.
use page_server::disk::{DiskFault, DiskRefused, PageDisk};
use page_server::mem_disk::MemDisk;
use page_server::pager::Pager;
use std::alloc::Global;
use std::test::Fail;
use t32_base::lists::List;
use t32_base::process::Pid;
use t32_base::streams::NoMemory;
use test_asserts::same;

const FIRST: Pid = Pid(16);

const OTHER: Pid = Pid(17);

// A page that is filled with one byte.
fn filled(byte: u8) -> [u8; 256] {
    [byte; 256]
}

// A disk that fails at these calls.
fn disk_failing(alloc: Global, calls: &[u64]) -> Result<MemDisk, NoMemory> {
    Ok(MemDisk::new(alloc, List::from_vec(calls.to_vec(alloc)?)))
}

// The byte that fills a page of the committed account: none where the account has no such page, or where the
// disk failed.
fn committed_byte(pager: &mut Pager<MemDisk>, pid: Pid, i: u16) -> Option<u8> {
    if !pager.has_committed(pid, i) {
        return None;
    }
    match pager.committed(pid, i) {
        Ok(page) => Some(page[255]),
        Err(_) => None,
    }
}

fn put_thrice(disk: &mut MemDisk) -> [Result<(), DiskRefused>; 3] {
    [
        disk.put(7, &filled(1)),
        disk.put(7, &filled(2)),
        disk.put(9, &filled(3)),
    ]
}

fn assert_put(disk: &mut MemDisk) -> Result<(), Fail> {
    let fault = DiskRefused::Fault(DiskFault { call: 1 });
    let wanted = [Ok(()), Err(fault), Ok(())];
    same("the puts", &put_thrice(disk), &wanted)?;
    same("calls and faults", &(disk.calls(), disk.faults()), &(3, 1))
}

#[test]
fn a_disk_in_memory_keeps_pages_by_slot_and_fails_where_it_is_told_to(
    rt: HostRuntime,
) -> Result<(), Fail> {
    let mut disk = disk_failing(rt.alloc(), &[1, 3])?;
    assert_put(&mut disk)
}

// What is done with a page server, or asked of it: a page that is filled with a byte is put, or asked for, or answered; the byte of a
// committed page; the fetch that waits; the calls of the disk.
enum Deed {
    Put(Pid, u16, u8),
    Commit(Pid),
    Revert(Pid),
    Forget(Pid),
    Ask(Pid, u16),
    Answered(Pid, u16),
    Keeps(Pid, u16, Option<u8>),
    Waits(Option<(Pid, u16)>),
    Calls(u64),
}

fn put(pager: &mut Pager<MemDisk>, pid: Pid, i: u16, byte: u8) -> Result<(), Fail> {
    same("a put", &pager.put_page(pid, i, &filled(byte)), &Ok(()))
}

fn ask(pager: &mut Pager<MemDisk>, pid: Pid, i: u16) -> Result<(), Fail> {
    Ok(pager.ask(pid, i)?)
}

fn keeps(pager: &mut Pager<MemDisk>, pid: Pid, i: u16, byte: Option<u8>) -> Result<(), Fail> {
    let shown = committed_byte(pager, pid, i);
    same("a page", &(pid, i, shown), &(pid, i, byte))
}

fn change(pager: &mut Pager<MemDisk>, deed: &Deed) {
    match deed {
        Deed::Commit(pid) => pager.commit(*pid),
        Deed::Revert(pid) => pager.revert(*pid),
        Deed::Forget(pid) => pager.forget(*pid),
        Deed::Answered(pid, i) => pager.answered(*pid, *i),
        _ => (),
    }
}

fn make(pager: &mut Pager<MemDisk>, deed: &Deed) -> Result<(), Fail> {
    match deed {
        Deed::Put(pid, i, byte) => put(pager, *pid, *i, *byte),
        Deed::Ask(pid, i) => ask(pager, *pid, *i),
        Deed::Keeps(pid, i, byte) => keeps(pager, *pid, *i, *byte),
        Deed::Waits(fetch) => same("the fetch that waits", &pager.waiting(), fetch),
        Deed::Calls(calls) => same("the calls of the disk", &pager.disk_calls(), calls),
        _ => {
            change(pager, deed);
            Ok(())
        }
    }
}

fn make_all(pager: &mut Pager<MemDisk>, deeds: &[Deed]) -> Result<(), Fail> {
    for deed in deeds {
        make(pager, deed)?;
    }
    Ok(())
}

// The deeds are done on a disk that works.
fn assert_deeds(alloc: Global, deeds: &[Deed]) -> Result<(), Fail> {
    let mut pager = Pager::new(alloc, disk_failing(alloc, &[])?);
    make_all(&mut pager, deeds)
}

static COMMITS: [Deed; 27] = [
    Deed::Put(FIRST, 0, 1),
    Deed::Put(FIRST, 255, 2),
    Deed::Keeps(FIRST, 0, None),
    Deed::Commit(FIRST),
    Deed::Keeps(FIRST, 0, Some(1)),
    Deed::Keeps(FIRST, 255, Some(2)),
    Deed::Keeps(FIRST, 1, None),
    Deed::Keeps(OTHER, 0, None),
    // The page that was put last is committed, and the one that was reverted is not.
    Deed::Put(FIRST, 0, 3),
    Deed::Put(OTHER, 0, 9),
    Deed::Put(FIRST, 0, 4),
    Deed::Keeps(FIRST, 0, Some(1)),
    Deed::Commit(FIRST),
    Deed::Keeps(FIRST, 0, Some(4)),
    Deed::Put(FIRST, 0, 5),
    Deed::Revert(FIRST),
    Deed::Commit(FIRST),
    Deed::Keeps(FIRST, 0, Some(4)),
    Deed::Keeps(OTHER, 0, None),
    Deed::Commit(OTHER),
    Deed::Keeps(OTHER, 0, Some(9)),
    // A process that is forgotten leaves its place to the next.
    Deed::Forget(FIRST),
    Deed::Keeps(FIRST, 0, None),
    Deed::Put(Pid(18), 0, 6),
    Deed::Commit(Pid(18)),
    Deed::Keeps(Pid(18), 0, Some(6)),
    Deed::Keeps(OTHER, 0, Some(9)),
];

#[test]
fn a_commit_keeps_what_was_put_and_a_revert_goes_back_to_it(rt: HostRuntime) -> Result<(), Fail> {
    assert_deeds(rt.alloc(), &COMMITS)
}

static FETCHES: [Deed; 15] = [
    Deed::Waits(None),
    Deed::Ask(FIRST, 3),
    Deed::Ask(OTHER, 0),
    Deed::Ask(FIRST, 1),
    Deed::Ask(Pid(18), 2),
    Deed::Waits(Some((FIRST, 3))),
    Deed::Answered(OTHER, 0),
    Deed::Waits(Some((FIRST, 3))),
    Deed::Answered(FIRST, 3),
    Deed::Waits(Some((FIRST, 1))),
    Deed::Revert(FIRST),
    Deed::Waits(Some((Pid(18), 2))),
    Deed::Forget(Pid(18)),
    Deed::Waits(None),
    Deed::Calls(0),
];

#[test]
fn the_earliest_fetch_waits_until_it_is_answered_or_its_process_moves_or_ends(
    rt: HostRuntime,
) -> Result<(), Fail> {
    assert_deeds(rt.alloc(), &FETCHES)
}

// Puts a page on a disk that may fail.
fn try_put(pager: &mut Pager<MemDisk>, byte: u8) {
    let _ = pager.put_page(FIRST, 0, &filled(byte));
}

fn commit(pager: &mut Pager<MemDisk>) -> Option<u8> {
    pager.commit(FIRST);
    committed_byte(pager, FIRST, 0)
}

fn see(pager: &mut Pager<MemDisk>) -> Result<[Option<u8>; 3], NoMemory> {
    try_put(pager, 1);
    let first = commit(pager);
    try_put(pager, 2);
    pager.ask(FIRST, 0)?;
    let second = commit(pager);
    try_put(pager, 3);
    pager.revert(FIRST);
    let third = commit(pager);
    pager.forget(FIRST);
    Ok([first, second, third])
}

// What a small run sees on a disk that fails at one call: the bytes of the committed page after the first
// commit, after the second, and after a revert.
fn seen(alloc: Global, failing: u64) -> Result<[Option<u8>; 3], NoMemory> {
    let mut pager = Pager::new(alloc, disk_failing(alloc, &[failing])?);
    see(&mut pager)
}

// The calls are: put, get, put, get, put, get. Where the first put fails, the first look at the committed
// page is no call, and the later calls come one earlier.
static SEEN: [(u64, &[Option<u8>]); 7] = [
    (0, &[None, Some(2), Some(2)]),
    (1, &[None, Some(2), Some(2)]),
    (2, &[Some(1), Some(1), Some(1)]),
    (3, &[Some(1), None, Some(2)]),
    (4, &[Some(1), Some(2), Some(2)]),
    (5, &[Some(1), Some(2), None]),
    (6, &[Some(1), Some(2), Some(2)]),
];

#[test]
fn a_call_of_the_disk_that_fails_leaves_the_accounts_as_they_were(
    rt: HostRuntime,
) -> Result<(), Fail> {
    for row in SEEN.iter() {
        let seen = seen(rt.alloc(), row.0)?;
        same("the bytes", &(row.0, seen.as_slice()), row)?;
    }
    Ok(())
}
