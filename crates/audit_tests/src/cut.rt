//! Lines by which a process synchronises. The system has one process, 16, at home in cluster 0 with its backup in cluster 1. It has one page, makes
//! five steps that send nothing, and writes to its terminal by the sixth.
use crate::begun::{front, pager, process};
use bus_msg::entry::{Entry, What};
use entry_lines::ToldBy;
use log_audit::front::Front;
use log_cuts::ahead::Ahead;
use log_cuts::pages::next_page;
use log_cuts::sent_pages::SentPages;
use log_cuts::start::{Start, start_at};
use log_cuts::syncs::next_sync;
use log_processes::sender::{Head, Limits, Sender};
use page_server::mem_disk::MemDisk;
use page_server::pager::Pager;
use proc_state::process::Process;
use std::alloc::Global;
use std::test::Fail;
use t32_base::process::Pid;
use test_asserts::same;
use test_systems::HI;

const PID: Pid = Pid(16);

const BEGUN: Sender = Sender {
    start: 0,
    saved: 0,
    whole: true,
    parent: false,
};

fn head(at: u64) -> Head {
    Head {
        place: 0,
        by: ToldBy::Cluster(0),
        pid: PID,
        at,
    }
}

// ---- pages

// The place of an entry, the clusters that it goes to, and the number and the first byte of its page.
type SeenPage = Option<(u64, u16, u16, u8)>;

fn page_seen(entry: &Entry) -> SeenPage {
    match &entry.post.what {
        What::Page { index, bytes, .. } => {
            Some((entry.place, entry.dests.clusters, *index, bytes.get()[0]))
        }
        _ => None,
    }
}

// The steps of the process, the number of the page, and whether it has all pages that it waits for; the page.
type PageRow = (u64, u64, bool, SeenPage);

fn page(
    alloc: Global,
    front: &Front,
    sent: &SentPages,
    process: &Process,
    row: &PageRow,
) -> Result<SeenPage, Fail> {
    let kept = Sender {
        whole: row.2,
        ..BEGUN
    };
    let mut ahead = Ahead::none();
    let answer = next_page(
        alloc,
        front,
        head(row.0),
        row.1,
        kept,
        sent,
        process,
        &mut ahead,
    )?;
    match answer {
        Some(entry) => Ok(page_seen(&entry)),
        None => Ok(None),
    }
}

fn assert_each_page(
    alloc: Global,
    front: &Front,
    sent: &SentPages,
    process: &Process,
    rows: &[PageRow],
) -> Result<(), Fail> {
    for row in rows {
        let shown = page(alloc, front, sent, process, row)?;
        same("a page", &(row.0, row.1, row.2, shown), row)?;
    }
    Ok(())
}

fn assert_pages_of(
    alloc: Global,
    sent: &SentPages,
    process: &Process,
    rows: &[PageRow],
) -> Result<(), Fail> {
    let front = front(alloc, HI)?;
    assert_each_page(alloc, &front, sent, process, rows)
}

fn assert_pages(alloc: Global, sent: &SentPages, rows: &[PageRow]) -> Result<(), Fail> {
    let process = process(alloc, HI, 16)?;
    assert_pages_of(alloc, sent, &process, rows)
}

// As it is at boot, and after five steps; a page that is not there, after a step that sends, and where the process lacks its pages.
static PAGES: [PageRow; 5] = [
    (0, 0, true, Some((0, 3, 0, 0x93))),
    (5, 0, true, Some((0, 3, 0, 0x93))),
    (5, 1, true, None),
    (6, 0, true, None),
    (5, 0, false, None),
];

#[test]
fn a_page_is_sent_as_it_is_where_silent_steps_lead(rt: HostRuntime) -> Result<(), Fail> {
    let sent = SentPages::none(rt.alloc());
    assert_pages(rt.alloc(), &sent, &PAGES)
}

// After it was sent at five steps: again there, and at four.
static AGAIN: [PageRow; 2] = [(5, 0, true, None), (4, 0, true, Some((0, 3, 0, 0x93)))];

// There after a loss.
static LOST: [PageRow; 1] = [(5, 0, true, Some((0, 3, 0, 0x93)))];

fn assert_sent(alloc: Global, sent: &mut SentPages) -> Result<(), Fail> {
    sent.put(0, 5)?;
    assert_pages(alloc, sent, &AGAIN)?;
    sent.clear();
    assert_pages(alloc, sent, &LOST)
}

#[test]
fn a_page_is_sent_once_at_a_step_count(rt: HostRuntime) -> Result<(), Fail> {
    let mut sent = SentPages::none(rt.alloc());
    assert_sent(rt.alloc(), &mut sent)
}

// ---- synchronisations

// The place of an entry, the clusters that it goes to, the steps that it tells of, and how many letters it names.
type SeenSync = Option<(u64, u16, u64, usize)>;

fn sync_seen(entry: &Entry) -> SeenSync {
    match &entry.post.what {
        What::Sync { small, read, .. } => Some((
            entry.place,
            entry.dests.clusters,
            small.get().steps,
            read.len(),
        )),
        _ => None,
    }
}

// The steps of the process, the signal that it takes, how many steps it makes at most, and whether a child of it never synchronised; the synchronisation.
type SyncRow = (u64, Option<u64>, u32, bool, SeenSync);

fn sync(
    alloc: Global,
    front: &Front,
    pager: &mut Pager<MemDisk>,
    row: &SyncRow,
) -> Result<SeenSync, Fail> {
    let mut process = process(alloc, HI, 16)?;
    sync_from(alloc, front, pager, &mut process, row)
}

fn sync_from(
    alloc: Global,
    front: &Front,
    pager: &mut Pager<MemDisk>,
    process: &mut Process,
    row: &SyncRow,
) -> Result<SeenSync, Fail> {
    let start = start_at(alloc, process, true)?;
    sync_of(alloc, front, pager, &start, process, row)
}

fn sync_of(
    alloc: Global,
    front: &Front,
    pager: &mut Pager<MemDisk>,
    start: &Start,
    process: &mut Process,
    row: &SyncRow,
) -> Result<SeenSync, Fail> {
    let limits = Limits {
        steps: row.2,
        reads: 32,
    };
    let kept = Sender {
        parent: row.3,
        ..BEGUN
    };
    let mut ahead = Ahead::none();
    let answer = next_sync(
        alloc,
        front,
        limits,
        head(row.0),
        row.1,
        kept,
        start,
        pager,
        process,
        &mut ahead,
    )?;
    match answer {
        Some(entry) => Ok(sync_seen(&entry)),
        None => Ok(None),
    }
}

fn assert_each_sync(
    alloc: Global,
    front: &Front,
    pager: &mut Pager<MemDisk>,
    rows: &[SyncRow],
) -> Result<(), Fail> {
    for row in rows {
        let shown = sync(alloc, front, pager, row)?;
        same(
            "a synchronisation",
            &(row.0, row.1, row.2, row.3, shown),
            row,
        )?;
    }
    Ok(())
}

fn assert_syncs(alloc: Global, pager: &mut Pager<MemDisk>, rows: &[SyncRow]) -> Result<(), Fail> {
    let front = front(alloc, HI)?;
    assert_each_sync(alloc, &front, pager, rows)
}

// Where it is due, a step before, after a step that sends, with a signal that does not wait, past its limits, and as a parent.
static SYNCS: [SyncRow; 6] = [
    (5, None, 5, false, Some((0, 3, 5, 0))),
    (4, None, 5, false, None),
    (6, None, 5, false, None),
    (5, Some(15), 5, false, None),
    (5, None, 4, false, None),
    (5, None, 5, true, None),
];

#[test]
fn a_process_synchronises_where_it_is_due(rt: HostRuntime) -> Result<(), Fail> {
    let mut pager = pager(rt.alloc(), HI)?;
    assert_syncs(rt.alloc(), &mut pager, &SYNCS)
}

// Where another page came than the one that the process has.
static OTHER_PAGE: [SyncRow; 1] = [(5, None, 5, false, None)];

// After a loss took it back.
static TAKEN_BACK: [SyncRow; 1] = [(5, None, 5, false, Some((0, 3, 5, 0)))];

fn assert_other_page(alloc: Global, pager: &mut Pager<MemDisk>) -> Result<(), Fail> {
    pager.put_page(PID, 0, &[0; 256])?;
    assert_syncs(alloc, pager, &OTHER_PAGE)?;
    pager.revert(PID);
    assert_syncs(alloc, pager, &TAKEN_BACK)
}

#[test]
fn a_process_synchronises_where_the_pages_that_came_are_its_memory(
    rt: HostRuntime,
) -> Result<(), Fail> {
    let mut pager = pager(rt.alloc(), HI)?;
    assert_other_page(rt.alloc(), &mut pager)
}
