//! Lines of losses, of stops, and of pages that are asked for and that come. The system has one process, 16, at home in cluster 0 with its backup in
//! cluster 1, and one page, whose first byte is that of the first word of its image.
ghost use Rattle.std.specs.Prelude.{◌-◌, ◌<◌, ◌^◌, IsTrue, IfSome};
ghost use Rattle.page_accounts.specs.Answering.{IsKept, earliest};

use crate::begun::{front, pager};
use bus_msg::entry::{By, Cause, Dests, Entry, Post, What};
use entry_lines::ToldBy;
use log_audit::answers::next_page;
use log_audit::fetches::{Asked, next_fetch};
use log_audit::front::Front;
use log_audit::losses::{next_loss, next_stop};
use page_server::disk::PageDisk;
use page_server::mem_disk::MemDisk;
use page_server::pager::Pager;
use std::alloc::Global;
use std::test::Fail;
use t32_base::process::{ClusterNo, Pid};
use t32_base::streams::NoMemory;
use test_asserts::same;
use test_systems::HI;

// A line behind its place and its sender: the loss of a cluster, a stop, or that a page is asked for, which may have been asked for before. The process has
// one page, and a loss moved it with a state.
enum Line {
    Loss(u64),
    Stop,
    Fetch(u64, bool),
}

fn fetched(front: &Front, place: u64, by: ToldBy, index: u64, asked: bool) -> Option<Entry> {
    let kept = Asked {
        pages: 1,
        moved: true,
        asked,
    };
    next_fetch(front, place, by, Pid(16), index, kept)
}

fn next(front: &Front, place: u64, by: ToldBy, line: &Line) -> Option<Entry> {
    match line {
        Line::Loss(k) => next_loss(front, place, by, *k, Cause::Place),
        Line::Stop => next_stop(front, place, by),
        Line::Fetch(index, asked) => fetched(front, place, by, *index, *asked),
    }
}

// The place of the entry that such a line is, and the clusters that it goes to.
fn shown(front: &Front, place: u64, by: ToldBy, line: &Line) -> Option<(u64, u16)> {
    let entry = next(front, place, by, line)?;
    Some((entry.place, entry.dests.clusters))
}

// The place, the sender and the line, and what is shown of the entry that it is.
type Row = (u64, ToldBy, Line, Option<(u64, u16)>);

fn assert_each(front: &Front, rows: &[Row]) -> Result<(), Fail> {
    for row in rows {
        let shown = shown(front, row.0, row.1, &row.2);
        same("a line", &(row.0, row.1, shown), &(row.0, row.1, row.3))?;
    }
    Ok(())
}

fn assert_first(alloc: Global, rows: &[Row]) -> Result<(), Fail> {
    let front = front(alloc, HI)?;
    assert_each(&front, rows)
}

// Cluster 0 is lost at place 0.
fn lose(front: &mut Front) -> Result<(), NoMemory>
    requires { front.old.length < 2 ^ 64 - 1 }
{
    let what = What::Crash {
        k: ClusterNo(0),
        cause: Cause::Place,
    };
    let dests = Dests {
        clusters: 3,
        tty: None,
    };
    front.take(&Entry {
        place: 0,
        post: Post { by: By::Bus, what },
        dests,
    })
}

fn assert_lost(front: &mut Front, rows: &[Row]) -> Result<(), Fail>
    requires { front.old.length < 2 ^ 64 - 1 }
{
    lose(front)?;
    assert_each(front, rows)
}

fn assert_after_loss(alloc: Global, rows: &[Row]) -> Result<(), Fail> {
    let mut front = front(alloc, HI)?;
    assert_lost(&mut front, rows)
}

// The loss of cluster 0, at a later place, by a cluster, of a cluster that is not there, and of one past all.
static LOSSES: [Row; 5] = [
    (0, ToldBy::Bus, Line::Loss(0), Some((0, 3))),
    (1, ToldBy::Bus, Line::Loss(0), None),
    (0, ToldBy::Cluster(0), Line::Loss(0), None),
    (0, ToldBy::Bus, Line::Loss(2), None),
    (0, ToldBy::Bus, Line::Loss(256), None),
];

#[test]
fn the_loss_of_a_cluster_that_lives_may_stand_next(rt: HostRuntime) -> Result<(), Fail> {
    assert_first(rt.alloc(), &LOSSES)
}

// After the loss of cluster 0: its loss again, that of cluster 1, a stop, and a stop by a cluster.
static AFTER_LOSS: [Row; 4] = [
    (1, ToldBy::Bus, Line::Loss(0), None),
    (1, ToldBy::Bus, Line::Loss(1), Some((1, 2))),
    (1, ToldBy::Bus, Line::Stop, Some((1, 2))),
    (1, ToldBy::Cluster(1), Line::Stop, None),
];

#[test]
fn after_a_loss_what_is_left_may_be_lost_or_stop(rt: HostRuntime) -> Result<(), Fail> {
    assert_after_loss(rt.alloc(), &AFTER_LOSS)
}

// After the loss of cluster 0: the page by the new home, by another cluster, a page that is not there, and the page again.
static FETCHES: [Row; 4] = [
    (1, ToldBy::Cluster(1), Line::Fetch(0, false), Some((1, 2))),
    (1, ToldBy::Cluster(0), Line::Fetch(0, false), None),
    (1, ToldBy::Cluster(1), Line::Fetch(1, false), None),
    (1, ToldBy::Cluster(1), Line::Fetch(0, true), None),
];

#[test]
fn a_page_is_asked_for_once_by_the_new_home(rt: HostRuntime) -> Result<(), Fail> {
    assert_after_loss(rt.alloc(), &FETCHES)
}

fn can_answer<D: PageDisk>(pager: &Pager<D>) -> bool
    ensures { IsTrue result → IfSome (earliest pager.now) (IsKept pager.now) }
{
    match pager.waiting() {
        Some((pid, index)) => pager.has_committed(pid, index),
        None => true,
    }
}

fn first_byte(entry: &Entry) -> Option<u8> {
    match &entry.post.what {
        What::PageIs { bytes, .. } => Some(bytes.get()[0]),
        _ => None,
    }
}

// The sender, the process and the page of a line.
type PageLine = (ToldBy, u64, u64);

// The first byte of the page of such a line, if it may stand next, where the page is asked for.
fn page(
    alloc: Global,
    front: &Front,
    pager: &mut Pager<MemDisk>,
    line: PageLine,
) -> Result<Option<u8>, Fail> {
    if !can_answer(pager) {
        return Err("the page that is asked for is not there".into());
    }
    match next_page(alloc, front, pager, 0, line.0, line.1, line.2)? {
        Some(entry) => Ok(first_byte(&entry)),
        None => Ok(None),
    }
}

// The page by the first page server, by the other one, of another process, and another page.
static PAGES: [(PageLine, Option<u8>); 4] = [
    ((ToldBy::Cluster(0), 16, 0), Some(0x93)),
    ((ToldBy::Cluster(1), 16, 0), None),
    ((ToldBy::Cluster(0), 17, 0), None),
    ((ToldBy::Cluster(0), 16, 1), None),
];

fn assert_pages(alloc: Global, front: &Front, pager: &mut Pager<MemDisk>) -> Result<(), Fail> {
    for (line, wanted) in &PAGES {
        let shown = page(alloc, front, pager, *line)?;
        same("a page", &(*line, shown), &(*line, *wanted))?;
    }
    Ok(())
}

fn assert_asked(alloc: Global, pager: &mut Pager<MemDisk>) -> Result<(), Fail> {
    pager.ask(Pid(16), 0)?;
    let front = front(alloc, HI)?;
    assert_pages(alloc, &front, pager)
}

#[test]
fn the_first_page_server_may_answer_the_earliest_fetch(rt: HostRuntime) -> Result<(), Fail> {
    let mut pager = pager(rt.alloc(), HI)?;
    assert_asked(rt.alloc(), &mut pager)
}
