//! A process of three pages that has changed two of them and read two letters by ten steps.
use crate::syncs::reader::begun;
use bus_msg::entry::{By, Post, What};
use proc_state::process::Process;
use rv_mem::Ram;
use std::alloc::Global;
use std::test::Fail;
use sync_point::batch::build;
use sync_point::due::due;
use sys_calls::stepping::run_on;
use t32_base::process::ClusterNo;
use t32_base::streams::NoMemory;
use test_asserts::same;

// It has read the letter of end 2 and then that of end 1, and waits for a third.
fn waiting(alloc: Global) -> Result<Process, NoMemory> {
    let mut p = begun(alloc)?;
    let _step = run_on(alloc, &mut p)?;
    Ok(p)
}

fn is_due(p: &Process) -> [bool; 3] {
    [due(p, 2, 11), due(p, 3, 10), due(p, 3, 11)]
}

#[test]
fn a_process_is_due_by_reads_and_by_steps(rt: HostRuntime) -> Result<(), Fail> {
    let p = waiting(rt.alloc())?;
    same(
        "by reads, by steps, by neither",
        &is_due(&p),
        &[true, true, false],
    )
}

// What a post is told by: the sender and the process; the step count; the number of a page and its first bytes, or the
// numbers of the letters that were read.
#[derive(Clone, Copy, PartialEq, Debug)]
enum Shown {
    Page(u64, u16, [u8; 3]),
    Sync(u64, Option<(u64, u64)>, Option<u8>),
    Other,
}

fn first_bytes(page: &[u8; 256]) -> [u8; 3] {
    [page[0], page[1], page[2]]
}

fn two_numbers(numbers: &[u64]) -> Option<(u64, u64)> {
    match numbers {
        [first, second] => Some((*first, *second)),
        _ => None,
    }
}

fn told(what: &What) -> (u32, Shown) {
    match what {
        What::Page {
            pid,
            at,
            index,
            bytes,
        } => (pid.0, Shown::Page(*at, *index, first_bytes(bytes.get()))),
        What::Sync {
            pid,
            small,
            read,
            took,
        } => {
            let numbers = two_numbers(read.as_slice());
            (pid.0, Shown::Sync(small.get().steps, numbers, *took))
        }
        _ => (0, Shown::Other),
    }
}

fn told_by(post: &Post) -> (By, (u32, Shown)) {
    (post.by, told(&post.what))
}

fn each_told(posts: &[Post]) -> Option<[(By, (u32, Shown)); 3]> {
    match posts {
        [first, second, third] => Some([told_by(first), told_by(second), told_by(third)]),
        _ => None,
    }
}

const BY: By = By::Cluster(ClusterNo(1));

const BATCH: Option<[(By, (u32, Shown)); 3]> = Some([
    (BY, (16, Shown::Page(10, 1, [2, 0, 0]))),
    (BY, (16, Shown::Page(10, 2, [97, 10, 0]))),
    (BY, (16, Shown::Sync(10, Some((1, 0)), None))),
]);

fn assert_batch(alloc: Global, p: &mut Process) -> Result<(), Fail> {
    let posts = build(alloc, p, ClusterNo(1))?;
    let batch = BATCH;
    same("the posts", &each_told(posts.as_slice()), &batch)
}

#[test]
fn a_batch_has_the_changed_pages_and_then_the_state(rt: HostRuntime) -> Result<(), Fail> {
    let mut p = waiting(rt.alloc())?;
    assert_batch(rt.alloc(), &mut p)
}

// Whether a page is marked.
fn is_marked(ram: &Ram) -> bool {
    for index in 0..ram.pages() {
        if ram.is_dirty(index) {
            return true;
        }
    }
    false
}

// Whether a page is marked, the letters that were read, the steps of the last synchronisation, and the posts of it.
type After = (bool, usize, u64, usize);

fn after(alloc: Global, p: &mut Process) -> Result<After, NoMemory> {
    let posts = build(alloc, p, ClusterNo(1))?;
    Ok((is_marked(&p.ram), p.read.len(), p.since, posts.len()))
}

fn assert_twice(alloc: Global, p: &mut Process) -> Result<(), Fail> {
    same("after the first", &after(alloc, p)?, &(false, 0, 10, 3))?;
    same("after the second", &after(alloc, p)?, &(false, 0, 10, 1))
}

#[test]
fn a_process_that_synchronised_has_nothing_to_send(rt: HostRuntime) -> Result<(), Fail> {
    let mut p = waiting(rt.alloc())?;
    assert_twice(rt.alloc(), &mut p)
}
