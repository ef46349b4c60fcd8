//! A process that has changed its second page and has a letter to read, and a family that was moved.
ghost use Rattle.std.specs.Prelude.{◌≡◌, IfOk, is_some, true};
ghost use Rattle.backup_mode.specs.Renewal.{AreInOrder};

use backup_mode::posts::{fresh, standing};
use backup_queue::record::Record;
use bus_msg::entry::{By, Post, What};
use bus_msg::shared::Shared;
use proc_state::process::Process;
use std::alloc::Global;
use std::test::Fail;
use t32_base::letter::{BackRec, Body, Letter, To};
use t32_base::lists::List;
use t32_base::process::{ClusterNo, Pid};
use t32_base::streams::NoMemory;
use test_asserts::same;

// Process 16 at its start.
fn begun(alloc: Global) -> Result<Process, NoMemory>
    ensures { IfOk result (λ p. p.mail.next ≡ 0) }
{
    Process::root(alloc, Pid(16), 0x10000, 3, &[], 1000, 0, 0)
}

// A letter has come for it, and it has written to its second page.
fn written(alloc: Global) -> Result<Process, NoMemory> {
    let mut p = begun(alloc)?;
    p.deliver(Letter {
        from: Pid(17),
        out: 1,
        to: To::Proc(Pid(16), 2),
        body: Body::EndOf,
    })?;
    let _stored = p.ram.store(0x10100, 1, 7);
    Ok(p)
}

// Of a record: its process, the steps of its state, how many letters it has and which number the next one gets.
type Kept = (u32, Option<u64>, usize, u64);

// What a post is told by: the number of a page and its first byte, or the cluster, the form and the first record.
#[derive(Clone, Copy, PartialEq, Debug)]
enum Shown {
    Page(u16, u8),
    Backup(u8, bool, usize, Option<Kept>),
    Other,
}

fn steps(rec: &BackRec) -> Option<u64> {
    match &rec.state {
        Some(small) => Some(small.steps),
        None => None,
    }
}

fn kept(recs: &[BackRec]) -> Option<Kept> {
    let rec = recs.first()?;
    Some((rec.pid.0, steps(rec), rec.saved.len(), rec.next))
}

fn told_of(post: &Post) -> (By, Shown) {
    let told = match &post.what {
        What::Page { index, bytes, .. } => Shown::Page(*index, bytes.get()[0]),
        What::Rebackup { to, fresh, recs } => {
            let recs = recs.get();
            Shown::Backup(to.0, *fresh, recs.len(), kept(recs.as_slice()))
        }
        _ => Shown::Other,
    };
    (post.by, told)
}

// What one post is told by, or two; or nothing, where there are none or more.
type Sent = [Option<(By, Shown)>; 2];

fn sent_of(posts: &[Post]) -> Sent {
    match posts {
        [one] => [Some(told_of(one)), None],
        [first, second] => [Some(told_of(first)), Some(told_of(second))],
        _ => [None, None],
    }
}

const BY: By = By::Cluster(ClusterNo(1));

fn sent(alloc: Global, p: &mut Process, to: ClusterNo) -> Result<Sent, NoMemory> {
    let posts = fresh(alloc, p, to, ClusterNo(1))?;
    Ok(sent_of(posts.as_slice()))
}

static AT_START: Sent = [
    Some((BY, Shown::Backup(0, true, 1, Some((16, Some(0), 0, 0))))),
    None,
];

fn assert_start(alloc: Global, p: &mut Process) -> Result<(), Fail> {
    same("the post", &sent(alloc, p, ClusterNo(0))?, &AT_START)
}

#[test]
fn a_process_without_changed_pages_sends_one_post(rt: HostRuntime) -> Result<(), Fail> {
    let mut p = begun(rt.alloc())?;
    assert_start(rt.alloc(), &mut p)
}

static CHANGED: Sent = [
    Some((BY, Shown::Page(1, 7))),
    Some((BY, Shown::Backup(0, true, 1, Some((16, Some(0), 1, 1))))),
];

static AGAIN: Sent = [
    Some((BY, Shown::Backup(2, true, 1, Some((16, Some(0), 1, 1))))),
    None,
];

// What it sends, and then again, and the letters that it has then.
fn assert_twice(alloc: Global, p: &mut Process) -> Result<(), Fail> {
    same("the posts", &sent(alloc, p, ClusterNo(0))?, &CHANGED)?;
    same("the next ones", &sent(alloc, p, ClusterNo(2))?, &AGAIN)?;
    same("how many letters it has", &p.mail.len(), &1)
}

#[test]
fn it_sends_its_changed_page_once_and_keeps_its_letter(rt: HostRuntime) -> Result<(), Fail> {
    let mut p = written(rt.alloc())?;
    assert_twice(rt.alloc(), &mut p)
}

// The records of a process, which has a state, and of its child.
#[tactic(auto, using(crate::proofs::Family::two))]
fn in_order(alloc: Global, first: BackRec, child: BackRec) -> Result<List<BackRec>, NoMemory>
    requires { is_some first.state ≡ true }
    ensures { IfOk result AreInOrder }
{
    let mut recs = List::new(alloc);
    recs.push(first)?;
    recs.push(child)?;
    Ok(recs)
}

// The records of process 16, and of its child 32, which never synchronised.
fn family(alloc: Global) -> Result<List<BackRec>, NoMemory>
    ensures { IfOk result AreInOrder }
{
    let Process { small, .. } = begun(alloc)?;
    let first = Record::new(alloc, Pid(16), Some(small)).told()?;
    let child = Record::new(alloc, Pid(32), None).told()?;
    in_order(alloc, first, child)
}

fn handed_on(alloc: Global) -> Result<(By, Shown), NoMemory> {
    let recs = Shared::new(alloc, family(alloc)?)?;
    Ok(told_of(&standing(recs, ClusterNo(2), ClusterNo(1))))
}

#[test]
fn a_family_hands_on_its_records(rt: HostRuntime) -> Result<(), Fail> {
    same(
        "the post",
        &handed_on(rt.alloc())?,
        &(BY, Shown::Backup(2, false, 2, Some((16, Some(0), 0, 0)))),
    )
}
