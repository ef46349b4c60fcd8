//! The work of a cluster.
ghost use Rattle.std.specs.Prelude.{◌≡◌, ◌<◌, ◌^◌, [], IfErr, IfOk, OnErr, OnOk, if◌then◌else◌};
ghost use Rattle.std.specs.VecDeque.{deque_len, deque_capacity};
ghost use Rattle.residents.specs.ForkingAgain.{CanForkAgain};
ghost use Rattle.residents.specs.Quantum.{post_told};
ghost use Rattle.cluster_core.specs.Serving.{CanAnswer, HurtsServer};
ghost use Rattle.cluster_core.specs.Work.{RunsNext, WorksHere, WorksOn, WorksUnowed, birth_told, fetch_post, next_pid};
ghost use Rattle.standing_backups.specs.Standing.{CanBeNext};
ghost use Rattle.residents.specs.Asking.{any_waits};

use crate::hurt::Hurt;
use crate::owed::Owed;
use crate::serving::answer_next;
use crate::worked::Worked;
use birth_notice::family::Family;
use bus_msg::entry::{By, Post, What};
use channel_table::placement::Placement;
use page_server::disk::PageDisk;
use page_server::pager::Pager;
use residents::quantum::{Forking, Quantum, Sending};
use residents::residents::Residents;
use std::alloc::Global;
use std::collections::VecDeque;
use sys_calls::steps::Emission;
use t32_base::process::{ClusterNo, Pid};
use t32_base::streams::NoMemory;

/// Does the next thing that is to be done in the cluster with a number. The new backup is queued that the next of these processes
/// waits for; or an answer that it owes as a page server;
/// or a fetch of a page that a process here lacks; or the next process that can move synchronises or runs for a quantum, or one of these
/// children synchronises in its place, and what it sends, or the birth of its child, is queued; or nothing can move, where a process may wait for its pages. After want of memory, or where the call of the disk
/// failed, nothing is queued, and nothing else is said but that the values can be dropped.
pub fn work_on<D: PageDisk>(
    alloc: Global,
    number: ClusterNo,
    places: &Placement,
    family: &Family,
    owed: &Owed,
    here: &mut Residents,
    server: &mut Option<Pager<D>>,
    queue: &mut VecDeque<Post>,
) -> Result<Worked, Hurt>
    requires queue { queue.old.items ≡ [] }
    requires standing { CanBeNext places.now family.now here.old.here owed.now }
    requires can { CanAnswer server.old }
    requires pids { next_pid number places.now < 2 ^ 32 }
    requires forks { CanForkAgain here.old.here }
    ensures ok { IfOk result (λ worked. WorksOn number places.now family.now owed.now here.old server.old worked here.new server.new queue.new.items) }
    ensures here { OnErr result (here.new.here ≡ here.old.here) }
    ensures duty { here.new.duty ≡ here.old.duty }
    ensures queue { OnErr result (queue.new.items ≡ []) }
    ensures hurts { IfErr result (HurtsServer server.old) }
{
    make_room(queue)?;
    // Where none waits no room for its post is cleared: so it is at nearly every turn.
    if !owed.has_none() {
        if let Some(post) = owed.next_post(alloc, number, places, family, here)? {
            queue.push_back_reserved(post);
            return Ok(Worked::Queued);
        }
    }
    work_unowed(alloc, number, places, family, here, server, queue)
}

// The same, where no process waits for its new backup.
#[inline(always)]
fn work_unowed<D: PageDisk>(
    alloc: Global,
    number: ClusterNo,
    places: &Placement,
    family: &Family,
    here: &mut Residents,
    server: &mut Option<Pager<D>>,
    queue: &mut VecDeque<Post>,
) -> Result<Worked, Hurt>
    requires queue { queue.old.items ≡ [] }
    requires room { deque_len queue.old < deque_capacity queue.old }
    requires can { CanAnswer server.old }
    requires pids { next_pid number places.now < 2 ^ 32 }
    requires forks { CanForkAgain here.old.here }
    ensures ok { IfOk result (λ worked. WorksUnowed number places.now family.now here.old server.old worked here.new server.new queue.new.items) }
    ensures here { OnErr result (here.new.here ≡ here.old.here) }
    ensures duty { here.new.duty ≡ here.old.duty }
    ensures queue { OnErr result (queue.new.items ≡ []) }
    ensures hurts { IfErr result (HurtsServer server.old) }
{
    if server.is_some() {
        if let Some(post) = answer_next(alloc, number, places, server)? {
            queue.push_back_reserved(post);
            return Ok(Worked::Queued);
        }
    }
    Ok(work_here(alloc, number, places, family, here, queue)?)
}

// The same, where no answer is owed: a fetch of a page that a process here lacks, or the turn of one of them.
#[inline(always)]
fn work_here(
    alloc: Global,
    number: ClusterNo,
    places: &Placement,
    family: &Family,
    here: &mut Residents,
    queue: &mut VecDeque<Post>,
) -> Result<Worked, NoMemory>
    requires queue { queue.old.items ≡ [] }
    requires room { deque_len queue.old < deque_capacity queue.old }
    requires pids { next_pid number places.now < 2 ^ 32 }
    requires forks { CanForkAgain here.old.here }
    ensures ok { IfOk result (λ worked. WorksHere number places.now family.now here.old worked here.new queue.new.items) }
    ensures here { OnErr result (here.new.here ≡ here.old.here) }
    ensures duty { here.new.duty ≡ here.old.duty }
    ensures queue { OnErr result (queue.new.items ≡ []) }
{
    if let Some((pid, index)) = here.ask() {
        queue.push_back_reserved(fetch_of(number, pid, index));
        return Ok(Worked::Queued);
    }
    if here.none_is_ready() {
        return stuck(alloc, here);
    }
    run_next(alloc, number, places, family, here, queue)
}

// Room for one post more.
fn make_room(queue: &mut VecDeque<Post>) -> Result<(), NoMemory>
    ensures same { queue.new.items ≡ queue.old.items }
    ensures room { OnOk result (deque_len queue.new < deque_capacity queue.new) }
{
    queue.reserve(1)?;
    Ok(())
}

// The next process that can move has its turn, and what it sends or synchronises by, or the birth of its child, is queued.
fn run_next(
    alloc: Global,
    number: ClusterNo,
    places: &Placement,
    family: &Family,
    here: &mut Residents,
    queue: &mut VecDeque<Post>,
) -> Result<Worked, NoMemory>
    requires empty { queue.old.items ≡ [] }
    requires room { deque_len queue.old < deque_capacity queue.old }
    requires pids { next_pid number places.now < 2 ^ 32 }
    requires forks { CanForkAgain here.old.here }
    ensures ok { IfOk result (λ worked. RunsNext number places.now family.now here.old worked here.new queue.new.items) }
    ensures here { OnErr result (here.new.here ≡ here.old.here) }
    ensures duty { here.new.duty ≡ here.old.duty }
    ensures queue { OnErr result (queue.new.items ≡ []) }
{
    match here.take_turn(alloc, number, family)? {
        Quantum::Moved => Ok(Worked::Moved),
        Quantum::Sent(sending) => {
            queue.push_back_reserved(post_of(number, sending));
            Ok(Worked::Queued)
        }
        Quantum::Synced(posts) | Quantum::Renewed(posts) => {
            *queue = VecDeque::from_vec(posts.into_vec());
            Ok(Worked::Queued)
        }
        Quantum::Stuck => stuck(alloc, here),
        Quantum::Forks(forking) => {
            queue.push_back_reserved(birth_of(number, places, forking));
            Ok(Worked::Queued)
        }
    }
}

// Nothing can move: a process waits for its pages, or all rest, and what they tell is kept.
#[inline(always)]
fn stuck(alloc: Global, here: &mut Residents) -> Result<Worked, NoMemory>
    ensures worked { IfOk result (λ worked. worked ≡ (if any_waits here.old.here then Worked.Waits else Worked.Rests)) }
    ensures same { here.new ≡ here.old }
{
    // What they tell is made first: where it is kept, none is asked whether it waits.
    here.keep_told(alloc)?;
    if here.waits() {
        return Ok(Worked::Waits);
    }
    Ok(Worked::Rests)
}

// The birth of the next child of a process of the cluster with a number, which stands before its fork. Takes no memory.
fn birth_of(number: ClusterNo, places: &Placement, forking: Forking) -> Post
    requires { next_pid number places.now < 2 ^ 32 }
    ensures { result ≡ birth_told number places.now forking }
{
    let child = u32::from(number.0) + 16 * places.next_serial(number);
    Post {
        by: By::Cluster(number),
        what: What::Birth {
            parent: forking.pid,
            at: forking.at,
            child: Pid(child),
            end: forking.end,
        },
    }
}

// The fetch of a page by the cluster with a number. Takes no memory.
fn fetch_of(number: ClusterNo, pid: Pid, index: u16) -> Post
    ensures { result ≡ fetch_post number pid index }
{
    Post {
        by: By::Cluster(number),
        what: What::Fetch { pid, index },
    }
}

// The post of something that a process of the cluster with a number sent. Takes no memory.
fn post_of(number: ClusterNo, sending: Sending) -> Post
    ensures { result ≡ post_told number sending.pid sending.at sending.emission }
{
    let Sending { pid, at, emission } = sending;
    let what = match emission {
        Emission::Mail(letter) => What::Mail { at, letter },
        Emission::Exit(end) => What::Exit { pid, at, end },
    };
    Post {
        by: By::Cluster(number),
        what,
    }
}
