//! The post that falls out of the queue of a cluster at an entry.
ghost use Rattle.std.specs.Prelude.{◌≡◌, false};
ghost use Rattle.std.specs.Option.{option_map_or};
ghost use Rattle.bus_msg.specs.Places.{is_moved_by};
ghost use Rattle.bus_msg.specs.PlacedAfter.{what};
ghost use Rattle.cert_sched.specs.Told.{cluster_lost};
ghost use Rattle.cluster_core.specs.Queue.{falls, is_moved_from, left_queued};

use bus_msg::entry::{Entry, Post, What};
use bus_msg::placed::Placed;
use channel_table::placement::Placement;
use std::collections::VecDeque;
use t32_base::process::{ClusterNo, Pid};

/// Takes a post that falls at an entry off the end of a queue: a new backup at any entry, and a page that comes at the loss which moves
/// its process. The placement is the one before the entry. Takes no memory.
#[inline(always)]
pub fn drop_fallen(before: &Placement, entry: &Entry, queue: &mut VecDeque<Post>)
    ensures { queue.new.items ≡ left_queued before.now (what entry.now) queue.old.items }
{
    if queue.is_empty() {
        return;
    }
    if let Some(last) = queue.back() {
        if falls(before, &entry.post.what, &last.what) {
            queue.pop_back();
        }
    }
}

// Whether an entry that says the one makes a post that says the other fall.
fn falls(before: &Placement, said: &What, queued: &What) -> bool
    ensures { result ≡ falls before.now said.now queued.now }
{
    match queued {
        What::Rebackup { .. } => true,
        What::PageIs { pid, .. } => is_moved(before, said, *pid),
        What::Mail { .. } => false,
        What::Birth { .. } => false,
        What::Exit { .. } => false,
        What::Page { .. } => false,
        What::Sync { .. } => false,
        What::Fetch { .. } => false,
        What::Crash { .. } => false,
        What::Return { .. } => false,
        What::Done { .. } => false,
        What::Stop => false,
    }
}

// Whether an entry is a loss that moves a process.
fn is_moved(before: &Placement, said: &What, pid: Pid) -> bool
    ensures { result ≡ option_map_or (is_moved_from before.now pid) (cluster_lost said.now) false }
{
    match said {
        What::Crash { k, .. } => is_moved_from(before, pid, *k),
        _ => false,
    }
}

// Whether the loss of a cluster moves a process from where it is placed.
fn is_moved_from(before: &Placement, pid: Pid, lost: ClusterNo) -> bool
    ensures { result ≡ is_moved_from before.now pid lost }
{
    match before.get(pid) {
        Some(placed) => is_moved_by(&placed, lost),
        None => false,
    }
}

// Whether the loss of a cluster moves a process: it is at home there, has not ended, and has a backup.
fn is_moved_by(placed: &Placed, lost: ClusterNo) -> bool
    ensures { result ≡ is_moved_by lost placed.now }
{
    placed.home == lost && !placed.ended && placed.backup.is_some()
}
