//! What the clusters of a bus told when nothing could move in them.
ghost use Rattle.std.specs.Prelude.{◌≡◌, ◌&&◌, None, is_none, replicate, IfOk};
ghost use Rattle.std.specs.Option.{option_copied};
ghost use Rattle.bus_msg.specs.Places.{lives_in};
ghost use Rattle.bus_order.specs.View.{is_awaited, mark_in, no_marks};

use bus_msg::shared::Shared;
use channel_table::placement::Placement;
use std::alloc::Global;
use t32_base::lists::List;
use t32_base::process::{ClusterNo, Pid};
use t32_base::streams::NoMemory;

/// What a cluster told when nothing could move in it: each process at home there that has not ended, rising,
/// with its count of steps; and the kernel steps and the disk calls that the cluster has made. The cluster may keep the same
/// list, and tell it again.
#[derive(Drop)]
pub struct Mark {
    pub rests: Shared<List<(Pid, u64)>>,
    pub steps: u64,
    pub calls: u64,
}

/// What the bus made of a mark: it waits for another cluster, or the run has ended, by the entry `at`.
#[derive(Clone, Copy)]
pub enum Idled {
    Marked,
    Done { at: u64 },
}

/// No mark of any of so many clusters.
pub fn unmarked(alloc: Global, clusters: u8) -> Result<Vec<Option<Mark>>, NoMemory>
    ensures { IfOk result (λ marks. marks.items ≡ replicate clusters None) }
{
    let mut marks = Vec::new(alloc);
    for _ in 0..clusters {
        marks.push(None)?;
    }
    Ok(marks)
}

/// Takes the mark of each cluster away.
pub fn clear(marks: &mut [Option<Mark>])
    ensures { marks.new ≡ no_marks marks.old }
{
    for mark in marks.iter_mut() {
        *mark = None;
    }
}

/// The mark of a cluster.
pub fn mark_of(marks: &[Option<Mark>], k: ClusterNo) -> Option<&Mark>
    ensures { option_copied result ≡ mark_in marks.now k }
{
    match marks.get(usize::from(k.0)) {
        Some(Some(mark)) => Some(mark),
        _ => None,
    }
}

/// Whether a cluster that lives has no mark.
pub fn is_waiting(places: &Placement, marks: &[Option<Mark>]) -> bool
    ensures { result ≡ is_awaited places.now marks.now }
{
    (0..places.clusters()).any(|k| waits_for(places, marks, ClusterNo(k)))
}

// Whether this cluster lives and has no mark.
fn waits_for(places: &Placement, marks: &[Option<Mark>], k: ClusterNo) -> bool
    ensures { result ≡ (lives_in places.now k && is_none (mark_in marks.now k)) }
{
    places.living(k) && mark_of(marks, k).is_none()
}
