//! What a run of clusters leaves.
use bus_msg::entry::Entry;
use plain_kernel::item::Item;
use t32_base::lists::List;
use t32_base::process::ClusterNo;

/// How a run ended: nothing could move any more, or the crash of a cluster, at this place, was not covered.
#[derive(Clone, Copy, PartialEq, Eq, Debug)]
pub enum Ended {
    Finished,
    Lost { cluster: ClusterNo, at: u64 },
}

/// A run: its log, the schedule of the log, how it ended, the kernel steps and the disk calls of each
/// cluster by its number, and how many emissions and births were to be withheld.
#[derive(Drop)]
pub struct Run {
    pub log: List<Entry>,
    pub items: List<Item>,
    pub ended: Ended,
    pub steps: List<u64>,
    pub disk_calls: List<u64>,
    pub withheld: u64,
}
