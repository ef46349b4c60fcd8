//! What a cluster thread passes before it starts and before each transmit attempt.
use crate::process::ClusterNo;

/// A gate that a cluster thread passes before it transmits, so that a test can order the threads.
pub trait Gate {
    /// Called once before each transmit attempt of the thread of `cluster`, with no lock held; `place`
    /// is the length of the bus log that the cluster has absorbed.
    fn before(&self, cluster: ClusterNo, place: u64);

    /// Asked once before the thread of `cluster` is started, of each cluster that gets a thread of its own. A no stands for a
    /// system that cannot start it. Where a gate says nothing of it, each thread may start.
    fn may_start(&self, _cluster: ClusterNo) -> bool {
        true
    }
}

/// A gate that is always open.
#[derive(Clone, Copy, PartialEq, Eq, Debug)]
pub struct OpenGate;

impl Gate for OpenGate {
    fn before(&self, _cluster: ClusterNo, _place: u64) {}
}
