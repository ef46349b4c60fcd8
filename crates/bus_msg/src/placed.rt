//! Where a process is placed.
use t32_base::process::{ClusterNo, Mode, Pid};

/// Where a process is placed: its home, its backup, if it has one, how it gets a new one, the cluster that
/// it lost last, whether it has ended, and whether it has synchronised since its birth.
#[derive(Clone, Copy, PartialEq, Eq, Debug)]
pub struct Placed {
    pub pid: Pid,
    pub home: ClusterNo,
    pub backup: Option<ClusterNo>,
    pub mode: Mode,
    pub lost: Option<ClusterNo>,
    pub ended: bool,
    pub synced: bool,
}
