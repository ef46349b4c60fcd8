//! The clusters of a run.
use cluster_core::cluster::Cluster;
use page_server::mem_disk::MemDisk;

/// A cluster whose page disk, where it is a page server, lies in memory.
pub type Member = Cluster<MemDisk>;
