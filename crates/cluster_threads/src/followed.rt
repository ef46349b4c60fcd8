//! What the thread of a cluster leaves.
use cluster_run::life::Life;
use cluster_turns::member::Member;

/// A cluster that followed the log, with the lives that it had before the one that it is in, each of which a loss ended.
#[derive(Drop)]
pub struct Followed {
    pub cluster: Member,
    pub past: Vec<Life>,
}
