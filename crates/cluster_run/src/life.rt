//! The clusters that did the work of a run.
use cluster_turns::member::Member;
use report_text::run::Run;
use t32_base::lists::List;
use t32_base::process::ClusterNo;

/// A cluster with the life that it stands for: the life of which cluster, the place of the log where it
/// begins, and how many entries of the log the cluster followed.
#[derive(Drop)]
pub struct Life {
    pub cluster: ClusterNo,
    pub from: u64,
    pub upto: u64,
    pub value: Member,
}

/// A run, and the clusters that did its work, as they stood when they were lost or when the log was over: in their last lives, and in the
/// lives before those, each of which a loss ended.
#[derive(Drop)]
pub struct Ran {
    pub run: Run,
    pub past: List<Life>,
    pub lives: List<Life>,
}
