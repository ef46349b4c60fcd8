//! A script of failures.
use t32_base::lists::List;
use t32_base::process::ClusterNo;

/// A word of a script: a cluster is lost at a place of the log, directly before one of its kernel steps, or
/// at a call of its page disk; or it returns at a place. Places, steps and calls are counted from 0.
#[derive(Clone, Copy, PartialEq, Eq, Debug)]
pub enum ScriptWord {
    CrashAt { k: ClusterNo, place: u64 },
    CrashStep { k: ClusterNo, step: u64 },
    DiskAt { k: ClusterNo, call: u64 },
    ReturnAt { k: ClusterNo, place: u64 },
}

/// The words of a script, in order.
pub type Script = List<ScriptWord>;
