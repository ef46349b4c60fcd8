//! An entry of the bus's log, and its parts.
use crate::shared::Shared;
use t32_base::letter::{BackRec, Letter};
use t32_base::lists::List;
use t32_base::process::{ClusterNo, End, Pid, Small};

/// Why a cluster was lost: the script named this place of the log, or a kernel step of the cluster, or a
/// call of its page disk failed. Steps and calls are counted from 0.
#[derive(Clone, Copy)]
pub enum Cause {
    Place,
    Step(u64),
    Disk(u64),
}

/// What an entry says. `at` is the count of steps of its process after the step that it tells of.
#[derive(Drop)]
pub enum What {
    /// A process sent a letter by its step `at`.
    Mail {
        at: u64,
        letter: Letter,
    },
    /// A process forked by its step `at`; `end` of it is linked to end 1 of the child.
    Birth {
        parent: Pid,
        at: u64,
        child: Pid,
        end: u8,
    },
    /// A process ended by its step `at`.
    Exit {
        pid: Pid,
        at: u64,
        end: End,
    },
    /// A page of a process that was changed since its last synchronisation, as it is at the step `at`.
    Page {
        pid: Pid,
        at: u64,
        index: u16,
        bytes: Shared<[u8; 256]>,
    },
    /// A process synchronised: its state, the numbers of the letters that it read since the last time,
    /// and the signal that it took, if it took one.
    Sync {
        pid: Pid,
        small: Shared<Small>,
        read: List<u64>,
        took: Option<u8>,
    },
    /// A process that was moved asks for a page.
    Fetch {
        pid: Pid,
        index: u16,
    },
    /// A page server answers with the page of the last synchronisation.
    PageIs {
        pid: Pid,
        index: u16,
        bytes: Shared<[u8; 256]>,
    },
    /// A cluster is lost.
    Crash {
        k: ClusterNo,
        cause: Cause,
    },
    /// A lost cluster lives again, and is empty.
    Return {
        k: ClusterNo,
    },
    /// Processes get a new backup in the cluster `to`, which takes their records: a process that has run
    /// (`fresh`), or one that was moved and has not run, with its family.
    Rebackup {
        to: ClusterNo,
        fresh: bool,
        recs: Shared<List<BackRec>>,
    },
    /// Nothing can move any more. For each process that has not ended, its count of steps.
    Done {
        rests: List<(Pid, u64)>,
    },
    /// A cluster could not go on for want of memory.
    Stop,
}

/// Who sent an entry.
#[derive(Clone, Copy, PartialEq, Eq, Debug)]
pub enum By {
    Cluster(ClusterNo),
    Bus,
}

/// An entry before it has its place: who sends it and what it says.
#[derive(Drop)]
pub struct Post {
    pub by: By,
    pub what: What,
}

/// Where an entry goes: the clusters, one bit for each, the lowest for cluster 0, and a terminal.
#[derive(Clone, Copy, PartialEq, Eq, Debug)]
pub struct Dests {
    pub clusters: u16,
    pub tty: Option<u8>,
}

/// An entry of the log. Its place is the number of the entries before it.
#[derive(Drop)]
pub struct Entry {
    pub place: u64,
    pub post: Post,
    pub dests: Dests,
}
