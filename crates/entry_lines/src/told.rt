//! What the line of an entry says.
use bus_msg::entry::Cause;
use t32_base::lists::{Bytes, List};

/// Who sent an entry, by the number of the cluster.
#[derive(Clone, Copy, PartialEq, Eq, Debug)]
pub enum ToldBy {
    Cluster(u64),
    Bus,
}

/// How a process ended.
#[derive(Clone, Copy, PartialEq, Eq, Debug)]
pub enum ToldEnd {
    Exit(u64),
    Trap(u64),
    Killed(u64),
    Limit,
}

/// Where a letter goes from the end `out`, and what it carries. A signal goes from no end.
#[derive(Drop)]
pub enum ToldLetter {
    Shown {
        out: u64,
        tty: u64,
        bytes: Bytes,
    },
    Said {
        out: u64,
        to: u64,
        end: u64,
        bytes: Bytes,
    },
    EndOf {
        out: u64,
        to: u64,
        end: u64,
    },
    Signal {
        to: u64,
        signal: u64,
    },
}

/// What an entry says, as far as its line tells.
#[derive(Drop)]
pub enum ToldWhat {
    Mail {
        from: u64,
        at: u64,
        letter: ToldLetter,
    },
    Birth {
        parent: u64,
        at: u64,
        child: u64,
        end: u64,
    },
    Exit {
        pid: u64,
        at: u64,
        end: ToldEnd,
    },
    Page {
        pid: u64,
        at: u64,
        index: u64,
    },
    Sync {
        pid: u64,
        at: u64,
        took: Option<u64>,
    },
    Fetch {
        pid: u64,
        index: u64,
    },
    PageIs {
        pid: u64,
        index: u64,
    },
    Crash {
        k: u64,
        cause: Cause,
    },
    Return {
        k: u64,
    },
    Fresh {
        pids: List<u64>,
        at: u64,
        to: u64,
    },
    Standing {
        pids: List<u64>,
        to: u64,
    },
    Done,
    Stop,
}

/// The printed part of an entry. Its numbers may be greater than those of any entry.
#[derive(Drop)]
pub struct Told {
    pub place: u64,
    pub by: ToldBy,
    pub what: ToldWhat,
}
