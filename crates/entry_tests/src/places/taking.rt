//! A system of three clusters with two roots, and the logs that its placement takes in.
ghost use Rattle.std.specs.Prelude.{◌≡◌, ◌+◌, ◌*◌, IsTrue};
ghost use Rattle.channel_table.specs.Changes.{CanBeAbsorbed, IsNextChild};

use crate::entries::{Row, made};
use bus_msg::entry::{By, Cause, Dests, Entry, Post, What};
use bus_msg::placed::Placed;
use channel_table::placement::Placement;
use std::alloc::Global;
use t32_base::process::{ClusterNo, End, Mode, Pid};
use t32_base::streams::NoMemory;

/// The first root, at home in cluster 0 with its backup in cluster 1.
pub const FIRST: Placed = Placed {
    pid: Pid(16),
    home: ClusterNo(0),
    backup: Some(ClusterNo(1)),
    mode: Mode::Half,
    lost: None,
    ended: false,
    synced: false,
};

/// The second, at home in cluster 1 with its backup in cluster 2.
pub const SECOND: Placed = Placed {
    pid: Pid(17),
    home: ClusterNo(1),
    backup: Some(ClusterNo(2)),
    mode: Mode::Full,
    lost: None,
    ended: false,
    synced: false,
};

// Three clusters, of which 1 and 2 serve pages.
fn booted(alloc: Global) -> Result<Placement, NoMemory> {
    Placement::boot(alloc, 3, (ClusterNo(1), ClusterNo(2)), &[FIRST, SECOND])
}

/// What happens to a placement: an entry is taken in, or it is changed by hand.
pub enum Deed {
    Entry(Row),
    TakeBack(u32),
    SetBackup(u32, u8),
    Lose(u8),
    ComeBack(u8),
}

static LOGS: [&[Deed]; 5] = [
    // The log that most tests take in, entry by entry.
    &[
        Deed::Entry(Row::Birth(16, 32)),
        Deed::Entry(Row::Birth(16, 48)),
        Deed::Entry(Row::Exit(32, End::Exit(0))),
        Deed::Entry(Row::Sync(16, None)),
        Deed::Entry(Row::Crash(0, Cause::Place)),
        Deed::Entry(Row::Return(0)),
        Deed::Entry(Row::Rebackup(0, false, &[(16, false), (48, false)])),
        Deed::Entry(Row::Crash(2, Cause::Place)),
        Deed::Entry(Row::Return(2)),
        Deed::Entry(Row::Rebackup(2, true, &[(17, false)])),
    ],
    // A root that has synchronised bears a child, that bears one, and so does the other root.
    &[
        Deed::Entry(Row::Sync(16, None)),
        Deed::Entry(Row::Birth(16, 32)),
        Deed::Entry(Row::Birth(32, 48)),
        Deed::Entry(Row::Birth(17, 33)),
    ],
    // A root bears a child, is moved, and bears another.
    &[
        Deed::Entry(Row::Birth(16, 32)),
        Deed::Entry(Row::Crash(0, Cause::Place)),
        Deed::Entry(Row::Birth(16, 33)),
    ],
    // A birth is taken back, and its pid given again, to a child of the child.
    &[
        Deed::Entry(Row::Birth(16, 32)),
        Deed::Entry(Row::Birth(16, 48)),
        Deed::TakeBack(16),
        Deed::Entry(Row::Birth(32, 48)),
    ],
    // One backup is set and one cluster lost, which returns.
    &[Deed::SetBackup(16, 2), Deed::Lose(1), Deed::ComeBack(1)],
];

// The numbers of these logs.
pub const LONG: usize = 0;

pub const BIRTHS: usize = 1;

pub const MOVE: usize = 2;

pub const TAKEN_BACK: usize = 3;

pub const BY_HAND: usize = 4;

// Whether a child has the pid of a serial of its home.
fn has_pid(child: Pid, home: ClusterNo, serial: u32) -> bool
    ensures { IsTrue result → child.0 ≡ home.0 + 16 * serial }
{
    u64::from(child.0) == u64::from(home.0) + 16 * u64::from(serial)
}

fn is_next(places: &Placement, parent: Pid, child: Pid) -> bool
    ensures { IsTrue result → IsNextChild places.now parent child }
{
    match places.get(parent) {
        Some(parent) => places.get(child).is_none()
            && has_pid(child, parent.home, places.next_serial(parent.home)),
        None => false,
    }
}

fn can_absorb(places: &Placement, what: &What) -> bool
    ensures { IsTrue result → CanBeAbsorbed places.now what.now }
{
    match what {
        What::Birth { parent, child, .. } => is_next(places, *parent, *child),
        _ => true,
    }
}

// A birth is taken in where the child is the next of its parent.
fn absorb(places: &mut Placement, entry: &Entry) -> Result<(), NoMemory> {
    if can_absorb(places, &entry.post.what) {
        places.absorb(entry)
    } else {
        Ok(())
    }
}

fn take_in(alloc: Global, places: &mut Placement, row: &Row) -> Result<(), NoMemory> {
    let entry = Entry {
        place: 0,
        post: Post {
            by: By::Bus,
            what: made(alloc, row)?,
        },
        dests: Dests {
            clusters: 0,
            tty: None,
        },
    };
    absorb(places, &entry)
}

fn take(alloc: Global, places: &mut Placement, deed: &Deed) -> Result<(), NoMemory> {
    match deed {
        Deed::Entry(row) => return take_in(alloc, places, row),
        Deed::TakeBack(parent) => places.take_back_birth(Pid(*parent)),
        Deed::SetBackup(pid, to) => places.set_backup(Pid(*pid), ClusterNo(*to)),
        Deed::Lose(k) => places.move_after_crash(ClusterNo(*k)),
        Deed::ComeBack(k) => places.come_back(ClusterNo(*k)),
    }
    Ok(())
}

fn take_all(
    alloc: Global,
    places: &mut Placement,
    log: usize,
    steps: usize,
) -> Result<(), NoMemory> {
    let Some(deeds) = LOGS.get(log) else {
        return Ok(());
    };
    for deed in deeds.iter().take(steps) {
        take(alloc, places, deed)?;
    }
    Ok(())
}

/// The placement after so much of a log.
pub fn after(alloc: Global, log: usize, steps: usize) -> Result<Placement, NoMemory> {
    let mut places = booted(alloc)?;
    take_all(alloc, &mut places, log, steps)?;
    Ok(places)
}
