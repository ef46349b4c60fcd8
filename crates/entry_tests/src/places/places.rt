//! What a placement shows, entry by entry: worked by hand.
use crate::places::routes::{
    LETTERS, PAGES, PAGES_MOVED, PAGES_OF_ONE, RETURN, Route, assert_routes,
};
use crate::places::taking::{BIRTHS, BY_HAND, FIRST, LONG, MOVE, SECOND, TAKEN_BACK, after};
use bus_msg::placed::Placed;
use channel_table::placement::Placement;
use std::alloc::Global;
use std::test::Fail;
use t32_base::process::{ClusterNo, Pid};
use t32_base::streams::NoMemory;
use test_asserts::same;

// ---- who is placed

const SYNCED: Placed = Placed {
    synced: true,
    ..FIRST
};

// Children of the first root, which have not synchronised themselves.
const CHILD: Placed = Placed {
    pid: Pid(32),
    ..FIRST
};

const OVER: Placed = Placed {
    ended: true,
    ..CHILD
};

const LATER: Placed = Placed {
    pid: Pid(48),
    ..FIRST
};

// A child of the second root.
const OTHER: Placed = Placed {
    pid: Pid(33),
    ..SECOND
};

// Cluster 0 is lost: what runs there moves to its backup, and has none. What has ended stays.
const MOVED: Placed = Placed {
    home: ClusterNo(1),
    backup: None,
    lost: Some(ClusterNo(0)),
    ..FIRST
};

const MOVED_SYNCED: Placed = Placed {
    synced: true,
    ..MOVED
};

const MOVED_CHILD: Placed = Placed {
    pid: Pid(32),
    ..MOVED
};

const MOVED_LATER: Placed = Placed {
    pid: Pid(48),
    ..MOVED
};

// A child that the first root bears then.
const AFTERWARDS: Placed = Placed {
    pid: Pid(33),
    ..MOVED
};

// It returns, and takes the backups of two that have not run since.
const KEPT: Placed = Placed {
    backup: Some(ClusterNo(0)),
    ..MOVED_SYNCED
};

const KEPT_LATER: Placed = Placed {
    backup: Some(ClusterNo(0)),
    ..MOVED_LATER
};

// Cluster 2 is lost, with a backup. It returns, and takes a new one of a process that has run.
const ALONE: Placed = Placed {
    backup: None,
    lost: Some(ClusterNo(2)),
    ..SECOND
};

const RENEWED: Placed = Placed {
    backup: Some(ClusterNo(2)),
    synced: true,
    ..ALONE
};

// The first root's backup is set, and the second is moved.
const SET: Placed = Placed {
    backup: Some(ClusterNo(2)),
    ..FIRST
};

const SECOND_MOVED: Placed = Placed {
    home: ClusterNo(2),
    backup: None,
    lost: Some(ClusterNo(1)),
    ..SECOND
};

fn unended(placed: Placed) -> Option<Placed> {
    if placed.ended { None } else { Some(placed) }
}

// Whether a process is placed so, by its number and by its pid; and its home by itself, and where it is placed that has not ended.
fn is_placed(places: &Placement, number: usize, wanted: Placed) -> bool {
    places.at(number) == Some(wanted)
        && places.get(wanted.pid) == Some(wanted)
        && places.home(wanted.pid) == Some(wanted.home)
        && places.unended(wanted.pid) == unended(wanted)
}

// Whether just these processes are placed, in this order.
fn are_placed(places: &Placement, wanted: &[Placed]) -> bool {
    if places.len() != wanted.len() {
        return false;
    }
    for (number, placed) in wanted.iter().enumerate() {
        if !is_placed(places, number, *placed) {
            return false;
        }
    }
    true
}

// ---- what is said of each cluster

// Which of four clusters live, of which there are three; the serials of their next children; and which of the three are covered.
type Stood = ([bool; 4], [u32; 4], [bool; 3]);

fn stood(places: &Placement) -> Stood {
    let lives = [
        places.living(ClusterNo(0)),
        places.living(ClusterNo(1)),
        places.living(ClusterNo(2)),
        places.living(ClusterNo(3)),
    ];
    let serials = [
        places.next_serial(ClusterNo(0)),
        places.next_serial(ClusterNo(1)),
        places.next_serial(ClusterNo(2)),
        places.next_serial(ClusterNo(3)),
    ];
    let covered = [
        places.covered(ClusterNo(0)),
        places.covered(ClusterNo(1)),
        places.covered(ClusterNo(2)),
    ];
    (lives, serials, covered)
}

// ---- what a log leads to

// How many clusters there are, the first that serves pages, and the home of a process that there is not.
type Numbers = (u8, Option<ClusterNo>, Option<ClusterNo>);

// Whether just these processes are placed, and in a copy, and the rest that is said.
type Shown = ([bool; 2], Stood, Numbers);

fn shown(places: &Placement, wanted: &[Placed]) -> Result<Shown, NoMemory> {
    let copy = places.copy()?;
    let placed = [are_placed(places, wanted), are_placed(&copy, wanted)];
    let numbers = (
        places.clusters(),
        places.first_server(),
        places.home(Pid(64)),
    );
    Ok((placed, stood(places), numbers))
}

// What is wanted of a placement: who is placed, how the clusters stand, the first server, and where entries go.
type Wanted = (&'static [Placed], Stood, u8, &'static [Route]);

fn assert_shows(alloc: Global, places: &Placement, wanted: &Wanted) -> Result<(), Fail> {
    let (placed, stood, server, routes) = *wanted;
    let numbers = (3, Some(ClusterNo(server)), None);
    same(
        "the placement",
        &shown(places, placed)?,
        &([true, true], stood, numbers),
    )?;
    assert_routes(alloc, places, routes)
}

fn assert_after(alloc: Global, log: usize, steps: usize, wanted: &Wanted) -> Result<(), Fail> {
    let places = after(alloc, log, steps)?;
    assert_shows(alloc, &places, wanted)
}

const ALL: [bool; 4] = [true, true, true, false];

const WITHOUT_0: [bool; 4] = [false, true, true, false];

const WITHOUT_2: [bool; 4] = [true, true, false, false];

// A log, how much of it is taken in, and what is wanted then.
static ROWS: [(usize, usize, Wanted); 15] = [
    (
        LONG,
        0,
        (
            &[FIRST, SECOND],
            (ALL, [2, 2, 1, 0], [true, true, true]),
            1,
            PAGES,
        ),
    ),
    (
        LONG,
        2,
        (
            &[FIRST, SECOND, CHILD, LATER],
            (ALL, [4, 2, 1, 0], [true, true, true]),
            1,
            &[],
        ),
    ),
    (
        LONG,
        3,
        (
            &[FIRST, SECOND, OVER, LATER],
            (ALL, [4, 2, 1, 0], [true, true, true]),
            1,
            LETTERS,
        ),
    ),
    (
        LONG,
        4,
        (
            &[SYNCED, SECOND, OVER, LATER],
            (ALL, [4, 2, 1, 0], [true, true, true]),
            1,
            &[],
        ),
    ),
    (
        LONG,
        5,
        (
            &[MOVED_SYNCED, SECOND, OVER, MOVED_LATER],
            (WITHOUT_0, [4, 2, 1, 0], [true, false, true]),
            1,
            RETURN,
        ),
    ),
    (
        LONG,
        6,
        (
            &[MOVED_SYNCED, SECOND, OVER, MOVED_LATER],
            (ALL, [4, 2, 1, 0], [true, false, true]),
            1,
            &[],
        ),
    ),
    (
        LONG,
        7,
        (
            &[KEPT, SECOND, OVER, KEPT_LATER],
            (ALL, [4, 2, 1, 0], [true, true, true]),
            1,
            PAGES_MOVED,
        ),
    ),
    (
        LONG,
        8,
        (
            &[KEPT, ALONE, OVER, KEPT_LATER],
            (WITHOUT_2, [4, 2, 1, 0], [true, false, true]),
            1,
            &[],
        ),
    ),
    (
        LONG,
        9,
        (
            &[KEPT, ALONE, OVER, KEPT_LATER],
            (ALL, [4, 2, 1, 0], [true, false, true]),
            1,
            PAGES_OF_ONE,
        ),
    ),
    (
        LONG,
        10,
        (
            &[KEPT, RENEWED, OVER, KEPT_LATER],
            (ALL, [4, 2, 1, 0], [true, false, true]),
            1,
            &[],
        ),
    ),
    (
        BIRTHS,
        4,
        (
            &[SYNCED, SECOND, CHILD, LATER, OTHER],
            (ALL, [4, 3, 1, 0], [true, true, true]),
            1,
            &[],
        ),
    ),
    (
        MOVE,
        3,
        (
            &[MOVED, SECOND, MOVED_CHILD, AFTERWARDS],
            (WITHOUT_0, [3, 3, 1, 0], [true, false, true]),
            1,
            &[],
        ),
    ),
    (
        TAKEN_BACK,
        3,
        (
            &[FIRST, SECOND, CHILD],
            (ALL, [3, 2, 1, 0], [true, true, true]),
            1,
            &[],
        ),
    ),
    (
        TAKEN_BACK,
        4,
        (
            &[FIRST, SECOND, CHILD, LATER],
            (ALL, [4, 2, 1, 0], [true, true, true]),
            1,
            &[],
        ),
    ),
    (
        BY_HAND,
        3,
        (
            &[SET, SECOND_MOVED],
            (ALL, [2, 2, 1, 0], [true, true, false]),
            2,
            &[],
        ),
    ),
];

#[test]
fn a_log_is_taken_in_entry_by_entry(rt: HostRuntime) -> Result<(), Fail> {
    for (log, steps, wanted) in &ROWS {
        assert_after(rt.alloc(), *log, *steps, wanted)?;
    }
    Ok(())
}
