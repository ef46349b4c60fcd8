//! Pages that a process asks for after a loss moved it. The system has one process, 16, at home in cluster 0 with its
//! backup in cluster 1.
ghost use Rattle.std.specs.Prelude.{◌≡◌, true};
ghost use Rattle.sys_text.specs.Valid.{is_system};

use bus_msg::entry::{By, Cause, Dests, Entry, Post, What};
use bus_msg::shared::Shared;
use cert_sched::start::placement_at_boot;
use channel_table::placement::Placement;
use log_fetches::fetches::Fetches;
use std::alloc::Global;
use std::test::Fail;
use sys_text::read_system;
use sys_text::system::System;
use t32_base::process::{ClusterNo, Pid};
use t32_base::streams::NoMemory;
use test_asserts::same;
use test_systems::HI;

const PID: Pid = Pid(16);

// An entry of no place and for no cluster.
fn entry(what: What) -> Entry {
    Entry {
        place: 0,
        post: Post { by: By::Bus, what },
        dests: Dests {
            clusters: 0,
            tty: None,
        },
    }
}

fn loss(k: u8) -> What {
    What::Crash {
        k: ClusterNo(k),
        cause: Cause::Place,
    }
}

fn fetch(index: u16) -> What {
    What::Fetch { pid: PID, index }
}

fn page(alloc: Global, index: u16) -> Result<What, NoMemory> {
    let bytes = Shared::new(alloc, [0; 256])?;
    Ok(What::PageIs {
        pid: PID,
        index,
        bytes,
    })
}

// An entry: that a cluster is lost, or that a page is asked for, or comes.
enum Event {
    Loss(u8),
    Fetch(u16),
    Page(u16),
}

fn what_of(alloc: Global, event: &Event) -> Result<What, NoMemory> {
    match event {
        Event::Loss(k) => Ok(loss(*k)),
        Event::Fetch(index) => Ok(fetch(*index)),
        Event::Page(index) => page(alloc, *index),
    }
}

// Whether it was moved with a state; whether its pages 0, 63, 64 and 256 were asked for; and whether all have come, if
// it has one page, or 65.
fn seen(fetches: &Fetches) -> [bool; 7] {
    [
        fetches.moved(PID),
        fetches.asked(PID, 0),
        fetches.asked(PID, 63),
        fetches.asked(PID, 64),
        fetches.asked(PID, 256),
        fetches.all_come(PID, 1),
        fetches.all_come(PID, 65),
    ]
}

// An entry, and what is seen after it.
type Row = (Event, [bool; 7]);

const AT_START: [bool; 7] = [false, false, false, false, false, true, true];

fn take(
    alloc: Global,
    fetches: &mut Fetches,
    places: &Placement,
    event: &Event,
) -> Result<[bool; 7], NoMemory> {
    let entry = entry(what_of(alloc, event)?);
    fetches.take(places, &entry)?;
    Ok(seen(fetches))
}

fn take_each(
    alloc: Global,
    fetches: &mut Fetches,
    places: &Placement,
    rows: &[Row],
) -> Result<(), Fail> {
    same("at the start", &seen(fetches), &AT_START)?;
    for (event, wanted) in rows {
        let shown = take(alloc, fetches, places, event)?;
        same("after an entry", &shown, wanted)?;
    }
    Ok(())
}

fn assert_from(alloc: Global, system: &System, places: &Placement, rows: &[Row]) -> Result<(), Fail>
    requires { is_system system.now ≡ true }
{
    let mut fetches = Fetches::start(alloc, system)?;
    take_each(alloc, &mut fetches, places, rows)
}

fn assert_of(alloc: Global, system: &System, rows: &[Row]) -> Result<(), Fail>
    requires { is_system system.now ≡ true }
{
    let places = placement_at_boot(alloc, system)?;
    assert_from(alloc, system, &places, rows)
}

fn assert_rows(alloc: Global, rows: &[Row]) -> Result<(), Fail> {
    let system = read_system(alloc, HI.as_bytes())?;
    assert_of(alloc, &system, rows)
}

// The loss of the backup moves nothing, and then that of the home does.
static LOSSES: [Row; 2] = [
    (
        Event::Loss(1),
        [false, false, false, false, false, true, true],
    ),
    (
        Event::Loss(0),
        [true, false, false, false, false, false, false],
    ),
];

#[test]
fn a_loss_of_the_home_moves_the_process(rt: HostRuntime) -> Result<(), Fail> {
    assert_rows(rt.alloc(), &LOSSES)
}

// The loss, page 64 asked for, page 0 asked for, page 0, and the loss once more.
static PAGES: [Row; 5] = [
    (
        Event::Loss(0),
        [true, false, false, false, false, false, false],
    ),
    (
        Event::Fetch(64),
        [true, false, false, true, false, false, false],
    ),
    (
        Event::Fetch(0),
        [true, true, false, true, false, false, false],
    ),
    (
        Event::Page(0),
        [true, true, false, true, false, true, false],
    ),
    (
        Event::Loss(0),
        [true, false, false, false, false, false, false],
    ),
];

#[test]
fn pages_are_asked_for_and_come(rt: HostRuntime) -> Result<(), Fail> {
    assert_rows(rt.alloc(), &PAGES)
}
