//! A bus at its start, call by call, and one that is stopped.
ghost use Rattle.std.specs.Prelude.{◌≡◌, IfOk, true};
ghost use Rattle.std.specs.Arc.{arc_value};
ghost use Rattle.sys_text.specs.Valid.{is_system};

use bus_msg::entry::{By, Post, What};
use bus_order::bus::Bus;
use bus_order::refused::Refused;
use std::alloc::Global;
use std::sync::Arc;
use std::test::Fail;
use sys_text::read_system;
use sys_text::system::System;
use t32_base::process::{ClusterNo, Pid};
use t32_base::streams::NoMemory;
use test_asserts::same;

// One root, at home in cluster 0 with its backup in cluster 1, in an image of one word.
const ONE_ROOT: &str =
    "clusters 2\npager 0 1\nsyncreads 32\nsyncsteps 4096\nimage spin 1\nwords 0000006f\nend\nroot 0 1 quarter spin 1000 0 0\n";

fn system(alloc: Global) -> Result<Arc<System>, Fail>
    ensures { IfOk result (λ shared. is_system (arc_value shared) ≡ true) }
{
    let system = read_system(alloc, ONE_ROOT.as_bytes())?;
    Ok(Arc::new(alloc, system)?)
}

fn booted(alloc: Global) -> Result<Bus, Fail> {
    let system = system(alloc)?;
    Ok(Bus::boot(alloc, &system, &[])?)
}

// The length of the log, whether an entry stands first, and how many items its schedule has.
fn counts(bus: &Bus) -> (u64, bool, usize) {
    (bus.length(), bus.entry(0).is_some(), bus.items().len())
}

// The home and the backup of a process.
fn placed(bus: &Bus, pid: Pid) -> Option<(ClusterNo, Option<ClusterNo>)> {
    let placed = bus.places().get(pid)?;
    Some((placed.home, placed.backup))
}

// The counts, the places of 16 and 17, and whether the clusters 0 and 2 have a mark.
type Start = (
    (u64, bool, usize),
    [Option<(ClusterNo, Option<ClusterNo>)>; 2],
    [bool; 2],
);

fn start(bus: &Bus) -> Start {
    let places = [placed(bus, Pid(16)), placed(bus, Pid(17))];
    let marked = [
        bus.marked(ClusterNo(0)).is_some(),
        bus.marked(ClusterNo(2)).is_some(),
    ];
    (counts(bus), places, marked)
}

// The place of a stop; the length of the log, whether it is over, and whether the end stands last.
type Stopped = (Option<u64>, (u64, bool, bool));

fn stop(bus: &mut Bus) -> Stopped {
    let at = bus.stop();
    (at, (bus.length(), bus.is_over(), bus.is_finished()))
}

// Whether the first entry is a stop, where there is one.
fn is_stop(bus: &Bus) -> Option<bool> {
    let entry = bus.entry(0)?;
    Some(matches!(entry.post.what, What::Stop))
}

// The same, and how many entries stand before the stop.
type Entries = (Option<bool>, usize);

fn entries(bus: &Bus) -> Result<Entries, NoMemory> {
    let before = bus.shared_from(0)?.len();
    Ok((is_stop(bus), before))
}

// A bus at its start, after a stop and after a second one, and its entries then.
type Shown = (Start, [Stopped; 2], Entries);

fn stop_twice(bus: &mut Bus) -> Result<Shown, Fail> {
    let start = start(bus);
    let stopped = [stop(bus), stop(bus)];
    Ok((start, stopped, entries(bus)?))
}

fn stopped_twice(alloc: Global) -> Result<Shown, Fail> {
    let mut bus = booted(alloc)?;
    stop_twice(&mut bus)
}

#[test]
fn a_bus_starts_without_an_entry(rt: HostRuntime) -> Result<(), Fail> {
    let root = (ClusterNo(0), Some(ClusterNo(1)));
    let wanted = ((0, false, 0), [Some(root), None], [false, false]);
    same("the start", &stopped_twice(rt.alloc())?.0, &wanted)
}

#[test]
fn a_stop_is_the_last_entry(rt: HostRuntime) -> Result<(), Fail> {
    let wanted = [(Some(0), (1, true, false)), (None, (1, true, false))];
    same("two stops", &stopped_twice(rt.alloc())?.1, &wanted)
}

#[test]
fn a_second_stop_adds_nothing(rt: HostRuntime) -> Result<(), Fail> {
    let wanted = (Some(true), 0);
    same("the entries", &stopped_twice(rt.alloc())?.2, &wanted)
}

// The post of the birth that the root would tell of.
fn birth_by(number: ClusterNo) -> Post
    ensures { result.by ≡ By.Cluster number }
{
    Post {
        by: By::Cluster(number),
        what: What::Birth {
            parent: Pid(16),
            at: 10,
            child: Pid(32),
            end: 0,
        },
    }
}

// What the home of the root is answered that tells of a birth and has seen nothing, where the log has an entry.
fn bear(bus: &mut Bus) -> Option<Result<u64, Refused>> {
    if bus.length() == 0 {
        return None;
    }
    Some(bus.transmit(ClusterNo(0), 0, &birth_by(ClusterNo(0))))
}

// The answer, the length of the log, the place of the child, and the serial of the next one.
type Refusal = (
    Option<Result<u64, Refused>>,
    u64,
    Option<(ClusterNo, Option<ClusterNo>)>,
    u32,
);

fn stop_and_bear(bus: &mut Bus) -> Refusal {
    let _ = bus.stop();
    let told = bear(bus);
    let serial = bus.places().next_serial(ClusterNo(0));
    (told, bus.length(), placed(bus, Pid(32)), serial)
}

fn refused(alloc: Global) -> Result<Refusal, Fail> {
    let mut bus = booted(alloc)?;
    Ok(stop_and_bear(&mut bus))
}

#[test]
fn a_birth_after_a_stop_is_refused_and_places_no_child(rt: HostRuntime) -> Result<(), Fail> {
    let wanted = (Some(Err(Refused::Over { at: 0 })), 1, None, 2);
    same("the birth", &refused(rt.alloc())?, &wanted)
}
