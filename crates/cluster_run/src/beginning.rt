//! The lives of clusters that come back.
ghost use Rattle.std.specs.Prelude.{◌≡◌, ◌+◌, ◌<◌, ◌⊎◌, IfOk, OnOk, None, true, false, drop};
ghost use Rattle.bus_msg.specs.PlacedAfter.{what};
ghost use Rattle.bus_order.specs.Script.{off_at};
ghost use Rattle.std.specs.List.{list_all};
ghost use Rattle.cert_sched.specs.Losses.{is_loss_word};
ghost use Rattle.cert_sched.specs.Losses.{was_lost_in};
ghost use Rattle.cert_sched.specs.Rules.{is_over};
ghost use Rattle.cluster_turns.specs.Along.{IsAlong, IsFailed, IsSame, IsSound, IsStopped, StaysAlive};
ghost use Rattle.cluster_turns.specs.Lives.{begin_of_life, begins_at};
ghost use Rattle.cluster_run.specs.Begun.{BeginsLife, BeginsLives, ComesBackAt, KnowsThere};
ghost use Rattle.script_laws.specs.Off.{comes_back};

use crate::life::Life;
use bus_msg::entry::{Entry, What};
use bus_order::bus::Bus;
use cluster_core::known::Known;
use cluster_core::returned::returned_clusters_follow;
use cluster_turns::member::Member;
use cluster_turns::offers::was_lost_from;
use cluster_turns::turn::take_unnamed;
use std::alloc::AllocError;
use std::mem;
use t32_base::process::ClusterNo;
use t32_base::streams::NoMemory;

/// Begins the lives of a cluster that lives, where it was lost behind its cursor and has come back: for each of these losses the value
/// that stands takes in the entries before it, where it had not stopped before, and is kept with the life that it stands for; the cluster
/// goes on behind its return, with no process. Where no word of the script brings a cluster back, none came back. After want of memory nothing
/// is said of them.
pub fn begin_lives(
    bus: &Bus,
    cluster: &mut Member,
    has_stopped: &mut bool,
    past: &mut Vec<Life>,
    returns: bool,
) -> Result<(), NoMemory>
    requires sound { IsSound bus.now }
    requires words { returns ≡ false → list_all is_loss_word bus.now.script ≡ true }
    requires has { cluster.old.number.0 < bus.now.system.clusters }
    requires goes_on { is_over bus.now.system bus.now.log ≡ false }
    requires lives { off_at bus.now.log cluster.old.number ≡ None }
    requires member { IsAlong bus.now cluster.old ⊎ IsStopped bus.now cluster.old ⊎ IsFailed bus.now cluster.old }
    requires moving { has_stopped.old ≡ false → IsAlong bus.now cluster.old ⊎ IsFailed bus.now cluster.old }
    ensures begins { OnOk result (BeginsLives bus.now cluster.old cluster.new past.old.items past.new.items) }
{
    if !returns {
        return Ok(());
    }
    'lives: while was_lost_from(bus, cluster.number(), cluster.cursor()) {
        begin_life(bus, cluster, *has_stopped, past)?;
        *has_stopped = false;
    }
    Ok(())
}

// Begins the next life of a cluster that was lost behind its cursor and has come back. It stands by itself so that no other turn pays
// for it.
#[cold]
#[inline(never)]
fn begin_life(
    bus: &Bus,
    cluster: &mut Member,
    has_stopped: bool,
    past: &mut Vec<Life>,
) -> Result<(), NoMemory>
    requires sound { IsSound bus.now }
    requires has { cluster.old.number.0 < bus.now.system.clusters }
    requires goes_on { is_over bus.now.system bus.now.log ≡ false }
    requires lives { off_at bus.now.log cluster.old.number ≡ None }
    requires member { IsAlong bus.now cluster.old ⊎ IsStopped bus.now cluster.old ⊎ IsFailed bus.now cluster.old }
    requires moving { has_stopped ≡ false → IsAlong bus.now cluster.old ⊎ IsFailed bus.now cluster.old }
    requires lost { was_lost_in (drop cluster.old.cursor bus.now.log) cluster.old.number ≡ true }
    ensures begins { OnOk result (BeginsLife bus.now cluster.old cluster.new past.old.items past.new.items) }
{
    take_until_lost(bus, cluster, has_stopped)?;
    let fresh = come_back(bus, cluster)?;
    let lost = mem::replace(cluster, fresh);
    let life = past_life(bus, lost);
    past.push(life)?;
    Ok(())
}

// Lets a cluster that was lost behind its cursor take in the entries before its loss. One that had stopped, or of whose disk a call failed, stays as it is.
fn take_until_lost(bus: &Bus, cluster: &mut Member, has_stopped: bool) -> Result<(), NoMemory>
    requires sound { IsSound bus.now }
    requires member { IsAlong bus.now cluster.old ⊎ IsStopped bus.now cluster.old ⊎ IsFailed bus.now cluster.old }
    requires moving { has_stopped ≡ false → IsAlong bus.now cluster.old ⊎ IsFailed bus.now cluster.old }
    requires lost { was_lost_in (drop cluster.old.cursor bus.now.log) cluster.old.number ≡ true }
    ensures same { OnOk result (IsSame cluster.old cluster.new) }
    ensures life { OnOk result (StaysAlive cluster.old.number bus.now.log cluster.old.cursor cluster.new.cursor) }
    ensures stopped { OnOk result (IsStopped bus.now cluster.new) }
{
    if has_stopped || cluster.failed().is_some() {
        return Ok(());
    }
    take_unnamed(bus, cluster)?;
    Ok(())
}

// What a cluster knows behind its next return in the log, and the place there.
#[derive(Drop)]
struct Back {
    known: Known,
    cursor: u64,
}

// The same cluster behind its next return in the log: it has no process, no record and no disk.
fn come_back(bus: &Bus, cluster: &Member) -> Result<Member, NoMemory>
    requires sound { IsSound bus.now }
    requires has { cluster.now.number.0 < bus.now.system.clusters }
    requires goes_on { is_over bus.now.system bus.now.log ≡ false }
    requires lives { off_at bus.now.log cluster.now.number ≡ None }
    requires stopped { IsStopped bus.now cluster.now }
    requires lost { was_lost_in (drop cluster.now.cursor bus.now.log) cluster.now.number ≡ true }
    ensures back { IfOk result (ComesBackAt bus.now cluster.now) }
{
    // What is known of a cluster that comes back: it follows the log up to its return.
    returned_clusters_follow();
    let back = known_at_return(bus, cluster)?;
    let fresh = cluster.come_back(back.known, back.cursor)?;
    Ok(fresh)
}

// What a cluster that was lost behind its cursor, and lives, knows behind its next return.
fn known_at_return(bus: &Bus, cluster: &Member) -> Result<Back, NoMemory>
    requires sound { IsSound bus.now }
    requires goes_on { is_over bus.now.system bus.now.log ≡ false }
    requires lives { off_at bus.now.log cluster.now.number ≡ None }
    requires stopped { IsStopped bus.now cluster.now }
    requires lost { was_lost_in (drop cluster.now.cursor bus.now.log) cluster.now.number ≡ true }
    ensures knows { IfOk result (λ back. KnowsThere bus.now cluster.now back.known.places back.known.family back.cursor) }
{
    let mut known = cluster.known()?;
    for place in cluster.cursor()..bus.length() {
        let Some(entry) = bus.entry(place) else {
            unreachable!();
        };
        known.take(entry)?;
        if brings_back(entry, cluster.number()) {
            return Ok(Back {
                known,
                cursor: place + 1,
            });
        }
    }
    unreachable!()
}

/// Whether an entry brings a cluster back.
pub fn brings_back(entry: &Entry, number: ClusterNo) -> bool
    ensures { result ≡ comes_back number (what entry.now) }
{
    match entry.post.what {
        What::Return { k } => k == number,
        _ => false,
    }
}

// The life for which a cluster that was lost stands.
fn past_life(bus: &Bus, lost: Member) -> Life
    ensures cluster { result.cluster ≡ lost.number }
    ensures from { result.from ≡ begin_of_life bus.now.log lost.number lost.cursor }
    ensures upto { result.upto ≡ lost.cursor }
    ensures value { result.value ≡ lost }
{
    Life {
        cluster: lost.number(),
        from: begin_of_life(bus, lost.number(), lost.cursor()),
        upto: lost.cursor(),
        value: lost,
    }
}

// Where the life begins in which a cluster has come up to a place.
fn begin_of_life(bus: &Bus, number: ClusterNo, cursor: u64) -> u64
    ensures { result ≡ begin_of_life bus.now.log number cursor }
{
    let mut place = cursor;
    'places: while place > 0 {
        if is_return_at(bus, number, place - 1) {
            return place;
        }
        place -= 1;
    }
    0
}

// Whether the entry at a place brings a cluster back.
fn is_return_at(bus: &Bus, number: ClusterNo, place: u64) -> bool
    ensures { result ≡ begins_at bus.now.log number (place + 1) }
{
    match bus.entry(place) {
        Some(entry) => brings_back(entry, number),
        None => false,
    }
}
