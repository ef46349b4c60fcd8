//! The thread of a cluster, which follows the log behind a lock.
ghost use Rattle.std.specs.Prelude.{◌≡◌, ◌<◌, IfOk, OnOk, Some, [], true, false};
ghost use Rattle.std.specs.Arc.{arc_value};
ghost use Rattle.sys_text.specs.declared.system.System.{System as ASystem};
ghost use Rattle.sys_text.specs.Valid.{is_system};
ghost use Rattle.bus_lock.specs.Seats.{IsOf, seat_origin, seen, told, view_of};
ghost use Rattle.bus_lock.specs.Views.{retold};
ghost use Rattle.cert_sched.specs.Rules.{is_over};
ghost use Rattle.cluster_turns.specs.Along.{IsMember, IsSame, IsSound};
ghost use Rattle.cluster_threads.specs.declared.standing.Standing.TheVariants.{Lives};
ghost use Rattle.cluster_threads.specs.Seated.{FindsDue, IsSeatOf, LivesOn, StandsAt, bus_of, made_of};
ghost use Rattle.cluster_threads.specs.Threads.{HasEnded, HasPast, OneEnded, Starts};

use crate::followed::Followed;
use crate::locked::{give, stop, take_sound};
use crate::seated::{Seated, TURNS};
use crate::sleepers::Sleepers;
use crate::standing::{Shown, Standing, stand};
use bus_lock::{LogLock, LogSeat};
use bus_order::shared::SharedBus;
use cert_sched::script::ScriptWord;
use cluster_turns::member::Member;
use cluster_turns::offers::News;
use cluster_turns::turn::{Turn, take_turn};
use std::alloc::Global;
use std::sync::{Arc, Wait};
use sys_text::system::System;
use t32_base::gate::Gate;
use t32_base::process::ClusterNo;
use t32_base::streams::NoMemory;

/// Lets a cluster follow the log, in each of its lives, until its seat has seen that this is over, and answers the seat and the cluster,
/// with the lives that it had before. One that is lost sleeps until it has come back or the log is over. Where it meets want of memory it
/// ends the run, and there is no cluster.
pub fn follow<R: Wait, G: Gate>(
    rt: &R,
    alloc: Global,
    system: &Arc<System>,
    script: &[ScriptWord],
    lock: &LogLock<SharedBus>,
    seat: LogSeat<SharedBus>,
    cluster: Member,
    gate: &G,
    sleepers: &Sleepers,
) -> (LogSeat<SharedBus>, Option<Followed>)
    requires { Starts lock.now (made_of (arc_value system.now) script.now) seat cluster }
    ensures ended { OneEnded lock.now (made_of (arc_value system.now) script.now) cluster.number.0 result.0 result.1 }
    ensures over { is_over (arc_value system.now) (seen result.0) ≡ true }
{
    let number = cluster.number();
    let mut followed = Followed {
        cluster,
        past: Vec::new(alloc),
    };
    let mut port = Seated {
        rt,
        lock,
        system,
        script,
        gate,
        sleepers,
        seat,
        news: News {
            number,
            from: 0,
            upto: 0,
            entries: Vec::new(alloc),
            is_over: false,
        },
        steps: Vec::new(alloc),
        looks_after: TURNS,
    };
    match follow_lives(alloc, &mut port, &mut followed) {
        Ok(()) => {
            sleepers.go(number);
            (port.into_seat(), Some(followed))
        }
        Err(NoMemory) => {
            let mut seat = port.into_seat();
            stop(rt, lock, &mut seat, number);
            sleepers.go(number);
            (seat, None)
        }
    }
}

// Lets a cluster follow the log, in each of its lives, until that is over.
fn follow_lives<R: Wait, G: Gate>(
    alloc: Global,
    port: &mut Seated<'_, R, G>,
    followed: &mut Followed,
) -> Result<(), NoMemory>
    requires seat { IsSeatOf port.old.lock.now followed.old.cluster.number port.old.seat }
    requires origin { seat_origin port.old.seat ≡ Some (made_of (arc_value port.old.system.now) port.old.script.now) }
    requires valid { is_system (arc_value port.old.system.now) ≡ true }
    requires has { followed.old.cluster.number.0 < (arc_value port.old.system.now).clusters }
    requires member { IsMember (bus_of (made_of (arc_value port.old.system.now) port.old.script.now) (seen port.old.seat)) followed.old.cluster.number.0 followed.old.cluster }
    requires past { HasPast (bus_of (made_of (arc_value port.old.system.now) port.old.script.now) (seen port.old.seat)) followed.old }
    ensures seat { IsSeatOf port.old.lock.now followed.old.cluster.number port.new.seat }
    ensures origin { seat_origin port.new.seat ≡ Some (made_of (arc_value port.old.system.now) port.old.script.now) }
    ensures ended { OnOk result (HasEnded (made_of (arc_value port.old.system.now) port.old.script.now) followed.old.cluster.number.0 (seen port.new.seat) followed.new) }
{
    if port.sleepers.has_given_up() {
        return Err(NoMemory);
    }
    let rt = port.rt;
    for _ in rt.forever() {
        match enter(
            rt,
            alloc,
            port.lock,
            &mut port.seat,
            port.system,
            port.script,
            followed,
        )? {
            Standing::Over => return Ok(()),
            Standing::Off(length) => sleep(
                rt,
                port.lock,
                &mut port.seat,
                followed.cluster.number(),
                length,
                port.sleepers,
            ),
            Standing::Lives(shown) => live(port, shown, &mut followed.cluster)?,
        }
    }
    unreachable!()
}

// Takes the bus for a moment, and looks how a cluster stands there. One that lives begins the lives that it has not begun.
fn enter<R: Wait>(
    rt: &R,
    alloc: Global,
    lock: &LogLock<SharedBus>,
    seat: &mut LogSeat<SharedBus>,
    system: &Arc<System>,
    script: &[ScriptWord],
    followed: &mut Followed,
) -> Result<Standing, NoMemory>
    requires seat { IsSeatOf lock.now followed.old.cluster.number seat.old }
    requires origin { seat_origin seat.old ≡ Some (made_of (arc_value system.now) script.now) }
    requires valid { is_system (arc_value system.now) ≡ true }
    requires has { followed.old.cluster.number.0 < (arc_value system.now).clusters }
    requires member { IsMember (bus_of (made_of (arc_value system.now) script.now) (seen seat.old)) followed.old.cluster.number.0 followed.old.cluster }
    requires past { HasPast (bus_of (made_of (arc_value system.now) script.now) (seen seat.old)) followed.old }
    ensures seat { IsSeatOf lock.now followed.old.cluster.number seat.new }
    ensures origin { seat_origin seat.new ≡ Some (made_of (arc_value system.now) script.now) }
    ensures same { OnOk result (IsSame followed.old.cluster followed.new.cluster) }
    ensures sound { OnOk result (IsSound (bus_of (made_of (arc_value system.now) script.now) (seen seat.new))) }
    ensures member { OnOk result (IsMember (bus_of (made_of (arc_value system.now) script.now) (seen seat.new)) followed.old.cluster.number.0 followed.new.cluster) }
    ensures past { OnOk result (HasPast (bus_of (made_of (arc_value system.now) script.now) (seen seat.new)) followed.new) }
    ensures stands { IfOk result (λ standing. StandsAt (bus_of (made_of (arc_value system.now) script.now) (seen seat.new)) standing followed.new.cluster) }
{
    let number = followed.cluster.number();
    let bus = take_sound(rt, lock, seat, &followed.cluster);
    let standing = stand(alloc, &bus, script, followed);
    give(lock, seat, bus, number);
    standing
}

// Lets a cluster follow the log, in one life, until that is over or the cluster was lost.
fn live<R: Wait, G: Gate>(
    port: &mut Seated<'_, R, G>,
    shown: Shown,
    cluster: &mut Member,
) -> Result<(), NoMemory>
    requires seat { IsSeatOf port.old.lock.now cluster.old.number port.old.seat }
    requires origin { seat_origin port.old.seat ≡ Some (made_of (arc_value port.old.system.now) port.old.script.now) }
    requires sound { IsSound (bus_of (made_of (arc_value port.old.system.now) port.old.script.now) (seen port.old.seat)) }
    requires lives { StandsAt (bus_of (made_of (arc_value port.old.system.now) port.old.script.now) (seen port.old.seat)) (Lives shown) cluster.old }
    ensures lock { port.new.lock.now ≡ port.old.lock.now }
    ensures made { made_of (arc_value port.new.system.now) port.new.script.now ≡ made_of (arc_value port.old.system.now) port.old.script.now }
    ensures seat { IsSeatOf port.old.lock.now cluster.old.number port.new.seat }
    ensures origin { seat_origin port.new.seat ≡ Some (made_of (arc_value port.old.system.now) port.old.script.now) }
    ensures same { OnOk result (IsSame cluster.old cluster.new) }
    ensures lived { OnOk result (LivesOn (bus_of (made_of (arc_value port.old.system.now) port.old.script.now) (seen port.old.seat)) (bus_of (made_of (arc_value port.old.system.now) port.old.script.now) (seen port.new.seat)) cluster.old cluster.new) }
    ensures member { OnOk result (IsMember (bus_of (made_of (arc_value port.old.system.now) port.old.script.now) (seen port.new.seat)) cluster.old.number.0 cluster.new) }
{
    port.news = shown.news;
    port.steps = shown.steps;
    let rt = port.rt;
    for _ in rt.forever() {
        if turn_once(port, cluster)? {
            return Ok(());
        }
    }
    unreachable!()
}

// Gives a cluster one turn, after which it sleeps where nothing can move in it. Answers whether the log is over or the cluster was lost.
fn turn_once<R: Wait, G: Gate>(
    port: &mut Seated<'_, R, G>,
    cluster: &mut Member,
) -> Result<bool, NoMemory>
    requires seat { IsSeatOf port.old.lock.now cluster.old.number port.old.seat }
    requires origin { seat_origin port.old.seat ≡ Some (made_of (arc_value port.old.system.now) port.old.script.now) }
    requires number { port.old.news.number ≡ cluster.old.number }
    requires due { FindsDue (made_of (arc_value port.old.system.now) port.old.script.now) port.old.seat port.old.news port.old.steps.items cluster.old }
    requires empty { cluster.old.queue ≡ [] }
    ensures lock { port.new.lock.now ≡ port.old.lock.now }
    ensures made { made_of (arc_value port.new.system.now) port.new.script.now ≡ made_of (arc_value port.old.system.now) port.old.script.now }
    ensures seat { IsSeatOf port.old.lock.now cluster.old.number port.new.seat }
    ensures origin { seat_origin port.new.seat ≡ Some (made_of (arc_value port.old.system.now) port.old.script.now) }
    ensures number { port.new.news.number ≡ cluster.old.number }
    ensures same { OnOk result (IsSame cluster.old cluster.new) }
    ensures lived { OnOk result (LivesOn (bus_of (made_of (arc_value port.old.system.now) port.old.script.now) (seen port.old.seat)) (bus_of (made_of (arc_value port.old.system.now) port.old.script.now) (seen port.new.seat)) cluster.old cluster.new) }
    ensures due { IfOk result (λ ended. ended ≡ false → FindsDue (made_of (arc_value port.old.system.now) port.old.script.now) port.new.seat port.new.news port.new.steps.items cluster.new) }
    ensures empty { IfOk result (λ ended. ended ≡ false → cluster.new.queue ≡ []) }
    ensures member { IfOk result (λ ended. ended ≡ true → IsMember (bus_of (made_of (arc_value port.old.system.now) port.old.script.now) (seen port.new.seat)) cluster.old.number.0 cluster.new) }
{
    let rt = port.rt;
    match take_turn(port, cluster)? {
        Turn::Moved => (),
        Turn::Waits => {
            port.looks_after = 0;
            rest(rt, port.lock, &mut port.seat, cluster, port.sleepers);
        }
        Turn::Rests => rest(rt, port.lock, &mut port.seat, cluster, port.sleepers),
        Turn::Over | Turn::Lost => return Ok(true),
    }
    Ok(false)
}

// Sleeps until the log has grown since the cluster looked at it.
fn rest<R: Wait>(
    rt: &R,
    lock: &LogLock<SharedBus>,
    seat: &mut LogSeat<SharedBus>,
    cluster: &Member,
    sleepers: &Sleepers,
)
    requires of { IsOf lock.now seat.old }
    ensures of { IsOf lock.now seat.new }
    ensures same { view_of seat.new ≡ retold (view_of seat.old) (told seat.new) }
{
    sleep(rt, lock, seat, cluster.number(), cluster.cursor(), sleepers);
}

// Whether the log has another length. Asks only for that.
fn has_grown(lock: &LogLock<SharedBus>, seat: &mut LogSeat<SharedBus>, length: u64) -> bool
    requires of { IsOf lock.now seat.old }
    ensures of { IsOf lock.now seat.new }
    ensures same { view_of seat.new ≡ retold (view_of seat.old) (told seat.new) }
{
    lock.length_now(seat) != length
}

// Sleeps until the log has another length than the cluster has seen. One that is woken before makes no kernel step: it has told
// that nothing can move in it, and another may end the log on that.
fn sleep<R: Wait>(
    rt: &R,
    lock: &LogLock<SharedBus>,
    seat: &mut LogSeat<SharedBus>,
    number: ClusterNo,
    length: u64,
    sleepers: &Sleepers,
)
    requires of { IsOf lock.now seat.old }
    ensures of { IsOf lock.now seat.new }
    ensures same { view_of seat.new ≡ retold (view_of seat.old) (told seat.new) }
{
    for _ in rt.forever() {
        if !naps(rt, lock, seat, number, length, sleepers) {
            return;
        }
    }
}

// Sleeps until woken, unless the log has another length. Answers whether the caller is to look again: false where it had that at once.
fn naps<R: Wait>(
    rt: &R,
    lock: &LogLock<SharedBus>,
    seat: &mut LogSeat<SharedBus>,
    number: ClusterNo,
    length: u64,
    sleepers: &Sleepers,
) -> bool
    requires of { IsOf lock.now seat.old }
    ensures of { IsOf lock.now seat.new }
    ensures same { view_of seat.new ≡ retold (view_of seat.old) (told seat.new) }
{
    if has_grown(lock, seat, length) {
        return false;
    }
    sleepers.lie_down(number);
    if !has_grown(lock, seat, length) {
        sleepers.sleep(rt, number);
    }
    sleepers.get_up(number);
    true
}
