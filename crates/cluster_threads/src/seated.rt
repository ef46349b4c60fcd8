//! The port of a cluster to a bus behind a lock.
ghost use Rattle.std.specs.Prelude.{◌≡◌, ◌==◌, Some};
ghost use Rattle.std.specs.List.{list_any};
ghost use Rattle.std.specs.Arc.{arc_value};
ghost use Rattle.bus_lock.specs.Seats.{IsOf, seat_origin, seen, told, view_of};
ghost use Rattle.bus_lock.specs.Views.{retold};
ghost use Rattle.cluster_threads.specs.Seated.{IsSeatOf};

use crate::locked::{give, take_for, take_sound};
use crate::sleepers::Sleepers;
use bus_lock::{LogLock, LogSeat};
use bus_msg::entry::{Entry, Post};
use bus_order::marks::{Idled, Mark};
use bus_order::shared::SharedBus;
use cert_sched::script::ScriptWord;
use cluster_turns::member::Member;
use cluster_turns::offers::{News, Offered, lose_at, news_of, offer_to, receiver_of, tell_to};
use cluster_turns::port::Port;
use std::sync::{Arc, Wait};
use sys_text::system::System;
use t32_base::gate::Gate;
use t32_base::process::ClusterNo;
use t32_base::streams::NoMemory;

/// After how many turns a cluster in which something can move looks again. If each that computes looked as soon as another
/// adds an entry, all would want the bus at once, and some would sleep for it while a processor is idle. A turn is at most
/// 64 steps of a process, so a letter for another process of the cluster waits for some 4,000 steps at most.
pub const TURNS: u32 = 64;

/// A seat of the lock, with what is new in the log that it has seen, and the steps at which words lose the cluster that are left: in a life none
/// of them is used. The bus is taken for a moment at each call, and what
/// is new is taken in outside. It looks again after so many turns, or at once where nothing could move.
#[derive(Drop)]
pub struct Seated<'a, R, G> {
    pub rt: &'a R,
    pub lock: &'a LogLock<SharedBus>,
    pub system: &'a Arc<System>,
    pub script: &'a [ScriptWord],
    pub gate: &'a G,
    pub sleepers: &'a Sleepers,
    pub seat: LogSeat<SharedBus>,
    pub news: News,
    pub steps: Vec<u64>,
    pub looks_after: u32,
}

impl<'a, R, G> Seated<'a, R, G> {
    /// Its seat.
    pub fn into_seat(self) -> LogSeat<SharedBus>
        ensures { result ≡ self.entry.seat }
    {
        let Seated { seat, .. } = self;
        seat
    }
}

// Whether the log may have grown since. Asks only for its length.
fn has_grown(lock: &LogLock<SharedBus>, seat: &mut LogSeat<SharedBus>, news: &News) -> bool
    requires { IsOf lock.now seat.old }
    ensures of { IsOf lock.now seat.new }
    ensures same { view_of seat.new ≡ retold (view_of seat.old) (told seat.new) }
{
    let length = lock.length_now(seat);
    !news.is_over && length != news.upto
}

// Whether a step is one of these.
fn is_among(steps: &[u64], step: u64) -> bool
    ensures { result ≡ list_any (λ s. s == step) steps.now }
{
    steps.iter().any(|one| *one == step)
}

// Whether the log has got more entries than the one that was sent, if one was: a cluster was lost or has come back, or the log is over.
fn turns_around(before: u64, after: u64, was_sent: bool) -> bool {
    after.saturating_sub(before) > u64::from(was_sent)
}

// Counts a turn, and answers whether the cluster is to look in it.
fn is_due(looks_after: &mut u32) -> bool {
    if *looks_after > 0 {
        *looks_after -= 1;
        return false;
    }
    *looks_after = TURNS;
    true
}

// Dozes a little before a cluster in which nothing can move tells so: where a letter comes, it has nothing to tell. None
// comes to a cluster without a process.
fn doze(
    lock: &LogLock<SharedBus>,
    seat: &mut LogSeat<SharedBus>,
    news: &News,
    mark: &Mark,
    number: ClusterNo,
    sleepers: &Sleepers,
)
    requires { IsOf lock.now seat.old }
    ensures of { IsOf lock.now seat.new }
    ensures same { view_of seat.new ≡ retold (view_of seat.old) (told seat.new) }
{
    if mark.rests.get().is_empty() {
        return;
    }
    let another_is_up = sleepers.lie_down(number);
    if !has_grown(lock, seat, news) && another_is_up {
        sleepers.doze(number);
    }
    sleepers.get_up(number);
}

impl<'a, R: Wait, G: Gate> Port for Seated<'a, R, G> {
    ghost use Rattle.std.specs.Prelude.{◌≡◌, Some, false};
    ghost use Rattle.std.specs.Arc.{arc_value};
    ghost use Rattle.bus_msg.specs.declared.entry.Entry.{Entry as AnEntry};
    ghost use Rattle.bus_lock.specs.declared.lock.LogLock.{LogLock as ALogLock};
    ghost use Rattle.bus_lock.specs.Seats.{seat_origin, seen};
    ghost use Rattle.bus_order.specs.View.{BusView};
    ghost use Rattle.bus_order.specs.declared.shared.Origin.{Origin as AnOrigin};
    ghost use Rattle.cluster_threads.specs.Seated.{IsSeatOf, Shows, bus_of, made_of};

    ghost Root = { ALogLock BusView AnEntry AnOrigin × AnOrigin };

    ghost alone = { false };

    ghost root = { λ p. (p.lock.now, made_of (arc_value p.system.now) p.script.now) };

    ghost bus = { λ p. bus_of (made_of (arc_value p.system.now) p.script.now) (seen p.seat) };

    ghost from = { λ p. p.news.from };

    ghost shows = { λ p. Shows (made_of (arc_value p.system.now) p.script.now) (seen p.seat) p.news p.steps.items };

    ghost sits = { λ k p. IsSeatOf p.lock.now k p.seat × (seat_origin p.seat ≡ Some (made_of (arc_value p.system.now) p.script.now)) × (p.news.number ≡ k) };

    fn look(&mut self, cluster: &Member) -> Result<(), NoMemory> {
        if !is_due(&mut self.looks_after) || !has_grown(self.lock, &mut self.seat, &self.news) {
            return Ok(());
        }
        let bus = take_for(self.rt, self.lock, &mut self.seat, cluster);
        let news = news_of(&bus, cluster.number(), cluster.cursor());
        give(self.lock, &mut self.seat, bus, cluster.number());
        self.news = news?;
        Ok(())
    }

    fn followed(&self) -> u64 {
        self.news.upto
    }

    fn shown(&self, place: u64) -> &Entry {
        &self.news.entries[(place - self.news.from) as usize]
    }

    fn has_ended(&self) -> bool {
        self.news.is_over
    }

    fn names_step(&self, cluster: &Member) -> bool {
        is_among(&self.steps, cluster.steps())
    }

    fn lose(&mut self, cluster: &Member) -> Result<(), NoMemory> {
        let mut bus = take_sound(self.rt, self.lock, &mut self.seat, cluster);
        let lost = lose_at(&mut bus, cluster);
        give(self.lock, &mut self.seat, bus, cluster.number());
        self.sleepers.wake_all();
        lost
    }

    fn offer(&mut self, cluster: &Member, post: &Post) -> Result<Offered, NoMemory> {
        self.gate.before(cluster.number(), cluster.cursor());
        let mut bus = take_for(self.rt, self.lock, &mut self.seat, cluster);
        let before = bus.length();
        let offered = offer_to(&mut bus, cluster, post);
        let after = bus.length();
        let receiver = receiver_of(&bus, post);
        let news = news_of(&bus, cluster.number(), cluster.cursor());
        give(self.lock, &mut self.seat, bus, cluster.number());
        let offered = offered?;
        if let (Offered::Sent, Some(receiver)) = (offered, receiver) {
            self.sleepers.wake(receiver);
        }
        if turns_around(before, after, offered == Offered::Sent) {
            self.sleepers.wake_all();
        }
        self.news = news?;
        Ok(offered)
    }

    fn tell(&mut self, cluster: &Member, mark: Mark) -> Result<Option<Idled>, NoMemory> {
        self.looks_after = 0;
        doze(
            self.lock,
            &mut self.seat,
            &self.news,
            &mark,
            cluster.number(),
            self.sleepers,
        );
        let mut bus = take_for(self.rt, self.lock, &mut self.seat, cluster);
        let before = bus.length();
        let told = tell_to(&mut bus, cluster, mark);
        let after = bus.length();
        let news = news_of(&bus, cluster.number(), cluster.cursor());
        give(self.lock, &mut self.seat, bus, cluster.number());
        let told = told?;
        if turns_around(before, after, false) {
            self.sleepers.wake_all();
        }
        self.news = news?;
        Ok(told)
    }
}
