//! A run of clusters on threads.
ghost use Rattle.std.specs.Prelude.{◌≡◌, ◌<◌, ◌+◌, ◌++◌, ◌∷◌, [], IfErr, IfOk, IfSome, OnOk, Some, length, true, vec_len};
ghost use denote.Param.Send.{IsSync};
ghost use Rattle.std.specs.Arc.{arc_value};
ghost use Rattle.sys_text.specs.Valid.{is_system};
ghost use Rattle.bus_lock.specs.Seats.{AllFresh, seat_origin, seen};
ghost use Rattle.cluster_turns.specs.Along.{AllAlong, IsSound};
ghost use Rattle.cluster_turns.specs.Ends.{has_run_out};
ghost use Rattle.cluster_run.specs.Completed.{IsCompleted};
ghost use Rattle.cluster_run.specs.Left.{AllCaught};
ghost use Rattle.cluster_run.specs.Past.{InSameLives};
ghost use Rattle.cluster_run.specs.Started.{AllStarted};
ghost use Rattle.cluster_threads.specs.Seated.{made_of};
ghost use Rattle.cluster_threads.specs.Threads.{AllEnded, AllReady, AreBeside, HoldsFirst, OneEnded, Starts, WithLast, clusters_of, past_of};

use crate::followed::Followed;
use crate::following::follow;
use crate::sleepers::Sleepers;
use bus_lock::{LogLock, LogSeat};
use bus_order::bus::Bus;
use bus_order::shared::SharedBus;
use cert_sched::script::ScriptWord;
use cluster_run::booting::start;
use cluster_run::leaving::{leave, take_all_in};
use cluster_run::life::{Life, Ran};
use cluster_turns::member::Member;
use cluster_turns::offers::ends_lost;
use std::alloc::Global;
use std::sync::{Arc, Wait};
use std::thread::{Promise, PromisedHandle, Scope, SpawnError, Threads, scope, scope_env};
use sys_text::system::System;
use t32_base::gate::Gate;
use t32_base::process::ClusterNo;
use t32_base::streams::NoMemory;

/// Runs the clusters of a system until nothing can move, or a loss is not covered, each in a thread of its own. By the words
/// of the script clusters are lost at a place of the log, before one of their kernel steps, or by their disks, and come back.
/// Where those that are lost are neither both clusters of a root nor both page servers, each loss is covered.
pub fn run<R: Threads + Wait + Sync, G: Gate + Sync>(
    rt: &R,
    alloc: Global,
    system: &Arc<System>,
    script: &[ScriptWord],
    gate: &G,
) -> Result<Ran, NoMemory>
    requires valid { is_system (arc_value system.now) ≡ true }
    ensures { IfOk result (IsCompleted (arc_value system.now) script.now) }
{
    let sleepers = Sleepers::new(alloc, system.clusters)?;
    let (bus, clusters) = start(alloc, system, script)?;
    run_over(rt, alloc, system, script, bus, clusters, gate, &sleepers)
}

// Runs these clusters over their bus.
fn run_over<R: Threads + Wait + Sync, G: Gate + Sync>(
    rt: &R,
    alloc: Global,
    system: &Arc<System>,
    script: &[ScriptWord],
    bus: Bus,
    clusters: Vec<Member>,
    gate: &G,
    sleepers: &Sleepers,
) -> Result<Ran, NoMemory>
    requires valid { is_system (arc_value system.now) ≡ true }
    requires started { AllStarted (arc_value system.now) script.now (arc_value system.now).clusters clusters.items }
    requires some { 0 < length clusters.items }
    requires system { bus.system ≡ arc_value system.now }
    requires script { bus.script ≡ script.now }
    requires none { bus.log ≡ [] }
    ensures { IfOk result (IsCompleted (arc_value system.now) script.now) }
{
    let count = u32::from(system.clusters);
    let (lock, seats) = LogLock::with_seats(alloc, SharedBus::new(alloc, bus)?, count)?;
    let (seat, followed) = follow_all(
        rt,
        alloc,
        system,
        script,
        &lock,
        seats.into_vec(),
        clusters,
        gate,
        sleepers,
    );
    let bus = Box::into_inner(lock.close(seat).into_box());
    leave_all(alloc, system, bus, followed)
}

// The run of a bus whose clusters followed the log to its end, or to a loss that ended it. There is none where one met want of memory.
fn leave_all(
    alloc: Global,
    system: &System,
    bus: Bus,
    followed: Option<Vec<Followed>>,
) -> Result<Ran, NoMemory>
    requires system { bus.system ≡ system.now }
    requires sound { IsSound bus }
    requires beside { IfSome followed (λ fs. AreBeside bus (clusters_of fs.items) (past_of fs.items)) }
    ensures { IfOk result (IsCompleted bus.system bus.script) }
{
    let Some(followed) = followed else {
        return Err(NoMemory);
    };
    let (mut clusters, past) = parted(alloc, followed)?;
    finish(&bus, &mut clusters)?;
    leave(alloc, system, bus, clusters, past)
}

// The clusters, and the lives before those that they are in.
fn parted(alloc: Global, followed: Vec<Followed>) -> Result<(Vec<Member>, Vec<Life>), NoMemory>
    ensures clusters { IfOk result (λ parts. parts.0.items ≡ clusters_of followed.items) }
    ensures past { IfOk result (λ parts. parts.1.items ≡ past_of followed.items) }
{
    let mut clusters = Vec::new(alloc);
    let mut past = Vec::new(alloc);
    for one in followed {
        let mut lives = one.past;
        past.append(&mut lives)?;
        clusters.push(one.cluster)?;
    }
    Ok((clusters, past))
}

// Lets each cluster take in all of a log that has ended. Where one met want of memory the log has not ended so, and there is no run.
fn finish(bus: &Bus, clusters: &mut [Member]) -> Result<(), NoMemory>
    requires sound { IsSound bus.now }
    requires along { AllAlong bus.now clusters.old }
    ensures run_out { OnOk result (has_run_out bus.now.system bus.now.log ≡ true) }
    ensures caught { OnOk result (AllCaught bus.now clusters.new) }
    ensures lives { OnOk result (InSameLives bus.now.log clusters.old clusters.new) }
{
    if bus.is_finished() {
        return take_all_in(bus, clusters);
    }
    if ends_lost(bus) {
        return Ok(());
    }
    Err(NoMemory)
}

// What is so of the seat of a cluster, and of that, once its thread has returned.
#[derive(Clone, Copy)]
struct Ends<'a> {
    system: &'a Arc<System>,
    script: &'a [ScriptWord],
    lock: &'a LogLock<SharedBus>,
    number: usize,
}

impl<'a> Promise<(LogSeat<SharedBus>, Option<Followed>)> for Ends<'a> {
    ghost kept_by = { λ p r. OneEnded p.lock.now (made_of (arc_value p.system.now) p.script.now) p.number r.0 r.1 };
}

// Starts a thread, unless the gate refuses it: then the work is handed back, as where the system cannot start one.
fn start_thread<
    's,
    E,
    G: Gate,
    P: Promise<T> + Drop,
    F: FnOnce() -> T + Send + 's,
    T: Send + Drop + 's,
>(
    threads: &Scope<'s, E>,
    gate: &G,
    number: ClusterNo,
    promise: P,
    work: F,
) -> Result<PromisedHandle<T, P>, SpawnError<F>>
    requires runs { F.pre work }
    requires keeps { (r : T) → F.post work r → P.kept_by promise r }
    ensures ok { IfOk result (λ h. h.promise ≡ promise) }
    ensures err { IfErr result (λ e. e.value ≡ work) }
{
    if !gate.may_start(number) {
        return Err(SpawnError { value: work });
    }
    threads.spawn_with(promise, work)
}

// Lets each of these clusters follow the log, in a thread of its own and by its own seat. The seats come back as one. A thread
// that cannot be started is want of memory: its cluster ends the run before any other waits for a letter from it.
fn follow_all<R: Threads + Wait + Sync, G: Gate + Sync>(
    rt: &R,
    alloc: Global,
    system: &Arc<System>,
    script: &[ScriptWord],
    lock: &LogLock<SharedBus>,
    seats: Vec<LogSeat<SharedBus>>,
    clusters: Vec<Member>,
    gate: &G,
    sleepers: &Sleepers,
) -> (LogSeat<SharedBus>, Option<Vec<Followed>>)
    requires some { 0 < vec_len seats }
    requires each { vec_len clusters ≡ vec_len seats }
    requires fresh { AllFresh lock.now (Some (made_of (arc_value system.now) script.now)) seats.items }
    requires ready { AllReady (made_of (arc_value system.now) script.now) clusters.items }
    ensures seat { HoldsFirst lock.now (made_of (arc_value system.now) script.now) (vec_len seats) result.0 }
    ensures ended { IfSome result.1 (λ fs. AllEnded (made_of (arc_value system.now) script.now) (vec_len seats) (seen result.0) fs.items) }
{
    let mut seats = seats;
    let mut clusters = clusters;
    let (seat, cluster) = take_last(system, script, lock, &mut seats, &mut clusters);
    if seats.is_empty() {
        let last = follow(
            rt, alloc, system, script, lock, seat, cluster, gate, sleepers,
        );
        return first_of(alloc, system, script, lock, last);
    }
    let count = seats.len();
    scope(
        scope_env(),
        rt,
        move |threads| -> (LogSeat<SharedBus>, Option<Vec<Followed>>)
            requires { IsSync R.row × (0 < vec_len seats) × (count ≡ vec_len seats) × (cluster.number.0 ≡ count)
                × (vec_len clusters ≡ vec_len seats) × Starts lock.now (made_of (arc_value system.now) script.now) seat cluster
                × AllFresh lock.now (Some (made_of (arc_value system.now) script.now)) seats.items
                × AllReady (made_of (arc_value system.now) script.now) clusters.items }
            ensures { HoldsFirst lock.entry.now (made_of (arc_value system.entry.now) script.entry.now) (count + 1) result.0
                × IfSome result.1 (λ fs. AllEnded (made_of (arc_value system.entry.now) script.entry.now) (count + 1)
                (seen result.0) fs.items) }
        {
            let ends = Ends {
                system,
                script,
                lock,
                number: count,
            };
            let started = start_thread(
                threads,
                gate,
                cluster.number(),
                ends,
                move || -> (LogSeat<SharedBus>, Option<Followed>)
                    requires { Starts lock.now (made_of (arc_value system.now) script.now) seat cluster }
                    ensures { OneEnded lock.entry.now (made_of (arc_value system.entry.now) script.entry.now) cluster.number.0 result.0 result.1 }
                {
                    follow(
                        rt, alloc, system, script, lock, seat, cluster, gate, sleepers,
                    )
                },
            );
            match started {
                Ok(thread) => {
                    let others = follow_all(
                        rt, alloc, system, script, lock, seats, clusters, gate, sleepers,
                    );
                    let last = thread.join(rt);
                    join_last(system, script, lock, count, others, last)
                }
                Err(refused) => {
                    sleepers.give_up();
                    let last = (refused.value)();
                    let others = follow_all(
                        rt, alloc, system, script, lock, seats, clusters, gate, sleepers,
                    );
                    join_last(system, script, lock, count, others, last)
                }
            }
        },
    )
}

// Takes the last seat and its cluster, which is ready to follow the log.
fn take_last(
    system: &Arc<System>,
    script: &[ScriptWord],
    lock: &LogLock<SharedBus>,
    seats: &mut Vec<LogSeat<SharedBus>>,
    clusters: &mut Vec<Member>,
) -> (LogSeat<SharedBus>, Member)
    requires some { 0 < vec_len seats.old }
    requires each { vec_len clusters.old ≡ vec_len seats.old }
    requires fresh { AllFresh lock.now (Some (made_of (arc_value system.now) script.now)) seats.old.items }
    requires ready { AllReady (made_of (arc_value system.now) script.now) clusters.old.items }
    ensures count { vec_len seats.new + 1 ≡ vec_len seats.old }
    ensures each { vec_len clusters.new ≡ vec_len seats.new }
    ensures fresh { AllFresh lock.now (Some (made_of (arc_value system.now) script.now)) seats.new.items }
    ensures ready { AllReady (made_of (arc_value system.now) script.now) clusters.new.items }
    ensures starts { Starts lock.now (made_of (arc_value system.now) script.now) result.0 result.1 }
    ensures number { result.1.number.0 ≡ vec_len seats.new }
{
    let seat = seats.pop().unwrap();
    let cluster = clusters.pop().unwrap();
    (seat, cluster)
}

// The seat of the first cluster, with that.
fn first_of(
    alloc: Global,
    system: &Arc<System>,
    script: &[ScriptWord],
    lock: &LogLock<SharedBus>,
    first: (LogSeat<SharedBus>, Option<Followed>),
) -> (LogSeat<SharedBus>, Option<Vec<Followed>>)
    requires first { OneEnded lock.now (made_of (arc_value system.now) script.now) 0 first.0 first.1 }
    ensures seat { HoldsFirst lock.now (made_of (arc_value system.now) script.now) 1 result.0 }
    ensures ended { IfSome result.1 (λ fs. AllEnded (made_of (arc_value system.now) script.now) 1 (seen result.0) fs.items) }
{
    let (seat, followed) = first;
    (seat, with_last(Vec::new(alloc), followed))
}

// The seats of the first clusters, joined with that of the next one.
fn join_last(
    system: &Arc<System>,
    script: &[ScriptWord],
    lock: &LogLock<SharedBus>,
    count: usize,
    others: (LogSeat<SharedBus>, Option<Vec<Followed>>),
    last: (LogSeat<SharedBus>, Option<Followed>),
) -> (LogSeat<SharedBus>, Option<Vec<Followed>>)
    requires seat { HoldsFirst lock.now (made_of (arc_value system.now) script.now) count others.0 }
    requires ended { IfSome others.1 (λ fs. AllEnded (made_of (arc_value system.now) script.now) count (seen others.0) fs.items) }
    requires last { OneEnded lock.now (made_of (arc_value system.now) script.now) count last.0 last.1 }
    ensures seat { HoldsFirst lock.now (made_of (arc_value system.now) script.now) (count + 1) result.0 }
    ensures ended { IfSome result.1 (λ fs. AllEnded (made_of (arc_value system.now) script.now) (count + 1) (seen result.0) fs.items) }
{
    let (mut all, clusters) = others;
    let (seat, followed) = last;
    lock.join(&mut all, seat);
    match clusters {
        Some(clusters) => (all, with_last(clusters, followed)),
        None => (all, None),
    }
}

// These clusters, and one more.
fn with_last(clusters: Vec<Followed>, last: Option<Followed>) -> Option<Vec<Followed>>
    ensures { IfSome result (λ all. WithLast clusters.items last all.items) }
{
    let mut all = clusters;
    match all.push(last?) {
        Ok(()) => Some(all),
        Err(_) => None,
    }
}
