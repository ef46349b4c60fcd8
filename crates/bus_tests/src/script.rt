//! A bus with a script: words for places of the log and for steps, in the order in which they are looked at.
ghost use Rattle.std.specs.Prelude.{◌≡◌, [], true, IfOk};
ghost use Rattle.std.specs.Arc.{arc_value};
ghost use Rattle.bus_msg.specs.declared.entry.Cause.TheVariants.{Step};
ghost use Rattle.cert_sched.specs.Losses.{is_scripted_cause};
ghost use Rattle.sys_text.specs.Valid.{is_system};
ghost use Rattle.sys_text.specs.declared.system.System.{System as ASystem};

use bus_msg::entry::{By, Cause, Entry, Post, What};
use bus_order::bus::Bus;
use bus_order::refused::Refused;
use cert_sched::script::ScriptWord;
use std::alloc::Global;
use std::sync::Arc;
use std::test::Fail;
use sys_text::read_system;
use sys_text::system::System;
use t32_base::process::{ClusterNo, End, Pid};
use t32_base::streams::NoMemory;
use test_asserts::same;

// Five clusters, and one root, at home in cluster 0 with its backup in cluster 1.
const FIVE: &str =
    "clusters 5\npager 1 2\nsyncreads 32\nsyncsteps 4096\nimage spin 1\nwords 0000006f\nend\nroot 0 1 quarter spin 1000 0 0\n";

fn five(alloc: Global) -> Result<Arc<System>, Fail>
    ensures { IfOk result (λ shared. is_system (arc_value shared) ≡ true) }
{
    let system = read_system(alloc, FIVE.as_bytes())?;
    Ok(Arc::new(alloc, system)?)
}

// A bus of five clusters with this script.
fn scripted(alloc: Global, script: &[ScriptWord]) -> Result<Bus, Fail>
    ensures clusters { IfOk result (λ b. b.system.clusters ≡ 5) }
    ensures script { IfOk result (λ b. b.script ≡ script.now) }
    ensures log { IfOk result (λ b. b.log ≡ []) }
{
    let system = five(alloc)?;
    same("the clusters", &system.clusters, &5)?;
    Ok(Bus::boot(alloc, &system, script)?)
}

const STEP: Cause = Cause::Step(5);

// What the loss of cluster 0 at its step 5 answers, where a word for it is left.
fn lose(bus: &mut Bus) -> Option<Result<u64, Refused>>
    requires clusters { bus.old.system.clusters ≡ 5 }
    requires may { is_scripted_cause bus.old.system bus.old.script bus.old.log (record { 0 = 0 }) (Step 5) ≡ true }
{
    if bus.unused(ClusterNo(0), STEP) {
        Some(bus.lost(ClusterNo(0), STEP))
    } else {
        None
    }
}

// The post of an exit that a cluster tells of.
fn exit_by(number: ClusterNo) -> Post
    ensures { result.by ≡ By.Cluster number }
{
    Post {
        by: By::Cluster(number),
        what: What::Exit {
            pid: Pid(16),
            at: 10,
            end: End::Exit(0),
        },
    }
}

// What a cluster that has seen nothing is answered, where the log has an entry.
fn post(bus: &mut Bus, by: ClusterNo) -> Option<Result<u64, Refused>> {
    if bus.length() == 0 {
        return None;
    }
    Some(bus.transmit(by, 0, &exit_by(by)))
}

// What the loss answers; whether a word for it is left then, and the length of the log; and what the post is answered.
type Told = (
    Option<Result<u64, Refused>>,
    (bool, u64),
    Option<Result<u64, Refused>>,
);

fn lose_and_post(bus: &mut Bus, by: ClusterNo) -> Told
    requires clusters { bus.old.system.clusters ≡ 5 }
    requires may { is_scripted_cause bus.old.system bus.old.script bus.old.log (record { 0 = 0 }) (Step 5) ≡ true }
{
    let lost = lose(bus);
    let after = (bus.unused(ClusterNo(0), STEP), bus.length());
    (lost, after, post(bus, by))
}

// The number of the cluster that an entry loses.
fn lost_by(entry: Option<&Entry>) -> Option<u8> {
    match &entry?.post.what {
        What::Crash { k, .. } => Some(k.0),
        _ => None,
    }
}

// And of the one that it brings back.
fn back_by(entry: Option<&Entry>) -> Option<u8> {
    match &entry?.post.what {
        What::Return { k } => Some(k.0),
        _ => None,
    }
}

// The clusters that the entries 1 and 2 lose, and those that they bring back.
type Turned = ([Option<u8>; 2], [Option<u8>; 2]);

fn turned_by(bus: &Bus) -> Turned {
    let lost = [lost_by(bus.entry(1)), lost_by(bus.entry(2))];
    let back = [back_by(bus.entry(1)), back_by(bus.entry(2))];
    (lost, back)
}

const NONE_BACK: [Option<u8>; 2] = [None, None];

// These, the length of the log, whether it is over, and whether the end stands last.
type Shown = (Turned, u64, (bool, bool));

fn shown_by(bus: &Bus) -> Shown {
    let turned = turned_by(bus);
    (turned, bus.length(), (bus.is_over(), bus.is_finished()))
}

// The place of a stop, and how many entries stand before an end or a stop.
type Stopped = (Option<u64>, usize);

fn stop(bus: &mut Bus) -> Result<Stopped, NoMemory> {
    let at = bus.stop();
    Ok((at, bus.shared_from(0)?.len()))
}

// What is told of the loss and of a post, what the log then shows, and what a stop does.
type Played = (Told, Shown, Stopped);

fn play(bus: &mut Bus, by: ClusterNo) -> Result<Played, Fail>
    requires clusters { bus.old.system.clusters ≡ 5 }
    requires may { is_scripted_cause bus.old.system bus.old.script bus.old.log (record { 0 = 0 }) (Step 5) ≡ true }
{
    let told = lose_and_post(bus, by);
    let shown = shown_by(bus);
    Ok((told, shown, stop(bus)?))
}

// A bus with a script plays, whose first word loses cluster 0 at its step 5.
fn played(alloc: Global, script: &[ScriptWord], by: ClusterNo) -> Result<Played, Fail>
    requires { (system : ASystem) → is_scripted_cause system script.now [] (record { 0 = 0 }) (Step 5) ≡ true }
{
    let mut bus = scripted(alloc, script)?;
    play(&mut bus, by)
}

static ORDER: [ScriptWord; 3] = [
    ScriptWord::CrashStep {
        k: ClusterNo(0),
        step: 5,
    },
    ScriptWord::CrashAt {
        k: ClusterNo(4),
        place: 1,
    },
    ScriptWord::CrashAt {
        k: ClusterNo(3),
        place: 1,
    },
];

// Both words for the place 1 are looked at when the log has an entry, in the order of the script.
#[test]
fn words_are_looked_at_in_order(rt: HostRuntime) -> Result<(), Fail> {
    let told = (Some(Ok(0)), (false, 1), Some(Err(Refused::Off { at: 2 })));
    let turned = ([Some(4), Some(3)], NONE_BACK);
    let wanted = (told, (turned, 3, (false, false)), (Some(3), 3));
    same(
        "the words",
        &played(rt.alloc(), &ORDER, ClusterNo(3))?,
        &wanted,
    )
}

static ONCE: [ScriptWord; 2] = [
    ScriptWord::CrashStep {
        k: ClusterNo(0),
        step: 5,
    },
    ScriptWord::CrashAt {
        k: ClusterNo(1),
        place: 9,
    },
];

// A word for a step is used once. A word for the place 9 is not reached, and a cluster that has seen nothing is behind.
#[test]
fn a_word_is_used_once(rt: HostRuntime) -> Result<(), Fail> {
    let behind = Some(Err(Refused::Behind { length: 1 }));
    let told = (Some(Ok(0)), (false, 1), behind);
    let turned = ([None, None], NONE_BACK);
    let wanted = (told, (turned, 1, (false, false)), (Some(1), 1));
    same(
        "the words",
        &played(rt.alloc(), &ONCE, ClusterNo(1))?,
        &wanted,
    )
}

static UNCOVERED: [ScriptWord; 3] = [
    ScriptWord::CrashStep {
        k: ClusterNo(0),
        step: 5,
    },
    ScriptWord::CrashAt {
        k: ClusterNo(1),
        place: 1,
    },
    ScriptWord::CrashAt {
        k: ClusterNo(2),
        place: 1,
    },
];

// The process that moved to cluster 1 has no backup there, so that the loss of cluster 1 ends the log.
#[test]
fn an_uncovered_loss_ends_the_log(rt: HostRuntime) -> Result<(), Fail> {
    let told = (Some(Ok(0)), (false, 1), Some(Err(Refused::Over { at: 1 })));
    let turned = ([Some(1), None], NONE_BACK);
    let wanted = (told, (turned, 2, (true, false)), (None, 2));
    same(
        "the words",
        &played(rt.alloc(), &UNCOVERED, ClusterNo(0))?,
        &wanted,
    )
}

static BACK: [ScriptWord; 2] = [
    ScriptWord::CrashStep {
        k: ClusterNo(0),
        step: 5,
    },
    ScriptWord::ReturnAt {
        k: ClusterNo(0),
        place: 1,
    },
];

// Cluster 0 comes back at the place 1, and is not off then: it has not seen the two entries.
#[test]
fn a_lost_cluster_comes_back(rt: HostRuntime) -> Result<(), Fail> {
    let behind = Some(Err(Refused::Behind { length: 2 }));
    let told = (Some(Ok(0)), (false, 1), behind);
    let turned = ([None, None], [Some(0), None]);
    let wanted = (told, (turned, 2, (false, false)), (Some(2), 2));
    same(
        "the words",
        &played(rt.alloc(), &BACK, ClusterNo(0))?,
        &wanted,
    )
}

static LATER: [ScriptWord; 2] = [
    ScriptWord::CrashStep {
        k: ClusterNo(0),
        step: 5,
    },
    ScriptWord::ReturnAt {
        k: ClusterNo(0),
        place: 2,
    },
];

// A word for the place 2 is not reached by a log with one entry, and cluster 0 stays off.
#[test]
fn a_return_is_not_early(rt: HostRuntime) -> Result<(), Fail> {
    let told = (Some(Ok(0)), (false, 1), Some(Err(Refused::Off { at: 0 })));
    let turned = ([None, None], NONE_BACK);
    let wanted = (told, (turned, 1, (false, false)), (Some(1), 1));
    same(
        "the words",
        &played(rt.alloc(), &LATER, ClusterNo(0))?,
        &wanted,
    )
}

static LIVING: [ScriptWord; 3] = [
    ScriptWord::CrashStep {
        k: ClusterNo(0),
        step: 5,
    },
    ScriptWord::ReturnAt {
        k: ClusterNo(3),
        place: 0,
    },
    ScriptWord::CrashAt {
        k: ClusterNo(3),
        place: 1,
    },
];

// The return of cluster 3, which lives, has no effect and is used up: the word behind it loses the cluster, and nothing brings it back.
#[test]
fn a_living_cluster_does_not_come_back(rt: HostRuntime) -> Result<(), Fail> {
    let told = (Some(Ok(0)), (false, 1), Some(Err(Refused::Off { at: 1 })));
    let turned = ([Some(3), None], NONE_BACK);
    let wanted = (told, (turned, 2, (false, false)), (Some(2), 2));
    same(
        "the words",
        &played(rt.alloc(), &LIVING, ClusterNo(3))?,
        &wanted,
    )
}

static AGAIN: [ScriptWord; 4] = [
    ScriptWord::CrashStep {
        k: ClusterNo(0),
        step: 5,
    },
    ScriptWord::CrashAt {
        k: ClusterNo(4),
        place: 1,
    },
    ScriptWord::ReturnAt {
        k: ClusterNo(4),
        place: 1,
    },
    ScriptWord::CrashAt {
        k: ClusterNo(4),
        place: 2,
    },
];

// Cluster 4 is lost, comes back, and is lost again, in one look at the words.
#[test]
fn a_cluster_that_came_back_is_lost_again(rt: HostRuntime) -> Result<(), Fail> {
    let told = (Some(Ok(0)), (false, 1), Some(Err(Refused::Off { at: 3 })));
    let turned = ([Some(4), None], [None, Some(4)]);
    let wanted = (told, (turned, 4, (false, false)), (Some(4), 4));
    same(
        "the words",
        &played(rt.alloc(), &AGAIN, ClusterNo(4))?,
        &wanted,
    )
}
