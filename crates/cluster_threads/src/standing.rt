//! How a cluster stands at a bus that its thread has for a moment.
ghost use Rattle.std.specs.Prelude.{◌≡◌, ◌<◌, IfOk, OnOk};
ghost use Rattle.bus_order.specs.View.{IsLawful};
ghost use Rattle.cluster_turns.specs.Along.{IsMember, IsSame, IsSound};
ghost use Rattle.cluster_threads.specs.Seated.{StandsAt};
ghost use Rattle.cluster_threads.specs.Steps.{AreStepsLeft, IsStepOf, TakesStep};
ghost use Rattle.cluster_threads.specs.Threads.{HasPast};

use crate::followed::Followed;
use bus_msg::entry::Cause;
use bus_order::bus::Bus;
use cert_sched::script::ScriptWord;
use cluster_run::beginning::begin_lives;
use cluster_turns::offers::{News, news_of};
use std::alloc::Global;
use t32_base::process::ClusterNo;
use t32_base::streams::NoMemory;

/// How a cluster stands: the log is over; or the cluster is off, where the log has this length; or it lives, and this is new to it.
#[derive(Drop)]
pub enum Standing {
    Over,
    Off(u64),
    Lives(Shown),
}

/// What is new in the log for a cluster, and at which of its kernel steps words of the script lose it that are left.
#[derive(Drop)]
pub struct Shown {
    pub news: News,
    pub steps: Vec<u64>,
}

/// How a cluster stands. One that lives begins the lives that it has not begun. After want of memory nothing is said of it.
pub fn stand(
    alloc: Global,
    bus: &Bus,
    script: &[ScriptWord],
    followed: &mut Followed,
) -> Result<Standing, NoMemory>
    requires sound { IsSound bus.now }
    requires lawful { IsLawful bus.now }
    requires script { bus.now.script ≡ script.now }
    requires has { followed.old.cluster.number.0 < bus.now.system.clusters }
    requires member { IsMember bus.now followed.old.cluster.number.0 followed.old.cluster }
    requires past { HasPast bus.now followed.old }
    ensures same { OnOk result (IsSame followed.old.cluster followed.new.cluster) }
    ensures member { OnOk result (IsMember bus.now followed.old.cluster.number.0 followed.new.cluster) }
    ensures past { OnOk result (HasPast bus.now followed.new) }
    ensures stands { IfOk result (λ standing. StandsAt bus.now standing followed.new.cluster) }
{
    let number = followed.cluster.number();
    if bus.is_over() {
        return Ok(Standing::Over);
    }
    if bus.off_at(number).is_some() {
        return Ok(Standing::Off(bus.length()));
    }
    begin_lives(
        bus,
        &mut followed.cluster,
        &mut true,
        &mut followed.past,
        true,
    )?;
    Ok(Standing::Lives(Shown {
        news: news_of(bus, number, followed.cluster.cursor())?,
        steps: steps_left(alloc, bus, script, number)?,
    }))
}

// The kernel steps of a cluster that words of the script name which gave no loss yet.
fn steps_left(
    alloc: Global,
    bus: &Bus,
    script: &[ScriptWord],
    number: ClusterNo,
) -> Result<Vec<u64>, NoMemory>
    requires lawful { IsLawful bus.now }
    requires script { bus.now.script ≡ script.now }
    ensures { IfOk result (λ steps. AreStepsLeft script.now bus.now.log number steps.items) }
{
    let mut steps = Vec::new(alloc);
    for word in script {
        push_left(&mut steps, bus, *word, number)?;
    }
    Ok(steps)
}

// Adds the kernel step of a cluster that a word names, where a word for it is left.
fn push_left(
    steps: &mut Vec<u64>,
    bus: &Bus,
    word: ScriptWord,
    number: ClusterNo,
) -> Result<(), NoMemory>
    ensures { OnOk result (TakesStep bus.now.left number word steps.old.items steps.new.items) }
{
    if let Some(step) = step_of(word, number) {
        if bus.unused(number, Cause::Step(step)) {
            steps.push(step)?;
        }
    }
    Ok(())
}

// The kernel step of a cluster that a word names.
fn step_of(word: ScriptWord, number: ClusterNo) -> Option<u64>
    ensures { IsStepOf number word result }
{
    match word {
        ScriptWord::CrashStep { k, step } => { if k == number { Some(step) } else { None } }
        ScriptWord::CrashAt { .. } | ScriptWord::DiskAt { .. } | ScriptWord::ReturnAt { .. } =>
            None,
    }
}
