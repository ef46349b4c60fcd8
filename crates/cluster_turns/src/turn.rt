//! One turn of a cluster, by its port to the bus.
ghost use Rattle.std.specs.Prelude.{◌≡◌, ◌≤◌, ◌<◌, ◌⊎◌, drop, [], None, true, false, is_some, length, IfOk, OnOk};
ghost use Rattle.cluster_core.specs.Calls.{is_resting};
ghost use Rattle.cluster_core.specs.View.{head_of};
ghost use Rattle.cert_sched.specs.Losses.{was_lost_in};
ghost use Rattle.cert_sched.specs.Rules.{is_over};
ghost use Rattle.cluster_turns.specs.Ends.{followed_length};
ghost use Rattle.cluster_turns.specs.Gone.{IsBeforeStep};
ghost use Rattle.cluster_turns.specs.Along.{FailsAtNext, HasTaken, IsAlong, IsDue, IsNamed, IsPosting, IsReadyAt, IsSame, IsShown, IsSound, IsStopped, IsUnnamed, StaysAlive, TakesIn, TakesNext, is_done_with, upto};
ghost use Rattle.cluster_turns.specs.Offers.{Adds, HasGrown, IsToldBy};
ghost use Rattle.cluster_turns.specs.Progress.{HasAnswered, IsOver};
ghost use Rattle.cluster_turns.specs.Turns.{EndsAs, GoesOwn, HasSent, HasTold, LosesOwn, OffersHead, SendsAll, StandsAs, TellsOwn, TriesAs, TriesOwn, TurnsOwn};

use crate::member::Member;
use crate::offers::{Offered, loses};
use crate::port::Port;
use bus_order::marks::Mark;
use cluster_core::hurt::Hurt;
use cluster_core::worked::Worked;
use t32_base::streams::NoMemory;

/// How a turn ended: a process moved, and what the cluster sent is in the log; or a process waits for a page, and none can
/// move; or nothing can move in the cluster; or the
/// log is over, and the cluster has taken in all of it but the last entry, or it was lost at a place, and has taken in all
/// that stands before; or it was lost before a kernel step or by its disk, and stopped there.
#[derive(Clone, Copy, PartialEq, Eq, Debug)]
pub enum Turn {
    Moved,
    Waits,
    Rests,
    Over,
    Lost,
}

/// What became of the head of a cluster: the cluster goes on, or its turn is over as `Turn` says.
#[derive(Clone, Copy, PartialEq, Eq, Debug)]
pub enum Tried {
    On,
    Over,
    Lost,
}

/// One turn of a cluster: it takes in what is new, does the next thing, and sends what that gave; where nothing can
/// move in it and none waits for a page, it tells so. Before each kernel step the script is asked whether the cluster is lost there;
/// if so its loss is added, and the turn ends. So it does where a call of its disk fails, or failed at its start. After want of
/// memory nothing is said of the cluster.
pub fn take_turn<P: Port>(port: &mut P, cluster: &mut Member) -> Result<Turn, NoMemory>
    requires sits { P.sits cluster.old.number port.old }
    requires due { IsDue (P.shows port.old) (P.from port.old) (P.bus port.old) cluster.old }
    requires empty { cluster.old.queue ≡ [] }
    ensures root { P.root port.new ≡ P.root port.old }
    ensures sits { P.sits cluster.old.number port.new }
    ensures same { OnOk result (IsSame cluster.old cluster.new) }
    ensures grows { OnOk result (HasGrown (P.bus port.old) (P.bus port.new)) }
    ensures life { OnOk result (StaysAlive cluster.old.number (P.bus port.new).log cluster.old.cursor cluster.new.cursor) }
    ensures stands { IfOk result (λ turn. StandsAs (P.shows port.new) (P.from port.new) turn (P.bus port.new) cluster.new) }
    ensures ends { IfOk result (λ turn. EndsAs P.alone turn (P.bus port.new) cluster.new) }
    ensures own { OnOk result (P.alone ≡ true → GoesOwn (P.bus port.old) → was_lost_in (drop cluster.old.cursor (P.bus port.old).log) cluster.old.number ≡ false → TurnsOwn (P.bus port.old) (P.bus port.new) cluster.old cluster.new) }
{
    if cluster.failed().is_some() {
        port.lose(cluster)?;
        return Ok(Turn::Lost);
    }
    go_on(port, cluster)
}

// The turn of a cluster of whose disk no call failed.
fn go_on<P: Port>(port: &mut P, cluster: &mut Member) -> Result<Turn, NoMemory>
    requires sits { P.sits cluster.old.number port.old }
    requires shown { IsShown (P.shows port.old) (P.from port.old) (P.bus port.old) cluster.old }
    requires empty { cluster.old.queue ≡ [] }
    ensures root { P.root port.new ≡ P.root port.old }
    ensures sits { P.sits cluster.old.number port.new }
    ensures same { OnOk result (IsSame cluster.old cluster.new) }
    ensures grows { OnOk result (HasGrown (P.bus port.old) (P.bus port.new)) }
    ensures life { OnOk result (StaysAlive cluster.old.number (P.bus port.new).log cluster.old.cursor cluster.new.cursor) }
    ensures stands { IfOk result (λ turn. StandsAs (P.shows port.new) (P.from port.new) turn (P.bus port.new) cluster.new) }
    ensures ends { IfOk result (λ turn. EndsAs P.alone turn (P.bus port.new) cluster.new) }
    ensures own { OnOk result (P.alone ≡ true → GoesOwn (P.bus port.old) → was_lost_in (drop cluster.old.cursor (P.bus port.old).log) cluster.old.number ≡ false → TurnsOwn (P.bus port.old) (P.bus port.new) cluster.old cluster.new) }
{
    if catch_up(port, cluster)? {
        return Ok(Turn::Lost);
    }
    if is_done(port, cluster) {
        return Ok(Turn::Over);
    }
    if is_named(port, cluster) {
        port.lose(cluster)?;
        return Ok(Turn::Lost);
    }
    act(port, cluster)
}

// Whether a cluster that has taken in what its port shows has done with it: the log is over, or the cluster was lost at its cursor.
fn is_done<P: Port>(port: &P, cluster: &Member) -> bool
    requires shown { IsShown (P.shows port.now) (P.from port.now) (P.bus port.now) cluster.now }
    requires caught { cluster.now.cursor ≡ upto cluster.now.number (P.bus port.now).system (P.bus port.now).log cluster.now.cursor }
    ensures { result ≡ is_done_with cluster.now.number (P.bus port.now).system (P.bus port.now).log cluster.now.cursor }
{
    port.has_ended() || cluster.cursor() < port.followed()
}

// Does the next thing in a cluster that has seen all of a log that goes on, and sends what that gave.
fn act<P: Port>(port: &mut P, cluster: &mut Member) -> Result<Turn, NoMemory>
    requires sits { P.sits cluster.old.number port.old }
    requires shown { IsShown (P.shows port.old) (P.from port.old) (P.bus port.old) cluster.old }
    requires seen { cluster.old.cursor ≡ length (P.bus port.old).log }
    requires goes_on { is_over (P.bus port.old).system (P.bus port.old).log ≡ false }
    requires unnamed { IsUnnamed (P.bus port.old) cluster.old }
    requires empty { cluster.old.queue ≡ [] }
    ensures root { P.root port.new ≡ P.root port.old }
    ensures sits { P.sits cluster.old.number port.new }
    ensures same { OnOk result (IsSame cluster.old cluster.new) }
    ensures grows { OnOk result (HasGrown (P.bus port.old) (P.bus port.new)) }
    ensures life { OnOk result (StaysAlive cluster.old.number (P.bus port.new).log cluster.old.cursor cluster.new.cursor) }
    ensures stands { IfOk result (λ turn. StandsAs (P.shows port.new) (P.from port.new) turn (P.bus port.new) cluster.new) }
    ensures ends { IfOk result (λ turn. EndsAs P.alone turn (P.bus port.new) cluster.new) }
    ensures own { OnOk result (P.alone ≡ true → GoesOwn (P.bus port.old) → TurnsOwn (P.bus port.old) (P.bus port.new) cluster.old cluster.new) }
{
    match cluster.work() {
        Ok(Worked::Moved) => Ok(Turn::Moved),
        Ok(Worked::Queued) => send(port, cluster),
        Ok(Worked::Rests) => {
            tell(port, cluster)?;
            Ok(Turn::Rests)
        }
        Ok(Worked::Waits) => Ok(Turn::Waits),
        Err(Hurt::Disk(_)) => {
            port.lose(cluster)?;
            Ok(Turn::Lost)
        }
        Err(Hurt::NoMemory) => Err(NoMemory),
    }
}

// Whether a word of the script names the next kernel step of a cluster.
fn is_named<P: Port>(port: &P, cluster: &Member) -> bool
    requires sits { P.sits cluster.now.number port.now }
    requires shows { P.shows port.now }
    requires sound { IsSound (P.bus port.now) }
    requires before { IsBeforeStep (P.bus port.now) cluster.now }
    requires unfailed { cluster.now.failed ≡ None }
    ensures named { result ≡ true → IsNamed (P.bus port.now) cluster.now }
    ensures unnamed { result ≡ false → IsUnnamed (P.bus port.now) cluster.now }
{
    cluster.steps() < u64::MAX && port.names_step(cluster)
}

/// Looks for what is new, and takes it in. Answers whether the cluster was lost before a step, or by its disk: it has stopped then. After
/// want of memory nothing is said of it.
pub fn catch_up<P: Port>(port: &mut P, cluster: &mut Member) -> Result<bool, NoMemory>
    requires sits { P.sits cluster.old.number port.old }
    requires shown { IsShown (P.shows port.old) (P.from port.old) (P.bus port.old) cluster.old }
    ensures root { P.root port.new ≡ P.root port.old }
    ensures sits { P.sits cluster.old.number port.new }
    ensures same { OnOk result (IsSame cluster.old cluster.new) }
    ensures grows { OnOk result (HasGrown (P.bus port.old) (P.bus port.new)) }
    ensures life { OnOk result (StaysAlive cluster.old.number (P.bus port.new).log cluster.old.cursor cluster.new.cursor) }
    ensures taken { IfOk result (λ lost. lost ≡ false → HasTaken (P.shows port.new) (P.from port.new) (P.bus port.new) cluster.old cluster.new) }
    ensures stopped { IfOk result (λ lost. lost ≡ true → IsStopped (P.bus port.new) cluster.new) }
    ensures kept { IfOk result (λ lost. lost ≡ false → P.alone ≡ true → P.bus port.new ≡ P.bus port.old) }
    ensures own { IfOk result (λ lost. lost ≡ true → P.alone ≡ true → GoesOwn (P.bus port.old) → was_lost_in (drop cluster.old.cursor (P.bus port.old).log) cluster.old.number ≡ false → LosesOwn cluster.old.number cluster.new.cursor (P.bus port.old) (P.bus port.new)) }
{
    port.look(cluster)?;
    take_in(port, cluster)
}

// Takes in all that a port shows. Answers whether the cluster was lost before a step, or by its disk.
fn take_in<P: Port>(port: &mut P, cluster: &mut Member) -> Result<bool, NoMemory>
    requires sits { P.sits cluster.old.number port.old }
    requires shown { IsShown (P.shows port.old) (P.from port.old) (P.bus port.old) cluster.old }
    ensures root { P.root port.new ≡ P.root port.old }
    ensures sits { P.sits cluster.old.number port.new }
    ensures same { OnOk result (IsSame cluster.old cluster.new) }
    ensures grows { OnOk result (HasGrown (P.bus port.old) (P.bus port.new)) }
    ensures life { OnOk result (StaysAlive cluster.old.number (P.bus port.new).log cluster.old.cursor cluster.new.cursor) }
    ensures taken { IfOk result (λ lost. lost ≡ false → HasTaken (P.shows port.new) (P.from port.new) (P.bus port.new) cluster.old cluster.new) }
    ensures stopped { IfOk result (λ lost. lost ≡ true → IsStopped (P.bus port.new) cluster.new) }
    ensures kept { IfOk result (λ lost. lost ≡ false → P.bus port.new ≡ P.bus port.old) }
    ensures ended { IfOk result (λ lost. P.alone ≡ true → IsOver (P.bus port.old) ⊎ (was_lost_in (drop cluster.old.cursor (P.bus port.old).log) cluster.old.number ≡ true) → P.bus port.new ≡ P.bus port.old) }
    ensures lost { OnOk result (was_lost_in (drop cluster.new.cursor (P.bus port.old).log) cluster.new.number ≡ was_lost_in (drop cluster.old.cursor (P.bus port.old).log) cluster.old.number) }
    ensures own { IfOk result (λ lost. lost ≡ true → P.alone ≡ true → GoesOwn (P.bus port.old) → was_lost_in (drop cluster.old.cursor (P.bus port.old).log) cluster.old.number ≡ false → LosesOwn cluster.old.number cluster.new.cursor (P.bus port.old) (P.bus port.new)) }
{
    if take_unnamed(port, cluster)? {
        port.lose(cluster)?;
        return Ok(true);
    }
    Ok(false)
}

/// Takes in what a port shows, up to a step that a word of the script names, or to an entry at which a call of its disk fails. Answers
/// whether it came to one: the cluster is to be lost then.
pub fn take_unnamed<P: Port>(port: &P, cluster: &mut Member) -> Result<bool, NoMemory>
    requires sits { P.sits cluster.old.number port.now }
    requires shown { IsShown (P.shows port.now) (P.from port.now) (P.bus port.now) cluster.old }
    ensures same { OnOk result (IsSame cluster.old cluster.new) }
    ensures life { OnOk result (StaysAlive cluster.old.number (P.bus port.now).log cluster.old.cursor cluster.new.cursor) }
    ensures taken { IfOk result (λ stops. stops ≡ false → TakesIn (P.bus port.now) cluster.old cluster.new) }
    ensures caught { IfOk result (λ stops. stops ≡ false → cluster.new.cursor ≡ upto cluster.new.number (P.bus port.now).system (P.bus port.now).log cluster.new.cursor) }
    ensures before { IfOk result (λ stops. stops ≡ true → IsBeforeStep (P.bus port.now) cluster.new) }
    ensures named { IfOk result (λ stops. stops ≡ true → IsNamed (P.bus port.now) cluster.new) }
{
    let upto = port.followed();
    'entries: while cluster.cursor() < upto {
        if is_lost_next(port, cluster) {
            return Ok(false);
        }
        if is_named(port, cluster) {
            return Ok(true);
        }
        if take_next(port, cluster)? {
            return Ok(true);
        }
    }
    Ok(false)
}

// Whether the entry at its cursor loses a cluster.
fn is_lost_next<P: Port>(port: &P, cluster: &Member) -> bool
    requires shows { P.shows port.now }
    requires from { P.from port.now ≤ cluster.now.cursor }
    requires sound { IsSound (P.bus port.now) }
    requires along { IsAlong (P.bus port.now) cluster.now }
    requires within { cluster.now.cursor < followed_length (P.bus port.now).system (P.bus port.now).log }
    ensures lost { result ≡ true → cluster.now.cursor ≡ upto cluster.now.number (P.bus port.now).system (P.bus port.now).log cluster.now.cursor }
    ensures lives { result ≡ false → cluster.now.cursor < upto cluster.now.number (P.bus port.now).system (P.bus port.now).log cluster.now.cursor }
{
    loses(port.shown(cluster.cursor()), cluster.number())
}

// Takes in the entry at the cursor. Answers whether a call of its disk failed at that.
#[inline(always)]
fn take_next<P: Port>(port: &P, cluster: &mut Member) -> Result<bool, NoMemory>
    requires shows { P.shows port.now }
    requires from { P.from port.now ≤ cluster.old.cursor }
    requires sound { IsSound (P.bus port.now) }
    requires ready { IsReadyAt (P.bus port.now).log cluster.old }
    ensures taken { IfOk result (λ failed. failed ≡ false → TakesNext (P.bus port.now).log cluster.old cluster.new) }
    ensures failed { IfOk result (λ failed. failed ≡ true → FailsAtNext (P.bus port.now).log cluster.old cluster.new) }
{
    match cluster.absorb(port.shown(cluster.cursor())) {
        Ok(()) => Ok(false),
        Err(Hurt::Disk(_)) => Ok(true),
        Err(Hurt::NoMemory) => Err(NoMemory),
    }
}

// Sends the posts of a cluster, and takes in what is new.
fn send<P: Port>(port: &mut P, cluster: &mut Member) -> Result<Turn, NoMemory>
    requires sits { P.sits cluster.old.number port.old }
    requires posting { IsPosting (P.shows port.old) (P.from port.old) (P.bus port.old) cluster.old }
    ensures root { P.root port.new ≡ P.root port.old }
    ensures sits { P.sits cluster.old.number port.new }
    ensures same { OnOk result (IsSame cluster.old cluster.new) }
    ensures grows { OnOk result (HasGrown (P.bus port.old) (P.bus port.new)) }
    ensures life { OnOk result (StaysAlive cluster.old.number (P.bus port.new).log cluster.old.cursor cluster.new.cursor) }
    ensures stands { IfOk result (λ turn. StandsAs (P.shows port.new) (P.from port.new) turn (P.bus port.new) cluster.new) }
    ensures ends { IfOk result (λ turn. EndsAs P.alone turn (P.bus port.new) cluster.new) }
    ensures own { OnOk result (P.alone ≡ true → GoesOwn (P.bus port.old) → SendsAll (P.bus port.old) (P.bus port.new) cluster.old cluster.new) }
{
    'posts: while cluster.head().is_some() {
        match send_head(port, cluster)? {
            Tried::On => (),
            Tried::Over => return Ok(Turn::Over),
            Tried::Lost => return Ok(Turn::Lost),
        }
    }
    Ok(Turn::Moved)
}

// Sends the head of the queue where the cluster has seen all of the log, and takes in what is new.
fn send_head<P: Port>(port: &mut P, cluster: &mut Member) -> Result<Tried, NoMemory>
    requires sits { P.sits cluster.old.number port.old }
    requires posting { IsPosting (P.shows port.old) (P.from port.old) (P.bus port.old) cluster.old }
    requires head { is_some (head_of cluster.old.queue) ≡ true }
    ensures root { P.root port.new ≡ P.root port.old }
    ensures sits { P.sits cluster.old.number port.new }
    ensures same { OnOk result (IsSame cluster.old cluster.new) }
    ensures grows { OnOk result (HasGrown (P.bus port.old) (P.bus port.new)) }
    ensures life { OnOk result (StaysAlive cluster.old.number (P.bus port.new).log cluster.old.cursor cluster.new.cursor) }
    ensures tries { IfOk result (λ tried. TriesAs P.alone (P.shows port.new) (P.from port.new) tried (P.bus port.old) (P.bus port.new) cluster.new) }
    ensures own { IfOk result (λ tried. P.alone ≡ true → GoesOwn (P.bus port.old) → TriesOwn cluster.old.number cluster.new.cursor tried (P.bus port.old) (P.bus port.new)) }
{
    if is_named(port, cluster) {
        port.lose(cluster)?;
        return Ok(Tried::Lost);
    }
    cluster.tried();
    try_head(port, cluster)
}

// The same for a head that was tried.
fn try_head<P: Port>(port: &mut P, cluster: &mut Member) -> Result<Tried, NoMemory>
    requires sits { P.sits cluster.old.number port.old }
    requires posting { IsPosting (P.shows port.old) (P.from port.old) (P.bus port.old) cluster.old }
    requires head { is_some (head_of cluster.old.queue) ≡ true }
    requires tried { cluster.old.tried ≡ true }
    ensures root { P.root port.new ≡ P.root port.old }
    ensures sits { P.sits cluster.old.number port.new }
    ensures same { OnOk result (IsSame cluster.old cluster.new) }
    ensures grows { OnOk result (HasGrown (P.bus port.old) (P.bus port.new)) }
    ensures life { OnOk result (StaysAlive cluster.old.number (P.bus port.new).log cluster.old.cursor cluster.new.cursor) }
    ensures tries { IfOk result (λ tried. TriesAs P.alone (P.shows port.new) (P.from port.new) tried (P.bus port.old) (P.bus port.new) cluster.new) }
    ensures own { IfOk result (λ tried. P.alone ≡ true → GoesOwn (P.bus port.old) → TriesOwn cluster.old.number cluster.new.cursor tried (P.bus port.old) (P.bus port.new)) }
{
    match offer_head(port, cluster)? {
        Offered::Sent => {
            if take_sent(port, cluster)? {
                return Ok(Tried::Lost);
            }
            Ok(Tried::On)
        }
        Offered::Behind => {
            if take_in(port, cluster)? {
                return Ok(Tried::Lost);
            }
            Ok(Tried::On)
        }
        Offered::Over => {
            if take_in(port, cluster)? {
                return Ok(Tried::Lost);
            }
            Ok(Tried::Over)
        }
        Offered::Off => {
            if take_in(port, cluster)? {
                return Ok(Tried::Lost);
            }
            Ok(Tried::Over)
        }
    }
}

// Takes in the entry that the head of the queue became. Answers whether the cluster was lost before that, or by its disk at that.
fn take_sent<P: Port>(port: &mut P, cluster: &mut Member) -> Result<bool, NoMemory>
    requires sits { P.sits cluster.old.number port.old }
    requires shows { P.shows port.old }
    requires from { P.from port.old ≤ cluster.old.cursor }
    requires sound { IsSound (P.bus port.old) }
    requires sent { HasSent (P.bus port.old) cluster.old }
    ensures root { P.root port.new ≡ P.root port.old }
    ensures sits { P.sits cluster.old.number port.new }
    ensures same { OnOk result (IsSame cluster.old cluster.new) }
    ensures grows { OnOk result (HasGrown (P.bus port.old) (P.bus port.new)) }
    ensures life { OnOk result (StaysAlive cluster.old.number (P.bus port.new).log cluster.old.cursor cluster.new.cursor) }
    ensures posting { IfOk result (λ lost. lost ≡ false → IsPosting (P.shows port.new) (P.from port.new) (P.bus port.new) cluster.new) }
    ensures stopped { IfOk result (λ lost. lost ≡ true → IsStopped (P.bus port.new) cluster.new) }
    ensures kept { IfOk result (λ lost. lost ≡ false → P.bus port.new ≡ P.bus port.old) }
    ensures own { IfOk result (λ lost. lost ≡ true → P.alone ≡ true → GoesOwn (P.bus port.old) → LosesOwn cluster.old.number cluster.new.cursor (P.bus port.old) (P.bus port.new)) }
{
    cluster.sent();
    if is_named(port, cluster) {
        port.lose(cluster)?;
        return Ok(true);
    }
    if take_next(port, cluster)? {
        port.lose(cluster)?;
        return Ok(true);
    }
    Ok(false)
}

// Offers the head of the queue of a cluster.
fn offer_head<P: Port>(port: &mut P, cluster: &Member) -> Result<Offered, NoMemory>
    requires sits { P.sits cluster.now.number port.old }
    requires posting { IsPosting (P.shows port.old) (P.from port.old) (P.bus port.old) cluster.now }
    requires head { is_some (head_of cluster.now.queue) ≡ true }
    requires tried { cluster.now.tried ≡ true }
    ensures root { P.root port.new ≡ P.root port.old }
    ensures sits { P.sits cluster.now.number port.new }
    ensures shows { OnOk result (P.shows port.new) }
    ensures from { OnOk result (P.from port.new ≤ cluster.now.cursor) }
    ensures sound { OnOk result (IsSound (P.bus port.new)) }
    ensures grows { HasGrown (P.bus port.old) (P.bus port.new) }
    ensures adds { P.alone ≡ true → Adds cluster.now.number (P.bus port.old) (P.bus port.new) }
    ensures offered { IfOk result (λ offered. OffersHead P.alone cluster.now (P.bus port.old) (P.bus port.new) offered) }
{
    let Some(post) = cluster.head() else {
        unreachable!();
    };
    port.offer(cluster, post)
}

// Tells that nothing can move in a cluster.
fn tell<P: Port>(port: &mut P, cluster: &Member) -> Result<(), NoMemory>
    requires sits { P.sits cluster.now.number port.old }
    requires shown { IsShown (P.shows port.old) (P.from port.old) (P.bus port.old) cluster.now }
    requires empty { cluster.now.queue ≡ [] }
    requires resting { is_resting cluster.now ≡ true }
    requires answered { HasAnswered (P.bus port.old) cluster.now.number.0 }
    ensures root { P.root port.new ≡ P.root port.old }
    ensures sits { P.sits cluster.now.number port.new }
    ensures shown { OnOk result (IsShown (P.shows port.new) (P.from port.new) (P.bus port.new) cluster.now) }
    ensures grows { OnOk result (HasGrown (P.bus port.old) (P.bus port.new)) }
    ensures told { OnOk result (HasTold P.alone cluster.now (P.bus port.new)) }
    ensures own { OnOk result (P.alone ≡ true → GoesOwn (P.bus port.old) → cluster.now.cursor ≡ length (P.bus port.old).log → TellsOwn cluster.now.number (P.bus port.old) (P.bus port.new)) }
{
    let mark = mark_of(cluster)?;
    port.tell(cluster, mark)?;
    Ok(())
}

// What a cluster in which nothing can move tells of itself.
fn mark_of(cluster: &Member) -> Result<Mark, NoMemory>
    requires empty { cluster.now.queue ≡ [] }
    requires resting { is_resting cluster.now ≡ true }
    ensures { IfOk result (IsToldBy cluster.now) }
{
    let Some(rests) = cluster.rests()? else {
        unreachable!();
    };
    Ok(Mark {
        rests,
        steps: cluster.steps(),
        calls: cluster.disk_calls(),
    })
}
