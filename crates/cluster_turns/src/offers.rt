//! What a cluster does with a bus that it has for a moment: it looks for what is new, offers its post, tells that nothing
//! can move in it, or is lost.
ghost use Rattle.std.specs.Prelude.{◌≡◌, ◌≤◌, ◌⊎◌, IfOk, OnOk, Some, true, false, drop, length};
ghost use Rattle.bus_msg.specs.PlacedAfter.{what};
ghost use Rattle.cert_sched.specs.Losses.{is_crash_of, was_lost_in};
ghost use Rattle.bus_order.specs.Log.{open_length};
ghost use Rattle.bus_order.specs.Script.{has_unused};
ghost use Rattle.bus_order.specs.View.{IsLawful, Loses};
ghost use Rattle.cluster_core.specs.View.{head_of};
ghost use Rattle.cluster_turns.specs.Ends.{ends_lost, followed_length};
ghost use Rattle.cluster_turns.specs.Lives.{is_lost_at};
ghost use Rattle.cluster_turns.specs.Gone.{IsBeforeStep, own_cause};
ghost use Rattle.cluster_turns.specs.Along.{IsAlong, IsNamed, IsSound, IsStopped};
ghost use Rattle.cluster_turns.specs.Progress.{IsOver};
ghost use Rattle.cluster_turns.specs.Turns.{GoesOwn, LosesOwn};
ghost use Rattle.cluster_turns.specs.Offers.{Adds, IfLost, IsNews, IsToldBy, OfferAnswers, OfferIs, TellAnswers, TellIs};

use crate::member::Member;
use crate::port::Port;
use bus_msg::entry::{Cause, Entry, Post, What};
use bus_order::bus::Bus;
use bus_order::marks::{Idled, Mark};
use bus_order::refused::Refused;
use std::alloc::Global;
use std::sync::Arc;
use t32_base::letter::To;
use t32_base::process::ClusterNo;
use t32_base::streams::NoMemory;

/// What is new in a log for a cluster: handles of its entries from a place on, without the end or the stop that may stand
/// last; how many of its entries a cluster that lives follows; and whether it is over.
#[derive(Drop)]
pub struct News {
    pub number: ClusterNo,
    pub from: u64,
    pub upto: u64,
    pub entries: Vec<Arc<Entry>>,
    pub is_over: bool,
}

/// What became of a post: it was sent; or the cluster had not seen all of the log; or the log was over; or the cluster
/// was lost in what it had not seen, also where it has come back since.
#[derive(Clone, Copy, PartialEq, Eq, Debug)]
pub enum Offered {
    Sent,
    Behind,
    Over,
    Off,
}

/// What is new for a cluster in the log of a bus from a place on.
pub fn news_of(bus: &Bus, number: ClusterNo, from: u64) -> Result<News, NoMemory>
    requires { from ≤ open_length bus.now.log }
    ensures news { IfOk result (IsNews bus.now.system bus.now.log) }
    ensures number { IfOk result (λ news. news.number ≡ number) }
    ensures from { IfOk result (λ news. news.from ≡ from) }
{
    Ok(News {
        number,
        from,
        upto: followed_length(bus),
        entries: bus.shared_from(from)?,
        is_over: bus.is_over(),
    })
}

/// How many entries of a log a cluster that lives follows: all, but the last where the log is over.
pub fn followed_length(bus: &Bus) -> u64
    ensures { result ≡ followed_length bus.now.system bus.now.log }
{
    if bus.is_over() {
        bus.length() - 1
    } else {
        bus.length()
    }
}

/// Whether an entry loses a cluster.
pub fn loses(entry: &Entry, number: ClusterNo) -> bool
    ensures { result ≡ is_crash_of number (what entry.now) }
{
    match entry.post.what {
        What::Crash { k, .. } => k == number,
        _ => false,
    }
}

/// Whether an entry of a log from a place on loses a cluster.
pub fn was_lost_from(bus: &Bus, number: ClusterNo, from: u64) -> bool
    requires { from ≤ length bus.now.log }
    ensures lost { result ≡ was_lost_in (drop from bus.now.log) number }
    ensures lawful { IsLawful bus.now }
{
    for place in from..bus.length() {
        if is_lost_at(bus, number, place) {
            return true;
        }
    }
    false
}

// Whether the entry at a place loses a cluster.
fn is_lost_at(bus: &Bus, number: ClusterNo, place: u64) -> bool
    ensures { result ≡ is_lost_at bus.now.log number place }
{
    match bus.entry(place) {
        Some(entry) => loses(entry, number),
        None => false,
    }
}

/// Whether a loss that is not covered stands last: the run has ended by it.
pub fn ends_lost(bus: &Bus) -> bool
    ensures { result ≡ ends_lost bus.now.system bus.now.log }
{
    bus.is_over() && bus.length_without_end() == bus.length()
}

/// Offers the head of a cluster.
pub fn offer_to(bus: &mut Bus, cluster: &Member, post: &Post) -> Result<Offered, NoMemory>
    requires sound { IsSound bus.old }
    requires along { IsAlong bus.old cluster.now }
    requires head { head_of cluster.now.queue ≡ Some post.now }
    ensures adds { Adds cluster.now.number bus.old bus.new }
    ensures sound { IsSound bus.new }
    ensures lawful { IsLawful bus.new }
    ensures offered { IfOk result (λ offered. OfferIs cluster.now.number cluster.now.cursor post.now offered bus.old bus.new) }
{
    match transmit_for(bus, cluster, post) {
        Ok(_) => Ok(Offered::Sent),
        Err(Refused::Behind { .. }) => Ok(behind_or_off(bus, cluster)),
        Err(Refused::Over { .. }) => Ok(Offered::Over),
        Err(Refused::Off { .. }) => Ok(Offered::Off),
        Err(Refused::NoMemory) => Err(NoMemory),
    }
}

// Whether a cluster that had not seen all of a log was lost in what it had not seen.
fn behind_or_off(bus: &Bus, cluster: &Member) -> Offered
    requires { cluster.now.cursor ≤ length bus.now.log }
    ensures { IfLost (was_lost_in (drop cluster.now.cursor bus.now.log) cluster.now.number) result }
{
    if was_lost_from(bus, cluster.number(), cluster.cursor()) {
        Offered::Off
    } else {
        Offered::Behind
    }
}

/// The cluster that a post lets go on: the home of the process that a letter or a page is for, and the page server that
/// answers a fetch. No clause rests on it.
pub fn receiver_of(bus: &Bus, post: &Post) -> Option<ClusterNo> {
    match &post.what {
        What::Mail { letter, .. } => match letter.to {
            To::Proc(pid, _) => bus.places().home(pid),
            To::Tty(_) => None,
        },
        What::Fetch { .. } => bus.places().first_server(),
        What::PageIs { pid, .. } => bus.places().home(*pid),
        What::Birth { .. }
        | What::Exit { .. }
        | What::Page { .. }
        | What::Sync { .. }
        | What::Crash { .. }
        | What::Return { .. }
        | What::Rebackup { .. }
        | What::Done { .. }
        | What::Stop => None,
    }
}

/// Tells a bus that nothing can move in a cluster, and answers what the bus made of it: None where the log was over,
/// the cluster was lost, or it had not seen all of the log.
pub fn tell_to(bus: &mut Bus, cluster: &Member, mark: Mark) -> Result<Option<Idled>, NoMemory>
    requires sound { IsSound bus.old }
    requires along { IsAlong bus.old cluster.now }
    requires told { IsToldBy cluster.now mark }
    ensures adds { Adds cluster.now.number bus.old bus.new }
    ensures sound { IsSound bus.new }
    ensures lawful { IsLawful bus.new }
    ensures told { IfOk result (λ told. TellIs cluster.now.number cluster.now.cursor mark told bus.old bus.new) }
{
    match idle_for(bus, cluster, mark) {
        Ok(idled) => Ok(Some(idled)),
        Err(Refused::Behind { .. }) => Ok(None),
        Err(Refused::Over { .. } | Refused::Off { .. }) => Ok(None),
        Err(Refused::NoMemory) => Err(NoMemory),
    }
}

/// Loses a cluster directly before its next kernel step, or by the call of its disk that failed, which a word of the script
/// names. Where a loss of it stands in the log already, at a place that it has not taken in, nothing is added, also where it has come back since; nor where the run has ended by a loss that is not
/// covered: it stops then as it stands. A log that has ended otherwise loses no cluster: each that lives has taken in all of it, or the run has met want of memory.
pub fn lose_at(bus: &mut Bus, cluster: &Member) -> Result<(), NoMemory>
    requires sound { IsSound bus.old }
    requires before { IsBeforeStep bus.old cluster.now }
    requires named { IsNamed bus.old cluster.now }
    ensures adds { Adds cluster.now.number bus.old bus.new }
    ensures sound { IsSound bus.new }
    ensures lawful { IsLawful bus.new }
    ensures stopped { OnOk result (IsStopped bus.new cluster.now) }
    ensures kept { OnOk result (IsOver bus.old ⊎ (was_lost_in (drop cluster.now.cursor bus.old.log) cluster.now.number ≡ true) → bus.new ≡ bus.old) }
    ensures own { OnOk result (GoesOwn bus.old → was_lost_in (drop cluster.now.cursor bus.old.log) cluster.now.number ≡ false → LosesOwn cluster.now.number cluster.now.cursor bus.old bus.new) }
{
    if was_lost_from(bus, cluster.number(), cluster.cursor()) {
        return Ok(());
    }
    if ends_lost(bus) {
        return Ok(());
    }
    match lost_for(bus, cluster) {
        Ok(_) => Ok(()),
        Err(_) => Err(NoMemory),
    }
}

// Loses a cluster at its next kernel step, or at the call of its disk that failed.
fn lost_for(bus: &mut Bus, cluster: &Member) -> Result<u64, Refused>
    requires lawful { IsLawful bus.old }
    requires sound { IsSound bus.old }
    requires before { IsBeforeStep bus.old cluster.now }
    requires named { IsNamed bus.old cluster.now }
    ensures adds { Adds cluster.now.number bus.old bus.new }
    ensures sound { IsSound bus.new }
    ensures lawful { IsLawful bus.new }
    ensures unused { has_unused bus.old.left cluster.now.number (own_cause cluster.now) ≡ true }
    ensures loses { Loses bus.old cluster.now.number (own_cause cluster.now) result bus.new }
{
    bus.lost(cluster.number(), own_cause(cluster))
}

// By what a cluster is lost that a word of the script names.
fn own_cause(cluster: &Member) -> Cause
    ensures { result ≡ own_cause cluster.now }
{
    match cluster.failed() {
        Some(call) => Cause::Disk(call),
        None => Cause::Step(cluster.steps()),
    }
}

// Transmits the head of a cluster.
fn transmit_for(bus: &mut Bus, cluster: &Member, post: &Post) -> Result<u64, Refused>
    requires sound { IsSound bus.old }
    requires along { IsAlong bus.old cluster.now }
    requires head { head_of cluster.now.queue ≡ Some post.now }
    ensures adds { Adds cluster.now.number bus.old bus.new }
    ensures sound { IsSound bus.new }
    ensures lawful { IsLawful bus.new }
    ensures answers { OfferAnswers cluster.now.number cluster.now.cursor post.now result bus.old bus.new }
{
    bus.transmit(cluster.number(), cluster.cursor(), post)
}

// Marks a cluster in which nothing can move.
fn idle_for(bus: &mut Bus, cluster: &Member, mark: Mark) -> Result<Idled, Refused>
    requires sound { IsSound bus.old }
    requires along { IsAlong bus.old cluster.now }
    requires told { IsToldBy cluster.now mark }
    ensures adds { Adds cluster.now.number bus.old bus.new }
    ensures sound { IsSound bus.new }
    ensures lawful { IsLawful bus.new }
    ensures answers { TellAnswers cluster.now.number cluster.now.cursor mark result bus.old bus.new }
{
    bus.idle(cluster.number(), cluster.cursor(), mark)
}
