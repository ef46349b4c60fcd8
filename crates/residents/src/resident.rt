//! A process at home in a cluster: it runs, or it rolls forward, or it waits for its pages.
ghost use Rattle.std.specs.Prelude.{◌≡◌, ◌≤◌, ◌<◌, ◌^◌, ◌-◌, ◌+◌, true, false, OnOk, OnErr, IfOk, Some, is_some, if◌then◌else◌};
ghost use Rattle.std.specs.Option.{option_copied};
ghost use Rattle.proc_state.specs.State.{state_of};
ghost use Rattle.roll_forward.specs.RunsOut.{RunsOut, nothing_left};
ghost use Rattle.page_waits.specs.Waiting.{next_page};
ghost use Rattle.residents.specs.Held.{Runs, Rolls, Waits, arrived_held, asked_held, can_act, is_running, is_waiting, next_number, page_held, page_lacked, renewed_held, rolling_held, steps_of_held};
ghost use Rattle.residents.specs.ChildrenFirst.{comes_after_children};
ghost use Rattle.residents.specs.Quantum.{ActsOn, RenewsNow, RunsQuantum, SyncsNow};
ghost use Rattle.residents.specs.Bearing.{CanForkNow, HasForked};
ghost use Rattle.residents.specs.ForkingAgain.{begun_with, born_by, child_again, is_rolling, waits_for_fork, CanBeginWith, HasForkedAgain, HasRolled, StandsAtForkAgain};
ghost use Rattle.residents.specs.Records.{record_told};
ghost use Rattle.residents.specs.Resident.{gone_on, held_standing, running_on, CanComeTo, CanGoOnFrom, HasCaughtUp, StandsSo};

use crate::quantum::{Quantum, tell};
use backup_mode::posts::fresh;
use backup_queue::record::Record;
use bus_msg::entry::Post;
use page_waits::waiting::Waiting;
use proc_state::process::Process;
use quanta::limits::Limits;
use quanta::quantum::run_rest;
use roll_forward::rolled::Rolled;
use roll_forward::rolling::Rolling;
use std::alloc::Global;
use std::marker::Model;
use sync_point::batch::build;
use sys_calls::forking::fork;
use sys_calls::stepping::{can_step, exits_next};
use t32_base::letter::Letter;
use t32_base::lists::List;
use t32_base::process::{ClusterNo, Pid, Small};
use t32_base::streams::NoMemory;

/// A process at home in a cluster: it runs; or it rolls forward, and then something is left to withhold; or it waits for
/// its pages, or for the fork of its parent.
#[derive(Drop)]
pub struct Resident {
    standing: Option<Standing>,
}

#[derive(Drop)]
enum Standing {
    Runs(Process),
    Rolls(Rolling),
    Waits(Waiting),
}

impl Model for Resident {
    ghost use Rattle.residents.specs.Held.{Held};
    ghost use Rattle.residents.specs.Resident.{held_standing, StandsSo};

    ghost Value = { Held };

    ghost view = { λ r. held_standing r.standing };

    ghost invariant = { λ r. StandsSo r.standing };
}

impl Resident {
    /// A process that runs. Takes no memory.
    pub fn running(process: Process) -> Resident
        ensures { result ≡ Runs process }
    {
        Resident {
            standing: Some(Standing::Runs(process)),
        }
    }

    /// A process that rolls forward, or runs where nothing is left to withhold. Takes no memory.
    pub fn rolling(rolling: Rolling) -> Resident
        requires { RunsOut (state_of rolling.process) rolling.counts rolling.births rolling.ahead }
        ensures { result ≡ (if nothing_left rolling.counts rolling.births then Runs rolling.process else Rolls rolling.process rolling.counts rolling.births) }
    {
        Resident {
            standing: Some(standing_of(rolling)),
        }
    }

    /// A process that waits for its pages. Takes no memory.
    pub fn waiting(waiting: Waiting) -> Resident
        ensures { result ≡ Waits waiting }
    {
        Resident {
            standing: Some(Standing::Waits(waiting)),
        }
    }

    /// A letter arrives: it is put last in the mailbox, or its record saves it where the process waits. After want of memory
    /// nothing has changed.
    pub fn deliver(&mut self, letter: Letter) -> Result<(), NoMemory>
        requires { next_number self.old < 2 ^ 64 - 1 }
        ensures ok { OnOk result (self.new ≡ arrived_held self.old letter) }
        ensures err { OnErr result (self.new ≡ self.old) }
    {
        receive(&mut self.standing, letter)
    }

    /// A page of the process comes, by its index from 0: where the process waits, it has the page then, and goes on once all
    /// have come. To another it is of no use. Takes no memory.
    pub fn come(&mut self, alloc: Global, index: u16, page: &[u8; 256])
        requires { CanComeTo index page.now self.old }
        ensures { self.new ≡ page_held index page.now self.old }
    {
        come_to(alloc, &mut self.standing, index, page);
    }

    /// The lowest page that it has not asked for, which is asked for now: none of one that does not wait, or that has asked
    /// for all. Takes no memory.
    pub fn ask(&mut self) -> Option<u16>
        ensures page { result ≡ page_lacked self.old }
        ensures asked { self.new ≡ (if is_some result then asked_held self.old else self.old) }
    {
        match &mut self.standing {
            Some(Standing::Waits(waiting)) => ask_next(waiting),
            _ => None,
        }
    }

    /// Whether it waits for its pages. Takes no memory.
    pub fn waits(&self) -> bool
        ensures { result ≡ is_waiting self.now }
    {
        matches!(&self.standing, Some(Standing::Waits(_)))
    }

    /// Its steps: 0 of one that waits. Takes no memory.
    pub fn steps(&self) -> u64
        ensures { result ≡ steps_of_held self.now }
    {
        match &self.standing {
            Some(Standing::Runs(process)) => steps_made(&process.small),
            Some(Standing::Rolls(rolling)) => steps_made(&rolling.process().small),
            Some(Standing::Waits(_)) => 0,
            None => unreachable!(),
        }
    }

    /// Whether it can move by these limits: one that runs has a step, is due to synchronise or can take a signal, one that rolls forward can always, and
    /// one that waits cannot. Takes no memory.
    pub fn can_act(&self, limits: Limits) -> bool
        ensures { result ≡ can_act limits self.now }
    {
        match &self.standing {
            Some(Standing::Runs(process)) => can_step(process) || limits.ask(process),
            Some(Standing::Rolls(_)) => true,
            Some(Standing::Waits(_)) => false,
            None => unreachable!(),
        }
    }

    /// Whether its children that never synchronised are to do so before it goes on: it runs, and is due by these limits or stands
    /// before its end. Takes no memory.
    pub fn comes_after_children(&self, limits: Limits) -> bool
        ensures { result ≡ comes_after_children limits self.now }
    {
        match &self.standing {
            Some(Standing::Runs(process)) => limits.ask(process) || exits_next(process),
            Some(Standing::Rolls(_)) => false,
            Some(Standing::Waits(_)) => false,
            None => unreachable!(),
        }
    }

    /// Whether it runs. Takes no memory.
    pub fn runs(&self) -> bool
        ensures { result ≡ is_running self.now }
    {
        matches!(&self.standing, Some(Standing::Runs(_)))
    }

    /// One that runs synchronises, in the cluster `by`: the posts by which it does. After want of memory nothing has changed.
    pub fn synchronise(&mut self, alloc: Global, by: ClusterNo) -> Result<List<Post>, NoMemory>
        requires { is_running self.old ≡ true }
        ensures ok { IfOk result (λ posts. SyncsNow by self.old posts self.new) }
        ensures err { OnErr result (self.new ≡ self.old) }
    {
        match &mut self.standing {
            Some(Standing::Runs(process)) => build(alloc, process, by),
            _ => unreachable!(),
        }
    }

    /// One that runs sends, in the cluster `by`, what brings it its backup in the cluster `to`: the posts by which it does. After want
    /// of memory nothing has changed.
    pub fn renew(
        &mut self,
        alloc: Global,
        by: ClusterNo,
        to: ClusterNo,
    ) -> Result<List<Post>, NoMemory>
        requires { is_running self.old ≡ true }
        ensures ok { IfOk result (λ posts. RenewsNow to by self.old posts self.new) }
        ensures err { OnErr result (self.new ≡ self.old) }
    {
        match &mut self.standing {
            Some(Standing::Runs(process)) => fresh(alloc, process, to, by),
            _ => unreachable!(),
        }
    }

    /// What brings it its new backup was sent: it counts from where it stands, if it runs. Takes no memory.
    pub fn renewed(&mut self)
        ensures { self.new ≡ renewed_held self.old }
    {
        if let Some(Standing::Runs(process)) = &mut self.standing {
            process.synced();
        }
    }

    /// One that runs forks, and its child is handed over; no other does. After want of memory nothing has changed.
    pub fn fork(&mut self, alloc: Global, child: Pid) -> Result<Option<Process>, NoMemory>
        requires { CanForkNow self.old }
        ensures ok { IfOk result (λ born. HasForked child self.old born self.new) }
        ensures err { OnErr result (self.new ≡ self.old) }
    {
        match &mut self.standing {
            Some(Standing::Runs(process)) => Ok(Some(fork(alloc, process, child)?)),
            _ => Ok(None),
        }
    }

    /// Whether it rolls forward. Takes no memory.
    pub fn rolls(&self) -> bool
        ensures { result ≡ is_rolling self.now }
    {
        matches!(&self.standing, Some(Standing::Rolls(_)))
    }

    /// Whether it waits until its parent makes the fork again from which it starts. Takes no memory.
    pub fn waits_for_fork(&self) -> bool
        ensures { result ≡ waits_for_fork self.now }
    {
        match &self.standing {
            Some(Standing::Waits(waiting)) => waiting.kept().state().is_none(),
            _ => false,
        }
    }

    /// The record of one that waits, with the letters that have arrived meanwhile. Takes no memory.
    pub fn kept(&self) -> Option<&Record>
        ensures { option_copied result ≡ record_told self.now }
    {
        match &self.standing {
            Some(Standing::Waits(waiting)) => Some(waiting.kept()),
            _ => None,
        }
    }

    /// The child that its next fork bears, of one that rolls forward. Takes no memory.
    pub fn next_child(&self) -> Option<Pid>
        ensures { result ≡ child_again self.now }
    {
        match &self.standing {
            Some(Standing::Rolls(rolling)) => rolling.next_child(),
            _ => None,
        }
    }

    /// One that rolls forward does again what it did, `most` steps at most, and withholds what it sent: how many it made. Where nothing is
    /// left to withhold it runs. It makes none before a fork, which `fork_again` makes; nor does one that does not roll forward make
    /// any. A later step for which memory is refused is not made; where it is the first, nothing has changed.
    pub fn roll(&mut self, most: u32) -> Result<u32, NoMemory>
        requires { 1 ≤ most }
        ensures ok { IfOk result (λ made. HasRolled most made self.old self.new) }
        ensures err { OnErr result (self.new ≡ self.old) }
    {
        roll(&mut self.standing, most)
    }

    /// One that rolls forward makes the fork again before which it stands, and its child is handed over where `made` says so. After want
    /// of memory nothing has changed.
    pub fn fork_again(&mut self, made: bool) -> Result<Option<Process>, NoMemory>
        requires { StandsAtForkAgain self.old }
        ensures ok { IfOk result (λ born. HasForkedAgain made self.old born self.new) }
        ensures err { OnErr result (self.new ≡ self.old) }
    {
        fork_again(&mut self.standing, made)
    }

    /// One that waited for its parent's fork goes on as it was born, with the letters that its record saved, and withholds what that
    /// counts. Takes no memory.
    pub fn begin_again(&mut self, alloc: Global, born: Process)
        requires { CanBeginWith born self.old }
        ensures { self.new ≡ begun_with born self.old }
    {
        begin_again(alloc, &mut self.standing, born);
    }

    /// Its turn in the cluster `by`, or the rest of it after so many steps in which it rolled forward. One that runs and is due by these
    /// limits synchronises, where it made none. Else it has a quantum, of at most 64 steps with those. It goes up to a
    /// step that sends something, up to a read that waits, or until it is due; up to its end where it has a child that is to synchronise
    /// first. A later step for which memory is refused is not made; where it is the first, nothing has changed. No step leads
    /// one beyond these limits that is within them.
    pub fn run_quantum(
        &mut self,
        alloc: Global,
        by: ClusterNo,
        limits: Limits,
        childless: bool,
        made: u32,
    ) -> Result<Quantum, NoMemory>
        requires few { made ≤ 64 }
        requires last { made ≡ 0 → comes_after_children limits self.old ≡ true → childless ≡ true }
        requires running { is_rolling self.old ≡ false }
        requires waiting { 1 ≤ made → is_running self.old ≡ true }
        ensures { RunsQuantum limits by 64 childless made self.old result self.new }
    {
        match &mut self.standing {
            Some(Standing::Runs(process)) => act_on(alloc, process, by, limits, childless, made),
            Some(Standing::Rolls(_)) => unreachable!(),
            Some(Standing::Waits(_)) => Ok(Quantum::Stuck),
            None => unreachable!(),
        }
    }
}

// The turn of one that runs in the cluster `by`, or the rest of a turn in which it made some steps.
fn act_on(
    alloc: Global,
    process: &mut Process,
    by: ClusterNo,
    limits: Limits,
    childless: bool,
    made: u32,
) -> Result<Quantum, NoMemory>
    requires few { made ≤ 64 }
    requires last { made ≡ 0 → comes_after_children limits (Runs process.old) ≡ true → childless ≡ true }
    ensures { ActsOn limits by 64 childless made process.old result process.new }
{
    if made == 0 && limits.ask(process) {
        return Ok(Quantum::Synced(build(alloc, process, by)?));
    }
    let ran = run_rest(alloc, process, limits, made)?;
    Ok(tell(process, ran, childless))
}

// A letter arrives.
fn receive(standing: &mut Option<Standing>, letter: Letter) -> Result<(), NoMemory>
    requires stands { StandsSo standing.old }
    requires room { next_number (held_standing standing.old) < 2 ^ 64 - 1 }
    ensures stands { StandsSo standing.new }
    ensures ok { OnOk result (held_standing standing.new ≡ arrived_held (held_standing standing.old) letter) }
    ensures err { OnErr result (standing.new ≡ standing.old) }
{
    match standing {
        Some(Standing::Runs(process)) => process.deliver(letter),
        Some(Standing::Rolls(rolling)) => rolling.deliver(letter),
        Some(Standing::Waits(waiting)) => waiting.deliver(letter),
        None => unreachable!(),
    }
}

// The steps that one makes again which rolls forward, and how many they are; any other makes none.
fn roll(standing: &mut Option<Standing>, most: u32) -> Result<u32, NoMemory>
    requires most { 1 ≤ most }
    requires stands { StandsSo standing.old }
    ensures stands { StandsSo standing.new }
    ensures ok { IfOk result (λ made. HasRolled most made (held_standing standing.old) (held_standing standing.new)) }
    ensures err { OnErr result (standing.new ≡ standing.old) }
{
    match standing {
        Some(Standing::Rolls(rolling)) => {
            let made = rolling.run(most)?;
            if rolling.caught_up() {
                run_on(standing);
            }
            Ok(made)
        }
        _ => Ok(0),
    }
}

// One that rolls forward makes its next fork again.
fn fork_again(standing: &mut Option<Standing>, made: bool) -> Result<Option<Process>, NoMemory>
    requires stands { StandsSo standing.old }
    requires forks { StandsAtForkAgain (held_standing standing.old) }
    ensures stands { StandsSo standing.new }
    ensures ok { IfOk result (λ born. HasForkedAgain made (held_standing standing.old) born (held_standing standing.new)) }
    ensures err { OnErr result (standing.new ≡ standing.old) }
{
    match standing {
        Some(Standing::Rolls(rolling)) => {
            let born = born_of(rolling.advance(made)?);
            if rolling.caught_up() {
                run_on(standing);
            }
            Ok(born)
        }
        _ => unreachable!(),
    }
}

// The child of a fork, where it was made.
fn born_of(rolled: Rolled) -> Option<Process>
    ensures { result ≡ born_by rolled }
{
    match rolled {
        Rolled::Silent => None,
        Rolled::Withheld(_) => None,
        Rolled::Born { process, .. } => process,
    }
}

// One that waits for its parent's fork goes on as it was born.
fn begin_again(alloc: Global, standing: &mut Option<Standing>, born: Process)
    requires stands { StandsSo standing.old }
    requires can { CanBeginWith born (held_standing standing.old) }
    ensures stands { StandsSo standing.new }
    ensures held { held_standing standing.new ≡ begun_with born (held_standing standing.old) }
{
    *standing = match standing.take() {
        Some(Standing::Waits(waiting)) => {
            let kept = waiting.into_record();
            Some(standing_of(Rolling::start_child(alloc, kept, born)))
        }
        other => other,
    };
}

// One that has caught up runs.
fn run_on(standing: &mut Option<Standing>)
    requires { HasCaughtUp standing.old }
    ensures { standing.new ≡ running_on standing.old }
{
    *standing = match standing.take() {
        Some(Standing::Rolls(rolling)) => Some(Standing::Runs(rolling.into_process())),
        other => other,
    };
}

// One that rolls forward, or runs where nothing is left to withhold.
fn standing_of(rolling: Rolling) -> Standing
    requires { RunsOut (state_of rolling.process) rolling.counts rolling.births rolling.ahead }
    ensures stands { StandsSo (Some result) }
    ensures held { held_standing (Some result) ≡ rolling_held rolling }
{
    if rolling.caught_up() {
        Standing::Runs(rolling.into_process())
    } else {
        Standing::Rolls(rolling)
    }
}

// A page comes to one that waits.
fn come_to(alloc: Global, standing: &mut Option<Standing>, index: u16, page: &[u8; 256])
    requires stands { StandsSo standing.old }
    requires can { CanComeTo index page.now (held_standing standing.old) }
    ensures stands { StandsSo standing.new }
    ensures held { held_standing standing.new ≡ page_held index page.now (held_standing standing.old) }
{
    if let Some(Standing::Waits(waiting)) = standing {
        waiting.come(index, page);
        if waiting.is_whole() {
            go_on(alloc, standing);
        }
    }
}

// One whose pages have all come goes on.
fn go_on(alloc: Global, standing: &mut Option<Standing>)
    requires stands { StandsSo standing.old }
    requires can { CanGoOnFrom standing.old }
    ensures stands { StandsSo standing.new }
    ensures held { held_standing standing.new ≡ gone_on (held_standing standing.old) }
{
    *standing = match standing.take() {
        Some(Standing::Waits(waiting)) => Some(standing_of(waiting.into_rolling(alloc))),
        other => other,
    };
}

// The lowest page that one that waits has not asked for, which is asked for now.
fn ask_next(waiting: &mut Waiting) -> Option<u16>
    ensures page { result ≡ next_page waiting.old }
    ensures asked { waiting.new ≡ (if is_some result then record waiting.old { asked = waiting.old.asked + 1 } else waiting.old) }
{
    if waiting.lacks().is_none() {
        return None;
    }
    Some(waiting.ask())
}

fn steps_made(small: &Small) -> u64
    ensures { result ≡ small.now.steps }
{
    small.steps
}
