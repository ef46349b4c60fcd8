//! The processes at home in a cluster.
ghost use Rattle.std.specs.Prelude.{ℕ, ◌≡◌, ◌⊎◌, ◌+◌, ◌<◌, ◌≤◌, ◌&&◌, [], IfOk, IfSome, OnOk, OnErr, Some, None, true, is_none, length, filter, find, map, nat_lt, not, option_and_then, if◌then◌else◌, false};
ghost use Rattle.std.specs.List.{list_any};
ghost use Rattle.std.specs.Option.{option_copied};
ghost use Rattle.slab.specs.Slab.{Updates};
ghost use Rattle.bus_msg.specs.Places.{same_pid};
ghost use Rattle.birth_notice.specs.Family.{first_unsynced};
ghost use Rattle.plain_kernel.specs.Maps.{at_key, pid_of};
ghost use Rattle.cert_sched.specs.Parts.{first_of};
ghost use Rattle.residents.specs.Told.{rests_in};
ghost use Rattle.residents.specs.Arriving.{with_letter, with_page_come};
ghost use Rattle.residents.specs.Bearing.{CanBear, CanForkAt, ForksAt, with_born};
ghost use Rattle.residents.specs.ForkingAgain.{child_again, rolls_at, waits_for_fork_at, with_begun, BearsAgain, CanBeginWith, CanForkAgain, CanForkAgainAt, CanForkAgainNow, ForksAgain, RollsPartAt, RollsQuantum, RollsStepsAt, StandsThere};
ghost use Rattle.residents.specs.ChildrenFirst.{child_before, comes_after, comes_after_at, is_free, is_hindered};
ghost use Rattle.residents.specs.Duty.{is_able, is_owed, owed_at};
ghost use Rattle.residents.specs.Owing.{duty_in, owing_in};
ghost use Rattle.residents.specs.Records.{record_at};
ghost use Rattle.residents.specs.Residents.{AsksOf, GivenTurnIs, HasRoom, NextAble, NoneHasTurn, RenewsAt, RunsAt, RunsOnAt, SyncsAt, TurnIs, are_rising, are_settled, is_settled, is_stuck_at, lacks_none_at, next_ready, none_has_turn, pids_in};
ghost use Rattle.residents.specs.Changed.{with_more};
ghost use Rattle.residents.specs.Resident.{CanComeTo};
ghost use Rattle.residents.specs.Held.{Held, arrived_held, held_of, runs_at, with_renewed};
ghost use Rattle.residents.specs.Asking.{AsksNext, any_lacks, any_waits, is_lowest_lacking};

use crate::duty::Duty;
use crate::quantum::Quantum;
use crate::resident::Resident;
use backup_mode::next::next_backup;
use backup_queue::record::Record;
use birth_notice::family::Family;
use bus_msg::entry::Post;
use bus_msg::shared::Shared;
use channel_table::placement::Placement;
use proc_state::process::Process;
use quanta::limits::Limits;
use quanta::quantum::MOST;
use slab::Slab;
use std::alloc::Global;
use std::collections::{BTreeMap, BTreeSet};
use std::marker::Model;
use std::ops::Bound;
use t32_base::letter::{Letter, To};
use t32_base::lists::List;
use t32_base::process::{ClusterNo, Pid};
use t32_base::streams::NoMemory;

/// The processes at home in a cluster, by pid. One that cannot move, but may get a step by a letter or a page, is
/// not asked again before one comes to it. Nor is one whose pages were all asked for. What they tell where none can move
/// is kept until one changes, so that it is told again without a look at them.
#[derive(Drop)]
pub struct Residents {
    duty: Duty,
    residents: Slab<Resident>,
    keys: BTreeMap<u32, usize>,
    ready: BTreeSet<u32>,
    // Of these processes some may have pages to ask for.
    asking: BTreeSet<u32>,
    last: u32,
    told: Option<Shared<List<(Pid, u64)>>>,
}

impl Model for Residents {
    ghost use Rattle.residents.specs.Residents.{ResidentsView};
    ghost use Rattle.residents.specs.Slots.{stands_in, IsKept};
    ghost use Rattle.residents.specs.Told.{IsTold};

    ghost Value = { ResidentsView };

    ghost view = { λ r. record { duty = r.duty; here = stands_in r.residents r.keys.entries; ready = r.ready.keys; asking = r.asking.keys; last = r.last } };

    ghost invariant = { λ r. IsKept r.duty r.residents r.keys.entries r.ready.keys r.asking.keys × IsTold r.duty (stands_in r.residents r.keys.entries) r.told };
}

impl Residents {
    /// No process; those that come synchronise by these limits, and none is to get a new backup.
    pub fn none(alloc: Global, limits: Limits) -> Residents
        ensures duty { result.duty ≡ record { limits = limits; owing = [] } }
        ensures here { result.here ≡ [] }
        ensures last { result.last ≡ 0 }
    {
        Residents {
            duty: Duty::of(alloc, limits),
            residents: Slab::new(alloc),
            keys: BTreeMap::new(alloc),
            ready: BTreeSet::new(alloc),
            asking: BTreeSet::new(alloc),
            last: 0,
            told: None,
        }
    }

    /// The limits by which the processes here synchronise. Takes no memory.
    pub fn limits(&self) -> Limits
        ensures { result ≡ self.now.duty.limits }
    {
        self.duty.limits()
    }

    /// Those processes here are to get a new backup from now on that get one by where they are placed. After want of memory nothing has
    /// changed.
    pub fn place(&mut self, alloc: Global, places: &Placement) -> Result<(), NoMemory>
        ensures here { self.new.here ≡ self.old.here }
        ensures last { self.new.last ≡ self.old.last }
        ensures duty { OnOk result (self.new.duty ≡ duty_in self.old.duty.limits places.now self.old.here) }
        ensures err { OnErr result (self.new.duty ≡ self.old.duty) }
    {
        let owing = self.owing(alloc, places)?;
        self.owe(owing)
    }

    // Those processes here that are to get a new backup by where they are placed, each with its cluster.
    fn owing(&self, alloc: Global, places: &Placement) -> Result<BTreeMap<u32, ClusterNo>, NoMemory>
        ensures { IfOk result (λ owing. owing.entries ≡ owing_in places.now (pids_in self.now.here)) }
    {
        let mut owing = BTreeMap::new(alloc);
        for pid in self.keys.keys() {
            if let Some(to) = next_backup(places, Pid(*pid)) {
                owing.insert(*pid, to)?;
            }
        }
        Ok(owing)
    }

    // These processes are to get a new backup, each in its cluster, and no others. After want of memory nothing has changed.
    fn owe(&mut self, owing: BTreeMap<u32, ClusterNo>) -> Result<(), NoMemory>
        ensures here { self.new.here ≡ self.old.here }
        ensures last { self.new.last ≡ self.old.last }
        ensures ok { OnOk result (self.new.duty ≡ record self.old.duty { owing = owing.entries }) }
        ensures err { OnErr result (self.new.duty ≡ self.old.duty) }
    {
        for (pid, _) in &owing {
            self.make_ready(*pid)?;
        }
        self.told = None;
        self.duty.owe(owing);
        Ok(())
    }

    /// One process more, whose pid none has that is here. After want of memory nothing is said but that the
    /// value can be dropped.
    pub fn add(&mut self, pid: Pid, resident: Resident) -> Result<(), NoMemory>
        requires { list_any (λ e. same_pid e.0 pid) self.old.here ≡ false }
        ensures here { OnOk result (self.new.here ≡ with_more pid resident self.old.here) }
        ensures last { OnOk result (self.new.last ≡ self.old.last) }
        ensures duty { self.new.duty ≡ self.old.duty }
    {
        self.told = None;
        self.ready.insert(pid.0)?;
        self.asking.insert(pid.0)?;
        let key = self.residents.insert(resident)?;
        self.keys.insert(pid.0, key)?;
        Ok(())
    }

    /// Gives the next process that can move its turn in the cluster `by`: the next one in rising pid order after the
    /// one that was chosen last, cyclically. It sends what brings it a new backup where it is to get one, synchronises where it is due, and
    /// else runs for a quantum. Where it is to get one, is due or is to end and one of these children is to synchronise before it, that
    /// child does so in its place; where that child does not run yet, it is passed over.
    /// `Stuck` is that of all. After want of memory no process has changed.
    pub fn take_turn(
        &mut self,
        alloc: Global,
        by: ClusterNo,
        family: &Family,
    ) -> Result<Quantum, NoMemory>
        requires { CanForkAgain self.old.here }
        ensures turn { TurnIs by family.now self.old result self.new }
        ensures duty { self.new.duty ≡ self.old.duty }
    {
        'choices: while let Some(pid) = self.next(family) {
            match self.give_turn(alloc, by, pid, family)? {
                Quantum::Stuck => self.rest(pid),
                quantum => {
                    self.choose(pid);
                    return Ok(quantum);
                }
            }
        }
        Ok(Quantum::Stuck)
    }

    /// Whether none of them is ready, so that none can have a turn. Takes no memory.
    pub fn none_is_ready(&self) -> bool
        ensures { result ≡ true → NoneHasTurn self.now }
    {
        self.ready.is_empty()
    }

    // The next of those that may move, but for those that a child hinders. Takes no memory.
    fn next(&self, family: &Family) -> Option<u32>
        ensures next { result ≡ next_ready (filter (is_free self.now.duty family.now self.now.here) self.now.ready) self.now.last }
        ensures stuck { result ≡ None → none_has_turn self.now.duty family.now self.now.here ≡ true }
        ensures able { (pid : ℕ) → result ≡ Some pid → NextAble pid family.now self.now }
    {
        if self.ready.is_empty() {
            return None;
        }
        match self.next_above(family) {
            Some(pid) => Some(pid),
            None => self.lowest_free(family),
        }
    }

    // The next of them above the one that was chosen last. Takes no memory.
    fn next_above(&self, family: &Family) -> Option<u32>
        ensures found { result ≡ find (λ n. nat_lt self.now.last n && is_free self.now.duty family.now self.now.here n) self.now.ready }
        ensures ordered { are_rising self.now.ready ≡ true }
    {
        let above = (Bound::Excluded(self.last), Bound::Unbounded);
        for pid in self.ready.range(above) {
            if !self.is_hindered(*pid, family) {
                return Some(*pid);
            }
        }
        None
    }

    // The lowest of them. Takes no memory.
    fn lowest_free(&self, family: &Family) -> Option<u32>
        ensures { result ≡ find (is_free self.now.duty family.now self.now.here) self.now.ready }
    {
        for pid in &self.ready {
            if !self.is_hindered(*pid, family) {
                return Some(*pid);
            }
        }
        None
    }

    // Whether the child that is to synchronise before the process with a pid does not run yet. Takes no memory.
    fn is_hindered(&self, pid: u32, family: &Family) -> bool
        ensures { result ≡ is_hindered self.now.duty family.now self.now.here (pid_of pid) }
    {
        match self.child_before(pid, family) {
            Some(child) => !self.runs(child),
            None => false,
        }
    }

    // The child that is to synchronise in the place of the process with a pid. Takes no memory.
    fn child_before(&self, pid: u32, family: &Family) -> Option<Pid>
        ensures { result ≡ child_before self.now.duty family.now self.now.here (pid_of pid) }
    {
        let first = family.first_unsynced(Pid(pid));
        if first.is_none() {
            return None;
        }
        match self.resident(pid) {
            Some(resident) => {
                if self.comes_after(pid, resident) {
                    first
                } else {
                    None
                }
            }
            None => None,
        }
    }

    // Whether a process, which is this one, can have no turn by itself and waits for no page. Takes no memory.
    fn is_settled(&self, pid: u32, resident: &Resident) -> bool
        ensures { result ≡ is_settled self.now.duty (pid_of pid, resident.now) }
    {
        !self.is_able(pid, resident) && !resident.waits()
    }

    // The same of one that is here: where none is ready it can have no turn, and is not asked. Takes no memory.
    fn is_at_rest(&self, pid: u32, resident: &Resident) -> bool
        requires { is_able self.now.duty (pid_of pid, resident.now) ≡ true → list_any (at_key pid) self.now.ready ≡ true }
        ensures { result ≡ is_settled self.now.duty (pid_of pid, resident.now) }
    {
        if self.ready.is_empty() {
            return !resident.waits();
        }
        self.is_settled(pid, resident)
    }

    // Whether a process, which is this one, can have a turn by itself. Takes no memory.
    fn is_able(&self, pid: u32, resident: &Resident) -> bool
        ensures { result ≡ is_able self.now.duty (pid_of pid, resident.now) }
    {
        self.is_owed(pid, resident) || resident.can_act(self.duty.limits())
    }

    // Whether a process, which is this one, comes after its children. Takes no memory.
    fn comes_after(&self, pid: u32, resident: &Resident) -> bool
        ensures { result ≡ comes_after self.now.duty (pid_of pid, resident.now) }
    {
        self.is_owed(pid, resident) || resident.comes_after_children(self.duty.limits())
    }

    // Whether a process, which is this one, is to get a new backup now. Takes no memory.
    fn is_owed(&self, pid: u32, resident: &Resident) -> bool
        ensures { result ≡ is_owed self.now.duty (pid_of pid, resident.now) }
    {
        self.duty.backup_owed(pid).is_some() && resident.runs()
    }

    // The cluster in which the process with a pid is to get its new backup now. Takes no memory.
    fn owed(&self, pid: u32) -> Option<ClusterNo>
        ensures ordered { are_rising (pids_in self.now.here) ≡ true }
        ensures owed { result ≡ owed_at self.now.duty self.now.here (pid_of pid) }
    {
        let to = self.duty.backup_owed(pid)?;
        if self.runs(Pid(pid)) { Some(to) } else { None }
    }

    // Whether a process is here and runs. Takes no memory.
    fn runs(&self, pid: Pid) -> bool
        ensures ordered { are_rising (pids_in self.now.here) ≡ true }
        ensures runs { result ≡ runs_at self.now.here pid }
    {
        match self.resident(pid.0) {
            Some(resident) => resident.runs(),
            None => false,
        }
    }

    // The process with a pid, if it is here. Takes no memory.
    fn resident(&self, pid: u32) -> Option<&Resident>
        ensures there { option_copied result ≡ held_of self.now.here (pid_of pid) }
        ensures ordered { are_rising (pids_in self.now.here) ≡ true }
    {
        match self.keys.get(&pid) {
            Some(key) => match self.residents.get(*key) {
                Some(resident) => Some(resident),
                None => unreachable!(),
            },
            None => None,
        }
    }

    // Gives the process with a pid its turn in the cluster `by`, if it is here; the child that is to synchronise before it does so in
    // its place.
    fn give_turn(
        &mut self,
        alloc: Global,
        by: ClusterNo,
        pid: u32,
        family: &Family,
    ) -> Result<Quantum, NoMemory>
        requires ready { list_any (at_key pid) self.old.ready ≡ true }
        requires free { is_hindered self.old.duty family.now self.old.here (pid_of pid) ≡ false }
        requires forks { CanForkAgainAt self.old.here (pid_of pid) }
        ensures turn { GivenTurnIs self.old.duty by family.now (pid_of pid) self.old.here result self.new.here }
        ensures ready { IfOk result (λ quantum. quantum ≡ Quantum.Stuck → self.new.ready ≡ self.old.ready) }
        ensures last { self.new.last ≡ self.old.last }
        ensures duty { self.new.duty ≡ self.old.duty }
    {
        match self.child_before(pid, family) {
            Some(child) => Ok(Quantum::Synced(self.synchronise(alloc, by, child)?)),
            None => self.give_own(alloc, by, pid, family),
        }
    }

    /// What brings the process with a pid its new backup was sent: it counts from where it stands, if it runs here. Takes no memory.
    pub fn renewed(&mut self, pid: Pid)
        ensures here { self.new.here ≡ with_renewed pid self.old.here }
        ensures last { self.new.last ≡ self.old.last }
        ensures duty { self.new.duty ≡ self.old.duty }
    {
        if let Some(key) = self.keys.get(&pid.0) {
            self.told = None;
            match self.residents.get_mut(*key) {
                Some(resident) => resident.renewed(),
                None => unreachable!(),
            }
        }
    }

    // Gives it its own turn, where no child is to synchronise before it: it sends what brings it its new backup where it is to get one.
    fn give_own(
        &mut self,
        alloc: Global,
        by: ClusterNo,
        pid: u32,
        family: &Family,
    ) -> Result<Quantum, NoMemory>
        requires ready { list_any (at_key pid) self.old.ready ≡ true }
        requires alone { child_before self.old.duty family.now self.old.here (pid_of pid) ≡ None }
        requires forks { CanForkAgainAt self.old.here (pid_of pid) }
        ensures turn { GivenTurnIs self.old.duty by family.now (pid_of pid) self.old.here result self.new.here }
        ensures ready { IfOk result (λ quantum. quantum ≡ Quantum.Stuck → self.new.ready ≡ self.old.ready) }
        ensures last { self.new.last ≡ self.old.last }
        ensures duty { self.new.duty ≡ self.old.duty }
    {
        match self.owed(pid) {
            Some(to) => Ok(Quantum::Renewed(self.renew(alloc, by, to, pid)?)),
            None => {
                let childless = family.first_unsynced(Pid(pid)).is_none();
                self.run(alloc, by, pid, childless)
            }
        }
    }

    // The process with a pid, which runs here, sends in the cluster `by` what brings it its backup in the cluster `to`.
    fn renew(
        &mut self,
        alloc: Global,
        by: ClusterNo,
        to: ClusterNo,
        pid: u32,
    ) -> Result<List<Post>, NoMemory>
        requires runs { runs_at self.old.here (pid_of pid) ≡ true }
        requires ready { list_any (at_key pid) self.old.ready ≡ true }
        ensures ok { IfOk result (λ posts. RenewsAt by to (pid_of pid) self.old.here posts self.new.here) }
        ensures err { OnErr result (self.new.here ≡ self.old.here) }
        ensures last { self.new.last ≡ self.old.last }
        ensures duty { self.new.duty ≡ self.old.duty }
    {
        self.told = None;
        match self.keys.get(&pid) {
            Some(key) => match self.residents.get_mut(*key) {
                Some(resident) => resident.renew(alloc, by, to),
                None => unreachable!(),
            },
            None => unreachable!(),
        }
    }

    // The process with a pid, which runs here, synchronises in the cluster `by`.
    fn synchronise(
        &mut self,
        alloc: Global,
        by: ClusterNo,
        pid: Pid,
    ) -> Result<List<Post>, NoMemory>
        requires { runs_at self.old.here pid ≡ true }
        ensures ok { IfOk result (λ posts. SyncsAt by pid self.old.here posts self.new.here) }
        ensures err { OnErr result (self.new.here ≡ self.old.here) }
        ensures ready { self.new.ready ≡ self.old.ready }
        ensures last { self.new.last ≡ self.old.last }
        ensures duty { self.new.duty ≡ self.old.duty }
    {
        self.told = None;
        match self.keys.get(&pid.0) {
            Some(key) => match self.residents.get_mut(*key) {
                Some(resident) => resident.synchronise(alloc, by),
                None => unreachable!(),
            },
            None => unreachable!(),
        }
    }

    // The process with a pid has its turn itself, if it is here: where it rolls forward it makes steps again, forks among them, and
    // where nothing is left to withhold the same quantum goes on.
    fn run(
        &mut self,
        alloc: Global,
        by: ClusterNo,
        pid: u32,
        childless: bool,
    ) -> Result<Quantum, NoMemory>
        requires ready { list_any (at_key pid) self.old.ready ≡ true }
        requires last { comes_after_at self.old.duty.limits self.old.here (pid_of pid) ≡ true → childless ≡ true }
        requires forks { CanForkAgainAt self.old.here (pid_of pid) }
        ensures turn { RunsAt self.old.duty.limits by childless (pid_of pid) self.old.here result self.new.here }
        ensures ready { IfOk result (λ quantum. quantum ≡ Quantum.Stuck → self.new.ready ≡ self.old.ready) }
        ensures last { self.new.last ≡ self.old.last }
        ensures duty { self.new.duty ≡ self.old.duty }
    {
        if !self.rolls(pid) {
            return self.run_on(alloc, by, pid, childless, 0);
        }
        let made = self.roll(alloc, pid)?;
        if self.rolls(pid) {
            return Ok(Quantum::Moved);
        }
        self.run_on(alloc, by, pid, childless, made)
    }

    // The rest of a quantum of the process with a pid, if it is here, after so many steps in which it rolled forward.
    fn run_on(
        &mut self,
        alloc: Global,
        by: ClusterNo,
        pid: u32,
        childless: bool,
        made: u32,
    ) -> Result<Quantum, NoMemory>
        requires ready { list_any (at_key pid) self.old.ready ≡ true }
        requires few { made ≤ 64 }
        requires last { made ≡ 0 → comes_after_at self.old.duty.limits self.old.here (pid_of pid) ≡ true → childless ≡ true }
        requires running { rolls_at self.old.here (pid_of pid) ≡ false }
        requires waiting { 1 ≤ made → runs_at self.old.here (pid_of pid) ≡ true }
        ensures turn { RunsOnAt self.old.duty.limits by childless made (pid_of pid) self.old.here result self.new.here }
        ensures ready { self.new.ready ≡ self.old.ready }
        ensures last { self.new.last ≡ self.old.last }
        ensures duty { self.new.duty ≡ self.old.duty }
    {
        self.told = None;
        match self.keys.get(&pid) {
            Some(key) => match self.residents.get_mut(*key) {
                Some(resident) => resident.run_quantum(
                    alloc,
                    by,
                    self.duty.limits(),
                    childless,
                    made,
                ),
                None => unreachable!(),
            },
            None => Ok(Quantum::Stuck),
        }
    }

    // The steps of a quantum that the process with a pid makes again, and how many they are. A later one for which memory is refused is
    // not made; where it is the first, nothing has changed.
    fn roll(&mut self, alloc: Global, pid: u32) -> Result<u32, NoMemory>
        requires ready { list_any (at_key pid) self.old.ready ≡ true }
        requires forks { CanForkAgainAt self.old.here (pid_of pid) }
        ensures ok { IfOk result (λ made. RollsQuantum (pid_of pid) made self.old.here self.new.here) }
        ensures err { OnErr result (self.new.here ≡ self.old.here) }
        ensures ready { list_any (at_key pid) self.new.ready ≡ true }
        ensures same { IfOk result (λ made. made ≡ 0 → self.new.ready ≡ self.old.ready) }
        ensures last { self.new.last ≡ self.old.last }
        ensures duty { self.new.duty ≡ self.old.duty }
    {
        let mut made = 0;
        'parts: while made < MOST {
            match self.roll_part(alloc, pid, MOST - made) {
                Ok(0) => return Ok(made),
                Ok(more) => made += more,
                Err(NoMemory) => return made_or_refused(made),
            }
        }
        Ok(made)
    }

    // Some of these steps: those up to a fork, or that fork; none where the process does not roll forward.
    fn roll_part(&mut self, alloc: Global, pid: u32, most: u32) -> Result<u32, NoMemory>
        requires most { 1 ≤ most }
        requires ready { list_any (at_key pid) self.old.ready ≡ true }
        requires forks { CanForkAgainAt self.old.here (pid_of pid) }
        ensures ok { IfOk result (λ made. RollsPartAt most made (pid_of pid) self.old.here self.new.here) }
        ensures err { OnErr result (self.new.here ≡ self.old.here) }
        ensures ready { list_any (at_key pid) self.new.ready ≡ true }
        ensures same { IfOk result (λ made. made ≡ 0 → self.new.ready ≡ self.old.ready) }
        ensures last { self.new.last ≡ self.old.last }
        ensures duty { self.new.duty ≡ self.old.duty }
    {
        let made = self.roll_steps(pid, most)?;
        if made > 0 || !self.rolls(pid) {
            return Ok(made);
        }
        self.fork_again(alloc, pid)?;
        Ok(1)
    }

    // The steps up to a fork.
    fn roll_steps(&mut self, pid: u32, most: u32) -> Result<u32, NoMemory>
        requires most { 1 ≤ most }
        requires ready { list_any (at_key pid) self.old.ready ≡ true }
        ensures ok { IfOk result (λ made. RollsStepsAt most made (pid_of pid) self.old.here self.new.here) }
        ensures err { OnErr result (self.new.here ≡ self.old.here) }
        ensures ready { self.new.ready ≡ self.old.ready }
        ensures last { self.new.last ≡ self.old.last }
        ensures duty { self.new.duty ≡ self.old.duty }
    {
        self.told = None;
        match self.keys.get(&pid) {
            Some(key) => match self.residents.get_mut(*key) {
                Some(resident) => resident.roll(most),
                None => unreachable!(),
            },
            None => Ok(0),
        }
    }

    // The fork again before which the process with a pid stands; its child begins again where it waits for that.
    fn fork_again(&mut self, alloc: Global, pid: u32) -> Result<(), NoMemory>
        requires ready { list_any (at_key pid) self.old.ready ≡ true }
        requires can { CanForkAgainNow (pid_of pid) self.old.here }
        ensures ok { OnOk result (ForksAgain (pid_of pid) self.old.here self.new.here) }
        ensures err { OnErr result (self.new.here ≡ self.old.here) }
        ensures ready { list_any (at_key pid) self.new.ready ≡ true }
        ensures last { self.new.last ≡ self.old.last }
        ensures duty { self.new.duty ≡ self.old.duty }
    {
        let Some(child) = self.next_child(pid) else {
            unreachable!()
        };
        if !self.waits_for_fork(child) {
            self.bear_again(pid, false)?;
            return Ok(());
        }
        self.make_ready(child.0)?;
        match self.bear_again(pid, true)? {
            Some(born) => self.begin_again(alloc, child, born),
            None => unreachable!(),
        }
        Ok(())
    }

    // A process is asked for its turn from now on, where it can have one.
    fn make_ready(&mut self, pid: u32) -> Result<(), NoMemory>
        ensures here { self.new.here ≡ self.old.here }
        ensures there { OnOk result (list_any (at_key pid) self.new.ready ≡ true) }
        ensures others { (n : ℕ) → list_any (at_key n) self.old.ready ≡ true → list_any (at_key n) self.new.ready ≡ true }
        ensures last { self.new.last ≡ self.old.last }
        ensures duty { self.new.duty ≡ self.old.duty }
    {
        self.ready.insert(pid)?;
        Ok(())
    }

    // The parent's half of that fork, and its child where `made` says so.
    fn bear_again(&mut self, pid: u32, made: bool) -> Result<Option<Process>, NoMemory>
        requires ready { list_any (at_key pid) self.old.ready ≡ true }
        requires stands { StandsThere (pid_of pid) self.old.here }
        ensures ok { IfOk result (λ born. BearsAgain made (pid_of pid) self.old.here born self.new.here) }
        ensures err { OnErr result (self.new.here ≡ self.old.here) }
        ensures ready { self.new.ready ≡ self.old.ready }
        ensures last { self.new.last ≡ self.old.last }
        ensures duty { self.new.duty ≡ self.old.duty }
    {
        self.told = None;
        match self.keys.get(&pid) {
            Some(key) => match self.residents.get_mut(*key) {
                Some(resident) => resident.fork_again(made),
                None => unreachable!(),
            },
            None => unreachable!(),
        }
    }

    // A child that waited for its parent's fork begins again as it was born. Takes no memory.
    fn begin_again(&mut self, alloc: Global, child: Pid, born: Process)
        requires ready { list_any (at_key child.0) self.old.ready ≡ true }
        requires can { (h : Held) → held_of self.old.here child ≡ Some h → CanBeginWith born h }
        ensures here { self.new.here ≡ with_begun child born self.old.here }
        ensures ready { self.new.ready ≡ self.old.ready }
        ensures last { self.new.last ≡ self.old.last }
        ensures duty { self.new.duty ≡ self.old.duty }
    {
        self.told = None;
        if let Some(key) = self.keys.get(&child.0) {
            match self.residents.get_mut(*key) {
                Some(resident) => resident.begin_again(alloc, born),
                None => unreachable!(),
            }
        }
    }

    // The child of the next fork of the process with a pid. Takes no memory.
    fn next_child(&self, pid: u32) -> Option<Pid>
        ensures { result ≡ option_and_then child_again (held_of self.now.here (pid_of pid)) }
    {
        match self.resident(pid) {
            Some(resident) => resident.next_child(),
            None => None,
        }
    }

    // Whether a process is here and waits for its parent's fork. Takes no memory.
    fn waits_for_fork(&self, pid: Pid) -> bool
        ensures waits { result ≡ waits_for_fork_at self.now.here pid }
        ensures ordered { are_rising (pids_in self.now.here) ≡ true }
    {
        match self.resident(pid.0) {
            Some(resident) => resident.waits_for_fork(),
            None => false,
        }
    }

    /// The record of a process that is here and waits for its pages or for its parent's fork. Takes no memory.
    pub fn kept(&self, pid: Pid) -> Option<&Record>
        ensures { option_copied result ≡ record_at self.now.here pid }
    {
        match self.resident(pid.0) {
            Some(resident) => resident.kept(),
            None => None,
        }
    }

    // Whether the process with a pid is here and rolls forward. Takes no memory.
    fn rolls(&self, pid: u32) -> bool
        ensures rolls { result ≡ rolls_at self.now.here (pid_of pid) }
        ensures ordered { are_rising (pids_in self.now.here) ≡ true }
    {
        match self.resident(pid) {
            Some(resident) => resident.rolls(),
            None => false,
        }
    }

    // A process that cannot move is not asked again before a letter comes to it.
    fn rest(&mut self, pid: u32)
        requires stuck { is_stuck_at self.old.duty (pid_of pid) self.old.here ≡ true }
        requires there { list_any (at_key pid) self.old.ready ≡ true }
        ensures here { self.new.here ≡ self.old.here }
        ensures fewer { length self.new.ready + 1 ≡ length self.old.ready }
        ensures last { self.new.last ≡ self.old.last }
        ensures duty { self.new.duty ≡ self.old.duty }
    {
        self.ready.remove(&pid);
    }

    // The process with a pid was chosen.
    fn choose(&mut self, pid: u32)
        ensures here { self.new.here ≡ self.old.here }
        ensures last { self.new.last ≡ pid }
        ensures duty { self.new.duty ≡ self.old.duty }
    {
        self.last = pid;
    }

    /// A letter arrives at the process whose end it is for, if that is here. After want of memory no process
    /// has changed.
    pub fn deliver(&mut self, letter: &Letter) -> Result<(), NoMemory>
        requires { HasRoom self.old.here }
        ensures ok { OnOk result (self.new.here ≡ with_letter letter.now self.old.here) }
        ensures err { OnErr result (self.new.here ≡ self.old.here) }
        ensures last { self.new.last ≡ self.old.last }
        ensures duty { self.new.duty ≡ self.old.duty }
    {
        match letter.to {
            To::Proc(pid, _) => self.arrive(pid, letter),
            To::Tty(_) => Ok(()),
        }
    }

    // A letter arrives at the process with a pid, if it is here.
    fn arrive(&mut self, pid: Pid, letter: &Letter) -> Result<(), NoMemory>
        requires { HasRoom self.old.here }
        ensures ok { OnOk result (self.new.here ≡ map (λ e. if same_pid pid e.0 then (e.0, arrived_held e.1 letter.now) else e) self.old.here) }
        ensures err { OnErr result (self.new.here ≡ self.old.here) }
        ensures last { self.new.last ≡ self.old.last }
        ensures duty { self.new.duty ≡ self.old.duty }
    {
        match self.keys.get(&pid.0) {
            Some(key) => {
                self.ready.insert(pid.0)?;
                self.told = None;
                match self.residents.get_mut(*key) {
                    Some(resident) => resident.deliver(letter.copy()?),
                    None => unreachable!(),
                }
            }
            None => Ok(()),
        }
    }

    /// The process with a pid forks, if it runs here, and its child runs beside it. After want of memory either all are here as
    /// they were, or none is.
    pub fn bear(&mut self, alloc: Global, parent: Pid, child: Pid) -> Result<(), NoMemory>
        requires { CanBear parent child self.old.here }
        ensures ok { OnOk result (self.new.here ≡ with_born parent child self.old.here) }
        ensures err { OnErr result ((self.new.here ≡ self.old.here) ⊎ (self.new.here ≡ [])) }
        ensures last { OnOk result (self.new.last ≡ self.old.last) }
        ensures duty { self.new.duty ≡ self.old.duty }
    {
        if let Some(born) = self.fork(alloc, parent, child)? {
            if let Err(NoMemory) = self.add(child, Resident::running(born)) {
                self.let_all_go(alloc);
                return Err(NoMemory);
            }
        }
        Ok(())
    }

    /// Lets all processes go. Takes no memory.
    pub fn let_all_go(&mut self, alloc: Global)
        ensures here { self.new.here ≡ [] }
        ensures duty { self.new.duty ≡ self.old.duty }
    {
        self.told = None;
        self.keys = BTreeMap::new(alloc);
        self.residents = Slab::new(alloc);
        self.ready = BTreeSet::new(alloc);
        self.asking = BTreeSet::new(alloc);
    }

    // The process with a pid forks, if it runs here, and its child is handed over. After want of memory no process has changed.
    fn fork(&mut self, alloc: Global, parent: Pid, child: Pid) -> Result<Option<Process>, NoMemory>
        requires { CanForkAt parent self.old.here }
        ensures ok { IfOk result (λ born. ForksAt parent child self.old.here born self.new.here) }
        ensures err { OnErr result (self.new.here ≡ self.old.here) }
        ensures last { self.new.last ≡ self.old.last }
        ensures duty { self.new.duty ≡ self.old.duty }
    {
        match self.keys.get(&parent.0) {
            Some(key) => {
                self.ready.insert(parent.0)?;
                self.told = None;
                match self.residents.get_mut(*key) {
                    Some(resident) => resident.fork(alloc, child),
                    None => unreachable!(),
                }
            }
            None => Ok(None),
        }
    }

    /// A page comes to the process with a pid, if it is here. After want of memory no process has changed.
    pub fn come(
        &mut self,
        alloc: Global,
        pid: Pid,
        index: u16,
        page: &[u8; 256],
    ) -> Result<(), NoMemory>
        requires { (h : Held) → held_of self.old.here pid ≡ Some h → CanComeTo index page.now h }
        ensures ok { OnOk result (self.new.here ≡ with_page_come pid index page.now self.old.here) }
        ensures err { OnErr result (self.new.here ≡ self.old.here) }
        ensures last { self.new.last ≡ self.old.last }
        ensures duty { self.new.duty ≡ self.old.duty }
    {
        match self.keys.get(&pid.0) {
            Some(key) => {
                self.ready.insert(pid.0)?;
                self.told = None;
                match self.residents.get_mut(*key) {
                    Some(resident) => {
                        resident.come(alloc, index, page);
                        Ok(())
                    }
                    None => unreachable!(),
                }
            }
            None => Ok(()),
        }
    }

    /// The lowest page that the lowest process here has not asked for, which is asked for now; none where no process lacks
    /// one. Takes no memory.
    pub fn ask(&mut self) -> Option<(Pid, u16)>
        ensures asks { IfSome result (λ r. AsksNext self.old.here self.new.here r.0 r.1) }
        ensures none { result ≡ None → (any_lacks self.old.here ≡ false) × (self.new.here ≡ self.old.here) }
        ensures last { self.new.last ≡ self.old.last }
        ensures duty { self.new.duty ≡ self.old.duty }
    {
        'processes: while let Some(pid) = self.next_asking() {
            match self.ask_of(pid) {
                Some(page) => return Some((Pid(pid), page)),
                None => self.has_asked(pid),
            }
        }
        None
    }

    // The lowest of those that may have pages to ask for. Takes no memory.
    fn next_asking(&self) -> Option<u32>
        ensures first { result ≡ first_of self.now.asking }
        ensures none { result ≡ None → any_lacks self.now.here ≡ false }
        ensures lowest { (pid : ℕ) → result ≡ Some pid → is_lowest_lacking (pid_of pid) self.now.here ≡ true }
    {
        self.asking.first().copied()
    }

    // The lowest page that the process with a pid has not asked for, if it is here; it is asked for now.
    fn ask_of(&mut self, pid: u32) -> Option<u16>
        ensures asks { AsksOf (pid_of pid) self.old.here result self.new.here }
        ensures asking { self.new.asking ≡ self.old.asking }
        ensures last { self.new.last ≡ self.old.last }
        ensures duty { self.new.duty ≡ self.old.duty }
    {
        self.told = None;
        match self.keys.get(&pid) {
            Some(key) => match self.residents.get_mut(*key) {
                Some(resident) => resident.ask(),
                None => unreachable!(),
            },
            None => None,
        }
    }

    // A process that has asked for all its pages is not asked again.
    fn has_asked(&mut self, pid: u32)
        requires lacks { lacks_none_at (pid_of pid) self.old.here ≡ true }
        requires there { list_any (at_key pid) self.old.asking ≡ true }
        ensures here { self.new.here ≡ self.old.here }
        ensures fewer { length self.new.asking + 1 ≡ length self.old.asking }
        ensures last { self.new.last ≡ self.old.last }
        ensures duty { self.new.duty ≡ self.old.duty }
    {
        self.asking.remove(&pid);
    }

    /// Whether a process here waits for its pages. Takes no memory.
    pub fn waits(&self) -> bool
        ensures { result ≡ any_waits self.now.here }
    {
        if self.told.is_some() {
            return false;
        }
        self.any_waits()
    }

    // The same, where each is asked. Takes no memory.
    fn any_waits(&self) -> bool
        ensures { result ≡ any_waits self.now.here }
    {
        for (_, key) in &self.keys {
            match self.residents.get(*key) {
                Some(resident) => {
                    if resident.waits() {
                        return true;
                    }
                }
                None => unreachable!(),
            }
        }
        false
    }

    /// Lets the process with a pid go, if it is here. Takes no memory.
    pub fn let_go(&mut self, pid: Pid)
        ensures here { self.new.here ≡ filter (λ e. not (same_pid e.0 pid)) self.old.here }
        ensures last { self.new.last ≡ self.old.last }
        ensures duty { self.new.duty ≡ self.old.duty }
    {
        if let Some(key) = self.keys.remove(&pid.0) {
            self.told = None;
            self.ready.remove(&pid.0);
            self.asking.remove(&pid.0);
            clear(&mut self.residents, key);
        }
    }

    /// Each process with its steps, by rising pid: None exactly where one of them can move or waits for a page. Where that is
    /// kept no process is asked.
    pub fn rests(&self, alloc: Global) -> Result<Option<Shared<List<(Pid, u64)>>>, NoMemory>
        ensures rests { IfOk result (λ rests. rests ≡ (if are_settled self.now.duty self.now.here then Some (rests_in self.now.here) else None)) }
        ensures ordered { are_rising (pids_in self.now.here) ≡ true }
    {
        match &self.told {
            Some(told) => Ok(Some(told.copy()?)),
            None => self.settled(alloc),
        }
    }

    /// Keeps what they tell until one of them changes. Contracts see no change.
    pub fn keep_told(&mut self, alloc: Global) -> Result<(), NoMemory>
        ensures { self.new ≡ self.old }
    {
        if self.told.is_none() {
            self.told = self.settled(alloc)?;
        }
        Ok(())
    }

    // What they have to tell, where each is asked.
    fn settled(&self, alloc: Global) -> Result<Option<Shared<List<(Pid, u64)>>>, NoMemory>
        ensures { IfOk result (λ rests. rests ≡ (if are_settled self.now.duty self.now.here then Some (rests_in self.now.here) else None)) }
    {
        match self.listed(alloc)? {
            Some(rests) => Ok(Some(Shared::new(alloc, rests)?)),
            None => Ok(None),
        }
    }

    // The same as a list.
    fn listed(&self, alloc: Global) -> Result<Option<List<(Pid, u64)>>, NoMemory>
        ensures { IfOk result (λ rests. rests ≡ (if are_settled self.now.duty self.now.here then Some (rests_in self.now.here) else None)) }
    {
        let mut rests = List::from_vec(Vec::with_capacity(alloc, self.keys.len())?);
        for (pid, key) in &self.keys {
            match self.residents.get(*key) {
                Some(resident) => {
                    if !self.is_at_rest(*pid, resident) {
                        return Ok(None);
                    }
                    rests.push((Pid(*pid), resident.steps()))?;
                }
                None => unreachable!(),
            }
        }
        Ok(Some(rests))
    }
}

// Drops the process in a slot, if there is one. Takes no memory.
fn clear(residents: &mut Slab<Resident>, key: usize)
    ensures { Updates residents.old residents.new key None }
{
    residents.try_remove(key);
}

// Steps that were made, or want of memory where none was.
fn made_or_refused(made: u32) -> Result<u32, NoMemory>
    ensures ok { IfOk result (λ n. (n ≡ made) × (0 < made)) }
    ensures err { OnErr result (made ≡ 0) }
{
    if made == 0 { Err(NoMemory) } else { Ok(made) }
}
