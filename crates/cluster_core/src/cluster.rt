//! A cluster with its processes.
ghost use Rattle.std.specs.Prelude.{◌≡◌, ◌<◌, ◌^◌, ◌-◌, [], Some, None, OnErr, OnOk, IfErr, IfOk, IfSome, is_some, option_map, true, if◌then◌else◌};
ghost use Rattle.std.specs.Option.{option_copied};
ghost use Rattle.std.specs.Arc.{arc_value};
ghost use Rattle.sys_text.specs.Valid.{is_system};
ghost use Rattle.cert_sched.specs.Scripted.{is_server};
ghost use Rattle.page_accounts.specs.Booting.{IsAhead};
ghost use Rattle.cluster_core.specs.Serving.{HurtsServer, IsFailing};
ghost use Rattle.cluster_core.specs.View.{head_of, after_sent, renewed_by, renewed_by_head, counted_once, disk_calls, failed_at, failing_in, tried_once, with_server};
ghost use Rattle.cluster_core.specs.Follows.{Follows};
ghost use Rattle.cluster_core.specs.Returned.{returned};
ghost use Rattle.cluster_core.specs.Calls.{Absorbs, absorbed, FollowsSome, GoesOn, HurtBy, HurtIs, is_resting, IsFirst, KeepsPlace, ReadyFor, RestsIn, rests_of, StopsBy, WorkIs};

use crate::booting::{limits_of, parts_at_boot};
use crate::falling::drop_fallen;
use crate::hurt::Hurt;
use crate::known::Known;
use crate::owed::Owed;
use crate::serving::serve;
use crate::taking_in::take_entry;
use crate::work::work_on;
use crate::worked::Worked;
use backup_records::records::Records;
use birth_notice::family::Family;
use bus_msg::entry::{Entry, Post, What};
use bus_msg::shared::Shared;
use cert_sched::start::placement_at_boot;
use channel_table::placement::Placement;
use page_server::disk::PageDisk;
use page_server::pager::Pager;
use residents::residents::Residents;
use std::alloc::Global;
use std::collections::VecDeque;
use std::marker::Model;
use std::sync::Arc;
use sys_text::system::System;
use t32_base::lists::List;
use t32_base::process::{ClusterNo, Pid};
use t32_base::streams::NoMemory;

/// A cluster of a system: the placement, the processes at home there, the records of the processes whose backup
/// is there, the children that never synchronised, the processes here that wait for their new backup, the accounts of
/// pages and the fetches that wait where it is one of the two page servers, and the posts that it has to send.
#[derive(Drop)]
pub struct Cluster<D: PageDisk> {
    alloc: Global,
    system: Arc<System>,
    number: ClusterNo,
    cursor: u64,
    places: Placement,
    here: Residents,
    records: Records,
    family: Family,
    owed: Owed,
    server: Option<Pager<D>>,
    queue: VecDeque<Post>,
    tried: bool,
    steps: u64,
    failed: Option<u64>,
}

impl<D: PageDisk> Model for Cluster<D> {
    ghost use Rattle.std.specs.Arc.{arc_value};
    ghost use Rattle.std.specs.Prelude.{[], false};
    ghost use Rattle.cluster_core.specs.View.{ClusterView};
    ghost use Rattle.cluster_core.specs.Parts.{IsSound};

    ghost Value = { ClusterView };

    ghost view = { λ c. record {
      system = arc_value c.system;
      number = c.number;
      cursor = c.cursor;
      places = c.places;
      here = (c.here).here;
      records = c.records;
      family = c.family;
      owed = c.owed;
      server = c.server;
      queue = (c.queue).items;
      tried = c.tried;
      steps = c.steps;
      failed = c.failed;
    } };

    ghost invariant = { λ c. IsSound (arc_value c.system) c.number c.cursor c.places (c.here).duty (c.here).here (c.queue).items };
}

// A process whose new backup heads these posts, after it has run, counts from where it stands. Takes no memory.
fn renew(here: &mut Residents, queue: &VecDeque<Post>)
    ensures here { here.new.here ≡ renewed_by_head queue.now.items here.old.here }
    ensures duty { here.new.duty ≡ here.old.duty }
{
    if let Some(head) = queue.front() {
        renew_by(here, &head.what);
    }
}

// So does one whose new backup this is. Takes no memory.
fn renew_by(here: &mut Residents, sent: &What)
    ensures here { here.new.here ≡ renewed_by sent.now here.old.here }
    ensures duty { here.new.duty ≡ here.old.duty }
{
    if let What::Rebackup {
        fresh: true,
        recs,
        ..
    } = sent
    {
        if let Some(rec) = recs.get().as_slice().first() {
            here.renewed(rec.pid);
        }
    }
}

impl<D: PageDisk + Drop> Cluster<D> {
    /// A cluster at its start: the placement of the roots, and the roots at home there with their images,
    /// linked by the channels; and the records of the roots whose backup is there, with their state at the start. A
    /// page server has a disk, and puts each page of each root. A call of the disk that fails leaves a cluster that has
    /// failed, in which there is no process.
    pub fn boot(
        alloc: Global,
        system: &Arc<System>,
        number: ClusterNo,
        disk: Option<D>,
    ) -> Result<Cluster<D>, NoMemory>
        requires valid { is_system (arc_value system.now) ≡ true }
        requires has { number.0 < (arc_value system.now).clusters }
        requires disk { is_some disk ≡ is_server (arc_value system.now) number }
        ensures follows { IfOk result (λ c. c.failed ≡ None → IfSome disk (λ d. IsAhead (D.counts d)) → Follows (arc_value system.now) [] c) }
        ensures begins { IfOk result (IsFirst (arc_value system.now) number) }
        ensures disk { IfOk result (λ c. failing_in c.server ≡ option_map (λ d. (D.counts d).failing) disk) }
        ensures fails { IfOk result (λ c. IfSome c.failed (λ call. IsFailing c.server call × (c.here ≡ []))) }
    {
        let places = placement_at_boot(alloc, system)?;
        let parts = parts_at_boot(alloc, system, number, &places, disk)?;
        Ok(Cluster {
            alloc,
            system: system.clone()?,
            number,
            cursor: 0,
            places,
            here: parts.here,
            records: parts.records,
            family: Family::none(alloc),
            owed: Owed::none(alloc),
            server: parts.server,
            queue: VecDeque::new(alloc),
            tried: false,
            steps: 0,
            failed: parts.failed,
        })
    }

    /// A cluster that has come back, behind its return in the log: it has the placement and the children that never
    /// synchronised as they are then, and counts its kernel steps on from those that it made before. It has no process,
    /// no record and no disk. Only its system's handle takes memory.
    pub fn fresh(
        alloc: Global,
        system: &Arc<System>,
        number: ClusterNo,
        places: Placement,
        family: Family,
        cursor: u64,
        steps: u64,
    ) -> Result<Cluster<D>, NoMemory>
        requires valid { is_system (arc_value system.now) ≡ true }
        requires has { number.0 < (arc_value system.now).clusters }
        ensures { IfOk result (λ c. c ≡ returned (arc_value system.now) number places family cursor steps) }
    {
        Ok(Cluster {
            alloc,
            number,
            cursor,
            places,
            here: Residents::none(alloc, limits_of(system)),
            records: Records::none(alloc),
            family,
            owed: Owed::none(alloc),
            server: None,
            queue: VecDeque::new(alloc),
            tried: false,
            steps,
            failed: None,
            system: system.clone()?,
        })
    }

    /// What it knows of the log beside its own processes.
    pub fn known(&self) -> Result<Known, NoMemory>
        ensures places { IfOk result (λ known. known.places ≡ self.now.places) }
        ensures family { IfOk result (λ known. known.family ≡ self.now.family) }
    {
        Ok(Known {
            places: self.places.copy()?,
            family: self.family.copy()?,
        })
    }

    /// The same cluster behind its return at a later place of the log, with what it knows then. It counts its kernel steps on,
    /// and has no process, no record and no disk.
    pub fn come_back(&self, known: Known, cursor: u64) -> Result<Cluster<D>, NoMemory>
        requires valid { is_system self.now.system ≡ true }
        requires has { self.now.number.0 < self.now.system.clusters }
        ensures { IfOk result (λ c. c ≡ returned self.now.system self.now.number known.places known.family cursor self.now.steps) }
    {
        Cluster::fresh(
            self.alloc,
            &self.system,
            self.number,
            known.places,
            known.family,
            cursor,
            self.steps,
        )
    }

    /// The head of the queue: none exactly where the queue is empty. Takes no memory.
    pub fn head(&self) -> Option<&Post>
        ensures { option_copied result ≡ head_of self.now.queue }
    {
        self.queue.front()
    }

    /// How many entries of the log it has taken in. Takes no memory.
    pub fn cursor(&self) -> u64
        ensures { result ≡ self.now.cursor }
    {
        self.cursor
    }

    /// How many kernel steps it has made: entries taken in, works, and heads that were tried. The count stays
    /// at the greatest u64 once it is there.
    pub fn steps(&self) -> u64
        ensures { result ≡ self.now.steps }
    {
        self.steps
    }

    /// How many calls of its disk were carried out: 0 without one. The count stays at the greatest u64 once it is
    /// there. Takes no memory.
    pub fn disk_calls(&self) -> u64
        ensures { result ≡ disk_calls self.now }
    {
        match &self.server {
            Some(pager) => pager.disk_calls(),
            None => 0,
        }
    }

    /// The call of its disk that failed, by its number from 0, if one did. Takes no memory.
    pub fn failed(&self) -> Option<u64>
        ensures { result ≡ self.now.failed }
    {
        self.failed
    }

    /// Its number. Takes no memory.
    pub fn number(&self) -> ClusterNo
        ensures { result ≡ self.now.number }
    {
        self.number
    }

    /// The head of the queue is about to be transmitted. Takes no memory.
    pub fn tried(&mut self)
        requires { is_some (head_of self.old.queue) ≡ true }
        ensures tried { self.new ≡ tried_once self.old }
        ensures follows { GoesOn self.old self.new }
    {
        self.tried = true;
        self.count_step();
    }

    /// The head of the queue, which was tried, was sent: it stands there no more. Where it was the new backup of a process that has
    /// run, that counts from where it stands. Takes no memory.
    pub fn sent(&mut self)
        requires head { is_some (head_of self.old.queue) ≡ true }
        requires tried { self.old.tried ≡ true }
        ensures { self.new ≡ after_sent self.old self.old.queue }
    {
        renew(&mut self.here, &self.queue);
        self.queue.pop_front();
        self.tried = false;
    }

    /// Takes in the next entry of the log: a letter arrives at the process here whose end it is for, and a
    /// process that ended is let go; the record of the receiver saves the letter, that of the sender counts it,
    /// and the record of a process that ended goes. A page server notes what is asked for and what came. A page comes to the
    /// process here that waits for it, which goes on from its record once all have come. At its own birth the parent forks, and the
    /// child runs beside it; any birth joins the children that never synchronised, and one that synchronised or ended leaves
    /// them. At the loss of another cluster the processes that this moves here wait for their pages, or for their parent's
    /// fork, and their records are kept no more; those that are fullbacks wait for their new backup too, while another cluster
    /// lives. A new backup brings its records here where it is to this cluster. A queued post that
    /// falls at the entry is to be sent no more. A call of its disk that fails leaves a cluster that has failed, in which there is no
    /// process. After want of memory nothing is said of the cluster but that it can be dropped.
    #[inline(always)]
    pub fn absorb(&mut self, entry: &Entry) -> Result<(), Hurt>
        requires room { self.old.cursor < 2 ^ 64 - 1 }
        requires ready { ReadyFor entry.now self.old }
        ensures absorbed { OnOk result (self.new ≡ with_server self.new.server (absorbed self.old entry.now)) }
        ensures follows { OnOk result (Absorbs entry.now self.old self.new) }
        ensures disk { OnOk result (failing_in self.new.server ≡ failing_in self.old.server) }
        ensures hurts { IfErr result (λ hurt. HurtBy entry.now self.old hurt self.new) }
    {
        let taken = self.take_in(entry);
        if let Err(Hurt::Disk(fault)) = taken {
            self.fail(fault.call);
        }
        taken
    }

    // The same, but that a call of the disk that fails is not noted.
    #[inline(always)]
    fn take_in(&mut self, entry: &Entry) -> Result<(), Hurt>
        requires room { self.old.cursor < 2 ^ 64 - 1 }
        requires ready { ReadyFor entry.now self.old }
        ensures absorbed { OnOk result (self.new ≡ with_server self.new.server (absorbed self.old entry.now)) }
        ensures follows { OnOk result (Absorbs entry.now self.old self.new) }
        ensures disk { OnOk result (failing_in self.new.server ≡ failing_in self.old.server) }
        ensures hurts { IfErr result (λ hurt. StopsBy entry.now self.old hurt self.new) }
    {
        serve(&mut self.server, &self.places, entry)?;
        drop_fallen(&self.places, entry, &mut self.queue);
        let taken = take_entry(
            self.alloc,
            self.number,
            &mut self.places,
            &mut self.records,
            &mut self.family,
            &mut self.owed,
            &mut self.here,
            entry,
        );
        if let Err(NoMemory) = taken {
            self.here = Residents::none(self.alloc, self.here.limits());
            return Err(Hurt::NoMemory);
        }
        self.cursor += 1;
        self.count_step();
        Ok(())
    }

    /// Does the next thing that is to be done here. The first of the page servers that live queues its answer to the earliest
    /// fetch that waits. Else the lowest page is asked for that the lowest process here lacks and has not asked for. Else a
    /// process has its turn: the next one in rising pid order that can move, after the one that had it
    /// last, cyclically. Where it has read `syncreads` letters or made `syncsteps` steps since its last synchronisation it synchronises: its
    /// changed pages are queued, and then its state. Else it runs, up to something that it sends or until it is due, or up to its fork,
    /// whose birth is queued. Where it is due or is to end, and has a child that never synchronised, that child synchronises in its place, its own
    /// children first; while that child rolls forward, the process is passed over. The cluster rests exactly where no process here can move
    /// or waits for its pages; else it answers that it waits where one waits for pages and none has its turn. Which process has its turn,
    /// and that one has where one can move, no clause says.
    /// A call of its disk that fails leaves a cluster that has failed, in which there is no process. After want of memory nothing
    /// is said of the cluster but that it can be dropped.
    pub fn work(&mut self) -> Result<Worked, Hurt>
        requires empty { self.old.queue ≡ [] }
        requires follows { FollowsSome self.old }
        ensures follows { OnOk result (GoesOn self.old self.new) }
        ensures work { IfOk result (λ worked. WorkIs self.old worked self.new) }
        ensures place { OnOk result (KeepsPlace self.old self.new) }
        ensures hurts { IfErr result (λ hurt. HurtIs self.old hurt self.new) }
    {
        let worked = self.do_work();
        if let Err(Hurt::Disk(fault)) = worked {
            self.fail(fault.call);
        }
        worked
    }

    // The same, but that a call of the disk that fails is not noted.
    fn do_work(&mut self) -> Result<Worked, Hurt>
        requires empty { self.old.queue ≡ [] }
        requires follows { FollowsSome self.old }
        ensures follows { OnOk result (GoesOn self.old self.new) }
        ensures work { IfOk result (λ worked. WorkIs self.old worked self.new) }
        ensures place { OnOk result (KeepsPlace self.old self.new) }
        ensures hurts { IfErr result (HurtsServer self.old.server) }
        ensures same { OnErr result (self.new ≡ with_server self.new.server self.old) }
    {
        let worked = work_on(
            self.alloc,
            self.number,
            &self.places,
            &self.family,
            &self.owed,
            &mut self.here,
            &mut self.server,
            &mut self.queue,
        )?;
        self.count_step();
        Ok(worked)
    }

    /// Each process here with its steps: None exactly where something here can move or waits for a page.
    pub fn rests(&self) -> Result<Option<Shared<List<(Pid, u64)>>>, NoMemory>
        ensures rests { IfOk result (λ rests. rests ≡ (if is_resting self.now then Some (rests_of self.now) else None)) }
        ensures idle { IfOk result (λ rests. IfSome rests (RestsIn self.now)) }
    {
        self.here.rests(self.alloc)
    }

    // A call of its disk failed, in a kernel step.
    fn fail(&mut self, call: u64)
        ensures { self.new ≡ failed_at call self.old }
    {
        self.here = Residents::none(self.alloc, self.here.limits());
        self.failed = Some(call);
        self.count_step();
    }

    // One kernel step more.
    fn count_step(&mut self)
        ensures { self.new ≡ counted_once self.old }
    {
        self.steps = self.steps.saturating_add(1);
    }
}
