//! The processes of a placement, in the order of their births.
ghost use Rattle.std.specs.Prelude.{◌≡◌, true, ◌&&◌, not, List, [], ◌∷◌, ◌++◌, map, find, length, slice_get, None, OnOk, OnErr, IfOk};
ghost use Rattle.std.specs.Map.Iter.{ShowsInOrder, deref};
ghost use Rattle.bus_msg.specs.declared.placed.Placed.{Placed};
ghost use Rattle.bus_msg.specs.Places.{is_cluster, same_pid};
ghost use Rattle.bus_msg.specs.PlacedAfter.{after_loss, after_exit, after_sync, moved_to};
ghost use Rattle.channel_table.specs.Changes.{with_backup, pids_differ};

use bus_msg::placed::Placed;
use indexmap::IndexMap;
use indexmap::map::Values;
use std::alloc::Global;
use std::marker::Model;
use t32_base::process::{ClusterNo, Pid};
use t32_base::streams::NoMemory;

/// Where each process is placed, found by its number.
#[derive(Drop)]
pub struct Processes {
    map: IndexMap<u32, Placed>,
}

impl Model for Processes {
    ghost use Rattle.std.specs.Prelude.{List};
    ghost use Rattle.std.specs.Coded.{coded_list};
    ghost use Rattle.indexmap.specs.IndexMap.{values};
    ghost use Rattle.bus_msg.specs.declared.placed.Placed.{Placed};
    ghost use Rattle.channel_table.specs.Keys.{IsTable};

    ghost Value = { List Placed };

    ghost view = { λ p. values p.map };

    ghost invariant = { λ p. IsTable p.map.entries };
}

impl Processes {
    /// No processes yet. Takes no memory.
    pub fn new(alloc: Global) -> Self
        ensures { result ≡ [] }
    {
        Processes {
            map: IndexMap::new(alloc),
        }
    }

    /// These processes, in this order.
    pub fn copy_of(alloc: Global, placed: &[Placed]) -> Result<Self, NoMemory>
        requires { pids_differ placed.now ≡ true }
        ensures { IfOk result (λ p. p ≡ placed.now) }
    {
        let mut processes = Processes::new(alloc);
        for one in placed {
            processes.push(*one)?;
        }
        Ok(processes)
    }

    /// Where a process is placed.
    pub fn get(&self, pid: Pid) -> Option<Placed>
        ensures { result ≡ find (λ q. same_pid q.pid pid) self.now }
    {
        self.map.get(&pid.0).copied()
    }

    /// Where a process is placed that has not ended.
    pub fn unended(&self, pid: Pid) -> Option<Placed>
        ensures { result ≡ find (λ q. same_pid q.pid pid && not q.ended) self.now }
    {
        match self.map.get(&pid.0) {
            Some(placed) => { if placed.ended { None } else { Some(*placed) } }
            None => None,
        }
    }

    /// The processes in the order of their births.
    pub fn iter(&self) -> Values<'_, u32, Placed>
        ensures rest { result ≡ self.now }
        ensures runs { ShowsInOrder (deref {X = Placed}) }
    {
        self.map.values()
    }

    pub fn len(&self) -> usize
        ensures number { result ≡ length self.now }
        ensures different { pids_differ self.now ≡ true }
    {
        self.map.len()
    }

    /// The process at a place of the order of births, from 0.
    pub fn at(&self, index: usize) -> Option<Placed>
        ensures { result ≡ slice_get self.now index }
    {
        match self.map.get_index(index) {
            Some((_, placed)) => Some(*placed),
            None => None,
        }
    }

    /// Puts a process last. After want of memory the processes are as they were.
    pub fn push(&mut self, placed: Placed) -> Result<(), NoMemory>
        requires { find (λ q. same_pid q.pid placed.pid) self.old ≡ None }
        ensures ok { OnOk result (self.new ≡ self.old ++ placed ∷ []) }
        ensures err { OnErr result (self.new ≡ self.old) }
    {
        self.map.insert(placed.pid.0, placed)?;
        Ok(())
    }

    /// Takes out the process that was put last. Takes no memory.
    pub fn pop(&mut self)
        ensures { (before : List Placed) (last : Placed) → self.old ≡ before ++ last ∷ [] → self.new ≡ before }
    {
        self.map.pop();
    }

    /// The process has ended.
    pub fn end(&mut self, pid: Pid)
        ensures { self.new ≡ map (after_exit pid) self.old }
    {
        if let Some(placed) = self.map.get_mut(&pid.0) {
            placed.ended = true;
        }
    }

    /// The process has synchronised.
    pub fn sync(&mut self, pid: Pid)
        ensures { self.new ≡ map (after_sync pid) self.old }
    {
        if let Some(placed) = self.map.get_mut(&pid.0) {
            placed.synced = true;
        }
    }

    /// The process has its backup in `to`; a fresh one has synchronised by that.
    pub fn set_backup(&mut self, pid: Pid, to: ClusterNo, fresh: bool)
        ensures { self.new ≡ map (with_backup to fresh pid) self.old }
    {
        if let Some(placed) = self.map.get_mut(&pid.0) {
            placed.backup = Some(to);
            placed.synced |= fresh;
        }
    }

    /// The cluster `k` is lost.
    pub fn lose(&mut self, k: ClusterNo)
        ensures { self.new ≡ map (after_loss k) self.old }
    {
        for index in 0..self.map.len() {
            let placed = &mut self.map[index];
            *placed = moved_by_loss(k, *placed);
        }
    }

    /// The same processes.
    pub fn copy(&self) -> Result<Self, NoMemory>
        ensures { IfOk result (λ copy. copy ≡ self.now) }
    {
        Ok(Processes {
            map: self.map.clone()?,
        })
    }
}

// Where a process is placed after the loss of the cluster `k`.
fn moved_by_loss(k: ClusterNo, placed: Placed) -> Placed
    ensures { result ≡ after_loss k placed }
{
    if placed.ended {
        placed
    } else if placed.home == k {
        moved_home(k, placed)
    } else if has_backup_in(k, placed.backup) {
        Placed {
            backup: None,
            lost: Some(k),
            ..placed
        }
    } else {
        placed
    }
}

// Where a process is placed whose home was the lost cluster `k`.
fn moved_home(k: ClusterNo, placed: Placed) -> Placed
    ensures { result ≡ moved_to placed k placed.backup }
{
    match placed.backup {
        Some(backup) => Placed {
            home: backup,
            backup: None,
            lost: Some(k),
            ..placed
        },
        None => placed,
    }
}

fn has_backup_in(k: ClusterNo, backup: Option<ClusterNo>) -> bool
    ensures { result ≡ is_cluster backup k }
{
    match backup {
        Some(backup) => backup == k,
        None => false,
    }
}
