//! The table of the placement.
ghost use Rattle.std.specs.Prelude.{◌≡◌, ◌+◌, ◌-◌, ◌^◌, ◌<◌, ◌≤◌, ◌==◌, ◌&&◌, ◌||◌, not, true, false, if◌then◌else◌, bit_or, [], ◌∷◌, None, map, count_by, length, slice_get, IsTrue, OnOk, OnErr, IfOk};
ghost use Rattle.std.specs.List.{list_all, list_any, range_with_len};
ghost use Rattle.std.specs.Option.{option_map, option_map_or};
ghost use Rattle.bus_msg.specs.Places.{Places, boot_cluster, boot_places, same_cluster, lives_in, never_lost, next_serial_in, servers_in, all_clusters, placed_at, unended_at, is_at_home, is_covered};
ghost use Rattle.bus_msg.specs.PlacedAfter.{with_cluster, with_each, with_birth, lost_cluster, returned_cluster, after_loss, after_rebackup, placed_after, what};
ghost use Rattle.bus_msg.specs.Route.{bits_of, letter_dests, route};
ghost use Rattle.channel_table.specs.Changes.{given_backup, CanBeBorn, IsNextChild, CanBeAbsorbed, is_birth, IsRoutable, home_list, backup_list, bits_onto, pids_differ};

use crate::cluster::{Cluster, bring_back, count_birth, lose, uncount_birth};
use crate::processes::Processes;
use bus_msg::entry::{Dests, Entry, Post, What};
use bus_msg::placed::Placed;
use std::alloc::Global;
use std::marker::Model;
use t32_base::letter::{BackRec, To};
use t32_base::process::{ClusterNo, Pid};
use t32_base::streams::NoMemory;

/// Which clusters live, the two that serve pages, and where each process has its home and its backup.
/// There are at most 16 clusters.
#[derive(Drop)]
pub struct Placement {
    clusters: Vec<Cluster>,
    pager: (ClusterNo, ClusterNo),
    processes: Processes,
}

impl Model for Placement {
    ghost use Rattle.std.specs.Prelude.{◌≤◌, length};
    ghost use Rattle.bus_msg.specs.Places.{Places};

    ghost Value = { Places };

    ghost view = { λ p. record { clusters = p.clusters.items; pager = p.pager; placed = p.processes } };

    ghost invariant = { λ p. length p.clusters.items ≤ 16 };
}

impl Placement {
    /// The placement at boot: all clusters live, and the processes are the roots, in this order.
    pub fn boot(
        alloc: Global,
        clusters: u8,
        pager: (ClusterNo, ClusterNo),
        roots: &[Placed],
    ) -> Result<Placement, NoMemory>
        requires clusters { clusters ≤ 16 }
        requires serials { length roots.now < 2 ^ 32 - 1 }
        requires pids { pids_differ roots.now ≡ true }
        ensures { IfOk result (λ places. places ≡ boot_places clusters pager roots.now) }
    {
        Ok(Placement {
            clusters: clusters_at_boot(alloc, clusters, roots)?,
            pager,
            processes: Processes::copy_of(alloc, roots)?,
        })
    }

    /// An equal placement.
    pub fn copy(&self) -> Result<Placement, NoMemory>
        ensures { IfOk result (λ copy. copy ≡ self.now) }
    {
        Ok(Placement {
            clusters: self.clusters.clone()?,
            pager: self.pager,
            processes: self.processes.copy()?,
        })
    }

    // ---- the clusters

    /// The number of clusters, which live or are lost.
    pub fn clusters(&self) -> u8
        ensures number { result ≡ length self.now.clusters }
        ensures most { result ≤ 16 }
    {
        self.clusters.len() as u8
    }

    /// Whether the cluster `k` lives. There is none from 16 on.
    pub fn living(&self, k: ClusterNo) -> bool
        ensures lives { result ≡ lives_in self.now k }
        ensures below { IsTrue result → k.0 < 16 }
    {
        match self.clusters.get(usize::from(k.0)) {
            Some(cluster) => cluster.lives(),
            None => false,
        }
    }

    /// The serial of the next child that is forked in the cluster `k`; 0 where there is no such cluster.
    pub fn next_serial(&self, k: ClusterNo) -> u32
        ensures { result ≡ next_serial_in self.now k }
    {
        match self.clusters.get(usize::from(k.0)) {
            Some(cluster) => cluster.next_serial(),
            None => 0,
        }
    }

    fn was_never_lost(&self, k: ClusterNo) -> bool
        ensures { result ≡ never_lost self.now k }
    {
        match self.clusters.get(usize::from(k.0)) {
            Some(cluster) => cluster.was_never_lost(),
            None => false,
        }
    }

    /// The first of the two page servers that was never lost.
    pub fn first_server(&self) -> Option<ClusterNo>
        ensures { result ≡ slice_get (servers_in self.now) 0 }
    {
        let (first, second) = self.pager;
        if self.was_never_lost(first) {
            Some(first)
        } else if self.was_never_lost(second) {
            Some(second)
        } else {
            None
        }
    }

    /// Whether the loss of the cluster `k` would lose no process and not the last page server.
    pub fn covered(&self, k: ClusterNo) -> bool
        ensures { result ≡ is_covered self.now k }
    {
        self.processes_survive(k) && self.has_server_beside(k)
    }

    fn processes_survive(&self, k: ClusterNo) -> bool
        ensures { result ≡ list_all (λ q. not (is_at_home k q) || option_map_or (lives_in self.now) q.backup false) self.now.placed }
    {
        self.processes.iter().all(|placed| self.survives(k, placed))
    }

    // Whether a process is not at home in `k`, or has a backup that lives.
    fn survives(&self, k: ClusterNo, placed: &Placed) -> bool
        ensures { result ≡ (not (is_at_home k placed.now) || option_map_or (lives_in self.now) placed.now.backup false) }
    {
        if placed.home != k || placed.ended {
            return true;
        }
        match placed.backup {
            Some(backup) => self.living(backup),
            None => false,
        }
    }

    fn has_server_beside(&self, k: ClusterNo) -> bool
        ensures { result ≡ list_any (λ s. not (same_cluster s k)) (servers_in self.now) }
    {
        let (first, second) = self.pager;
        (self.was_never_lost(first) && first != k) || (self.was_never_lost(second) && second != k)
    }

    // ---- the processes

    /// The number of processes that were ever placed. No two of them have one pid.
    pub fn len(&self) -> usize
        ensures number { result ≡ length self.now.placed }
        ensures different { pids_differ self.now.placed ≡ true }
    {
        self.processes.len()
    }

    /// The process at a place of the order of births, from 0, roots first.
    pub fn at(&self, index: usize) -> Option<Placed>
        ensures { result ≡ slice_get self.now.placed index }
    {
        self.processes.at(index)
    }

    /// Where a process is placed, also one that has ended.
    pub fn get(&self, pid: Pid) -> Option<Placed>
        ensures { result ≡ placed_at self.now pid }
    {
        self.processes.get(pid)
    }

    /// The home of a process, also of one that has ended.
    pub fn home(&self, pid: Pid) -> Option<ClusterNo>
        ensures { result ≡ option_map (λ q. q.home) (placed_at self.now pid) }
    {
        match self.processes.get(pid) {
            Some(placed) => Some(placed.home),
            None => None,
        }
    }

    /// Where a process is placed that has not ended.
    pub fn unended(&self, pid: Pid) -> Option<Placed>
        ensures { result ≡ unended_at self.now pid }
    {
        self.processes.unended(pid)
    }

    // ---- what changes it

    /// A child is born, with its parent's home, backup, mode and lost cluster, and the next serial of that
    /// home is used. Nothing changes where the parent is not placed, or after want of memory.
    pub fn add_birth(&mut self, parent: Pid, child: Pid) -> Result<(), NoMemory>
        requires { CanBeBorn self.old parent child }
        ensures ok { OnOk result (self.new ≡ with_birth self.old child (placed_at self.old parent)) }
        ensures err { OnErr result (self.new ≡ self.old) }
    {
        match self.processes.get(parent) {
            Some(parent) => {
                self.processes.push(Placed {
                    pid: child,
                    ended: false,
                    synced: false,
                    ..parent
                })?;
                count_birth(&mut self.clusters, parent.home);
                Ok(())
            }
            None => Ok(()),
        }
    }

    // A child is born that is the next of its parent: as its pid has 32 bits, the serials of its home are not used up.
    fn add_next(&mut self, parent: Pid, child: u32) -> Result<(), NoMemory>
        requires { IsNextChild self.old parent (record { 0 = child }) }
        ensures ok { OnOk result (self.new ≡ with_birth self.old (record { 0 = child }) (placed_at self.old parent)) }
        ensures err { OnErr result (self.new ≡ self.old) }
    {
        self.add_birth(parent, Pid(child))
    }

    /// Takes back the birth that was taken in last: the placement is again as it was before. Takes no memory.
    pub fn take_back_birth(&mut self, parent: Pid)
        ensures { (before : Places) (child : Pid) → self.old ≡ with_birth before child (placed_at before parent) → self.new ≡ before }
    {
        match self.processes.get(parent) {
            Some(parent) => {
                self.processes.pop();
                uncount_birth(&mut self.clusters, parent.home);
            }
            None => {}
        }
    }

    /// The cluster `k` is lost: its processes move to their backups and have none then, and a backup there
    /// is lost. Takes no memory.
    pub fn move_after_crash(&mut self, k: ClusterNo)
        ensures { self.new ≡ with_each (with_cluster self.old k lost_cluster) (after_loss k) }
    {
        lose(&mut self.clusters, k);
        self.processes.lose(k);
    }

    /// The cluster `k` lives again. Takes no memory.
    pub fn come_back(&mut self, k: ClusterNo)
        ensures { self.new ≡ with_cluster self.old k returned_cluster }
    {
        bring_back(&mut self.clusters, k);
    }

    /// The process gets its backup in the cluster `to`. Takes no memory.
    pub fn set_backup(&mut self, pid: Pid, to: ClusterNo)
        ensures { self.new ≡ with_each self.old (given_backup to pid) }
    {
        self.processes.set_backup(pid, to, false);
    }

    // Each process of the records gets its backup in the cluster `to`.
    fn rebackup(&mut self, to: ClusterNo, fresh: bool, recs: &[BackRec])
        ensures { self.new ≡ with_each self.old (after_rebackup to fresh recs.now) }
    {
        for rec in recs {
            self.processes.set_backup(rec.pid, to, fresh);
        }
    }

    /// Takes in an entry of the log. After want of memory, which only a birth may need, nothing has changed.
    #[inline(always)]
    pub fn absorb(&mut self, entry: &Entry) -> Result<(), NoMemory>
        requires { CanBeAbsorbed self.old (what entry.now) }
        ensures ok { OnOk result (self.new ≡ placed_after self.old (what entry.now)) }
        ensures err { OnErr result (self.new ≡ self.old) }
    {
        match &entry.post.what {
            What::Birth { parent, child, .. } => self.add_next(*parent, child.0),
            What::Mail { .. }
            | What::Exit { .. }
            | What::Page { .. }
            | What::Sync { .. }
            | What::Fetch { .. }
            | What::PageIs { .. }
            | What::Crash { .. }
            | What::Return { .. }
            | What::Rebackup { .. }
            | What::Done { .. }
            | What::Stop => {
                self.note(entry);
                Ok(())
            }
        }
    }

    /// Takes in an entry of the log that is no birth. Takes no memory.
    #[inline(always)]
    pub fn note(&mut self, entry: &Entry)
        requires { is_birth (what entry.now) ≡ false }
        ensures { self.new ≡ placed_after self.old (what entry.now) }
    {
        match &entry.post.what {
            What::Exit { pid, .. } => self.processes.end(*pid),
            What::Sync { pid, .. } => self.processes.sync(*pid),
            What::Crash { k, .. } => self.move_after_crash(*k),
            What::Return { k } => self.come_back(*k),
            What::Rebackup { to, fresh, recs } => self.rebackup(*to, *fresh, recs.get().as_slice()),
            What::Birth { .. }
            | What::Mail { .. }
            | What::Page { .. }
            | What::Fetch { .. }
            | What::PageIs { .. }
            | What::Done { .. }
            | What::Stop => {}
        }
    }

    // ---- where an entry goes

    /// Where an entry goes that says what this post says. Takes no memory.
    pub fn route(&self, post: &Post) -> Dests
        requires { IsRoutable self.now post.now.what }
        ensures { result ≡ route self.now post.now.what }
    {
        match &post.what {
            What::Mail { letter, .. } => self.letter_dests(letter.from, letter.to),
            What::Page { .. } | What::Fetch { .. } => to_clusters(self.servers_onto(0)),
            What::Sync { pid, .. } => {
                to_clusters(self.backup_onto(self.unended(*pid), self.servers_onto(0)))
            }
            What::PageIs { pid, .. } => {
                to_clusters(self.home_onto(self.unended(*pid), self.servers_onto(0)))
            }
            What::Return { k } => to_clusters(self.bits_after_return(*k)),
            What::Birth { .. }
            | What::Exit { .. }
            | What::Crash { .. }
            | What::Rebackup { .. }
            | What::Done { .. }
            | What::Stop => to_clusters(self.living_bits()),
        }
    }

    // To the receiver's home and backup, or to a terminal, and to the sender's backup.
    fn letter_dests(&self, from: Pid, to: To) -> Dests
        ensures { result ≡ letter_dests self.now from to }
    {
        let bits = self.backup_onto(self.unended(from), 0);
        match to {
            To::Proc(pid, _) => {
                let receiver = self.unended(pid);
                to_clusters(self.home_onto(receiver, self.backup_onto(receiver, bits)))
            }
            To::Tty(tty) => Dests {
                clusters: bits,
                tty: Some(tty),
            },
        }
    }

    // The bits, with that of the cluster `k` if it lives.
    fn onto(&self, k: ClusterNo, bits: u16) -> u16
        ensures { result ≡ (if lives_in self.now k then bit_or (2 ^ k.0) bits else bits) }
    {
        if self.living(k) {
            bit_of(k) | bits
        } else {
            bits
        }
    }

    fn home_onto(&self, placed: Option<Placed>, bits: u16) -> u16
        ensures { result ≡ bits_onto self.now (home_list placed) bits }
    {
        match placed {
            Some(placed) => self.onto(placed.home, bits),
            None => bits,
        }
    }

    fn backup_onto(&self, placed: Option<Placed>, bits: u16) -> u16
        ensures { result ≡ bits_onto self.now (backup_list placed) bits }
    {
        match placed {
            Some(
                Placed {
                    backup: Some(backup),
                    ..
                },
            ) => self.onto(backup, bits),
            _ => bits,
        }
    }

    fn servers_onto(&self, bits: u16) -> u16
        ensures { result ≡ bits_onto self.now (servers_in self.now) bits }
    {
        let (first, second) = self.pager;
        self.server_onto(first, self.server_onto(second, bits))
    }

    fn server_onto(&self, k: ClusterNo, bits: u16) -> u16
        ensures { result ≡ (if never_lost self.now k then bits_onto self.now (k ∷ []) bits else bits) }
    {
        if self.was_never_lost(k) {
            self.onto(k, bits)
        } else {
            bits
        }
    }

    // One bit for each cluster that lives, and for the cluster `k`, which returns.
    fn bits_after_return(&self, k: ClusterNo) -> u16
        requires { k.0 < length self.now.clusters }
        ensures { result ≡ bit_or (2 ^ k.0) (bits_of self.now (all_clusters self.now)) }
    {
        let _ = &self.clusters;
        bit_of(k) | self.living_bits()
    }

    // One bit for each cluster that lives.
    fn living_bits(&self) -> u16
        ensures { result ≡ bits_of self.now (all_clusters self.now) }
    {
        let mut bits = 0;
        for k in (0..self.clusters()).rev() {
            bits = self.onto(ClusterNo(k), bits);
        }
        bits
    }
}

fn to_clusters(clusters: u16) -> Dests
    ensures { result ≡ record { clusters = clusters; tty = None } }
{
    Dests {
        clusters,
        tty: None,
    }
}

fn bit_of(k: ClusterNo) -> u16
    requires { k.0 < 16 }
    ensures { result ≡ 2 ^ k.0 }
{
    1 << k.0
}

// ---- the clusters at boot

fn clusters_at_boot(alloc: Global, clusters: u8, roots: &[Placed]) -> Result<Vec<Cluster>, NoMemory>
    requires { length roots.now < 2 ^ 32 - 1 }
    ensures clusters { IfOk result (λ v. v.items ≡ map (boot_cluster roots.now) (range_with_len 0 clusters)) }
    ensures number { IfOk result (λ v. length v.items ≡ clusters) }
{
    let mut placed = Vec::new(alloc);
    for k in 0..clusters {
        placed.push(Cluster::new(serial_above(roots, k)))?;
    }
    Ok(placed)
}

// The serial after those of the roots at home in the cluster `k`.
fn serial_above(roots: &[Placed], k: u8) -> u32
    requires { length roots.now < 2 ^ 32 - 1 }
    ensures { result ≡ 1 + count_by (λ q. (q.home).0 == k) roots.now }
{
    1 + roots.iter().filter(|root| root.home.0 == k).count() as u32
}
