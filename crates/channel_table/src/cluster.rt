//! One cluster of a placement.
ghost use Rattle.std.specs.Prelude.{◌≡◌, ◌+◌, ◌-◌, ◌^◌, ◌<◌, true, false, not, slice_get};
ghost use Rattle.std.specs.Option.{option_map_or};
ghost use Rattle.bus_msg.specs.Places.{ClusterPlace};
ghost use Rattle.bus_msg.specs.PlacedAfter.{changed_at, raised_serial, lost_cluster, returned_cluster};
ghost use Rattle.channel_table.specs.Changes.{lowered_serial};

use std::marker::Model;
use t32_base::process::ClusterNo;

/// Whether a cluster lives, whether it was lost once, and the serial that its next forked child gets.
#[derive(Clone, Copy)]
pub struct Cluster {
    lives: bool,
    was_lost: bool,
    next_serial: u32,
}

impl Model for Cluster {
    ghost use Rattle.bus_msg.specs.Places.{ClusterPlace};

    ghost Value = { ClusterPlace };

    ghost view = { λ c. record { lives = c.lives; was_lost = c.was_lost; next_serial = c.next_serial } };

    ghost inverse = { λ p. record { lives = p.lives; was_lost = p.was_lost; next_serial = p.next_serial } };
}

impl Cluster {
    /// A cluster that lives and was never lost.
    pub fn new(next_serial: u32) -> Self
        ensures { result ≡ record { lives = true; was_lost = false; next_serial = next_serial } }
    {
        Cluster {
            lives: true,
            was_lost: false,
            next_serial,
        }
    }

    pub fn lives(&self) -> bool
        ensures { result ≡ self.now.lives }
    {
        self.lives
    }

    pub fn was_never_lost(&self) -> bool
        ensures { result ≡ not self.now.was_lost }
    {
        !self.was_lost
    }

    pub fn next_serial(&self) -> u32
        ensures { result ≡ self.now.next_serial }
    {
        self.next_serial
    }

    /// The cluster is lost.
    pub fn lose(&mut self)
        ensures { self.new ≡ lost_cluster self.old }
    {
        self.lives = false;
        self.was_lost = true;
    }

    /// The cluster lives again.
    pub fn come_back(&mut self)
        ensures { self.new ≡ returned_cluster self.old }
    {
        self.lives = true;
    }

    /// A child was forked here.
    pub fn count_birth(&mut self)
        requires { self.old.next_serial < 2 ^ 32 - 1 }
        ensures { self.new ≡ raised_serial self.old }
    {
        self.next_serial += 1;
    }

    /// The child that was forked here last is taken back.
    pub fn uncount_birth(&mut self)
        ensures { self.new ≡ lowered_serial self.old }
    {
        self.next_serial = self.next_serial.saturating_sub(1);
    }
}

// ---- some clusters, of which one is changed

/// The cluster `k` is lost, where it is one of them.
pub fn lose(clusters: &mut [Cluster], k: ClusterNo)
    ensures { clusters.new ≡ changed_at k.0 lost_cluster (slice_get clusters.old k.0) clusters.old }
{
    let index = usize::from(k.0);
    if index < clusters.len() {
        clusters[index].lose();
    }
}

/// The cluster `k` lives again, where it is one of them.
pub fn bring_back(clusters: &mut [Cluster], k: ClusterNo)
    ensures { clusters.new ≡ changed_at k.0 returned_cluster (slice_get clusters.old k.0) clusters.old }
{
    let index = usize::from(k.0);
    if index < clusters.len() {
        clusters[index].come_back();
    }
}

/// A child was forked in the cluster `home`, where it is one of them.
pub fn count_birth(clusters: &mut [Cluster], home: ClusterNo)
    requires { option_map_or (λ (c : ClusterPlace). c.next_serial) (slice_get clusters.old home.0) 0 < 2 ^ 32 - 1 }
    ensures { clusters.new ≡ changed_at home.0 raised_serial (slice_get clusters.old home.0) clusters.old }
{
    let index = usize::from(home.0);
    if index < clusters.len() {
        clusters[index].count_birth();
    }
}

/// The child that was forked last in the cluster `home`, where it is one of them, is taken back.
pub fn uncount_birth(clusters: &mut [Cluster], home: ClusterNo)
    ensures { clusters.new ≡ changed_at home.0 lowered_serial (slice_get clusters.old home.0) clusters.old }
{
    let index = usize::from(home.0);
    if index < clusters.len() {
        clusters[index].uncount_birth();
    }
}
