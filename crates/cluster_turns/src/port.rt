//! What a turn of a cluster asks of its bus.
ghost use Rattle.std.specs.Prelude.{◌≡◌, ◌≤◌, ◌<◌, ◌⊎◌, ℕ, Bool, true, false, Some, IfOk, OnOk, drop, slice_get};
ghost use Rattle.t32_base.specs.declared.process.ClusterNo.{ClusterNo as AClusterNo};
ghost use Rattle.bus_order.specs.Log.{open_length};
ghost use Rattle.bus_order.specs.View.{BusView};
ghost use Rattle.cluster_core.specs.View.{head_of};
ghost use Rattle.cert_sched.specs.Losses.{has_step_left, was_lost_in};
ghost use Rattle.cert_sched.specs.Rules.{is_over};
ghost use Rattle.cluster_turns.specs.Ends.{followed_length};
ghost use Rattle.cluster_turns.specs.Gone.{IsBeforeStep};
ghost use Rattle.cluster_turns.specs.Along.{IsAlong, IsNamed, IsSound, IsStopped};
ghost use Rattle.cluster_turns.specs.Offers.{Adds, HasGrown, IsToldBy, Later, OfferIs, TellIs, Visits};
ghost use Rattle.cluster_turns.specs.Progress.{IsOver};
ghost use Rattle.cluster_turns.specs.Turns.{GoesOwn, LosesOwn};

use crate::member::Member;
use crate::offers::Offered;
use bus_msg::entry::{Entry, Post};
use bus_order::marks::{Idled, Mark};
use t32_base::process::ClusterNo;
use t32_base::streams::NoMemory;

/// The way of a cluster to its bus. It shows the log as it was when the cluster last had the bus.
pub trait Port {
    /// What tells one port from another.
    ghost Root: { Type 0 };

    /// No other has the bus.
    ghost alone: { Bool };

    /// It never changes.
    ghost root: { Self → Root };

    /// The bus, as the cluster last had it; of a bus that others have too, the marks are left out.
    ghost bus: { Self → BusView };

    /// The place from which on it shows the entries of the log.
    ghost from: { Self → ℕ };

    /// What it shows is the bus.
    ghost shows: { Self → Type 0 };

    /// It is the port of this cluster, also after want of memory.
    ghost sits: { AClusterNo → Self → Type 0 };

    /// Looks for what is new.
    fn look(&mut self, cluster: &Member) -> Result<(), NoMemory>
        requires sits { sits cluster.now.number self.old }
        requires shows { shows self.old }
        requires from { from self.old ≤ cluster.now.cursor }
        requires sound { IsSound (bus self.old) }
        requires along { IsAlong (bus self.old) cluster.now }
        ensures root { root self.new ≡ root self.old }
        ensures sits { sits cluster.now.number self.new }
        ensures shows { OnOk result (shows self.new) }
        ensures from { OnOk result (from self.new ≤ cluster.now.cursor) }
        ensures sound { OnOk result (IsSound (bus self.new)) }
        ensures later { OnOk result (Later alone cluster.now.number (bus self.old) (bus self.new)) };

    /// How many entries of the log a cluster that lives follows: all, but the last where the log is over.
    fn followed(&self) -> u64
        requires shows { shows self.now }
        requires sound { IsSound (bus self.now) }
        ensures { result ≡ followed_length (bus self.now).system (bus self.now).log };

    /// The entry at a place.
    fn shown(&self, place: u64) -> &Entry
        requires shows { shows self.now }
        requires from { from self.now ≤ place }
        requires within { place < open_length (bus self.now).log }
        ensures { slice_get (bus self.now).log place ≡ Some result.now };

    /// Whether the log is over.
    fn has_ended(&self) -> bool
        requires shows { shows self.now }
        requires sound { IsSound (bus self.now) }
        ensures { result ≡ is_over (bus self.now).system (bus self.now).log };

    /// Whether a word of the script that gave no loss yet names the next kernel step of a cluster.
    fn names_step(&self, cluster: &Member) -> bool
        requires sits { sits cluster.now.number self.now }
        requires shows { shows self.now }
        requires sound { IsSound (bus self.now) }
        requires before { IsBeforeStep (bus self.now) cluster.now }
        ensures { result ≡ has_step_left (bus self.now).script (bus self.now).log cluster.now.number cluster.now.steps };

    /// Loses a cluster directly before its next kernel step, or by the call of its disk that failed, which a word of the script
    /// names. Nothing is added where a loss of it stands in the log behind its cursor, or the run has ended by a loss that is not
    /// covered. Either way it stays as it is.
    fn lose(&mut self, cluster: &Member) -> Result<(), NoMemory>
        requires sits { sits cluster.now.number self.old }
        requires sound { IsSound (bus self.old) }
        requires before { IsBeforeStep (bus self.old) cluster.now }
        requires named { IsNamed (bus self.old) cluster.now }
        ensures root { root self.new ≡ root self.old }
        ensures sits { sits cluster.now.number self.new }
        ensures grows { HasGrown (bus self.old) (bus self.new) }
        ensures adds { alone ≡ true → Adds cluster.now.number (bus self.old) (bus self.new) }
        ensures stopped { OnOk result (IsStopped (bus self.new) cluster.now) }
        ensures kept { OnOk result (alone ≡ true → IsOver (bus self.old) ⊎ (was_lost_in (drop cluster.now.cursor (bus self.old).log) cluster.now.number ≡ true) → bus self.new ≡ bus self.old) }
        ensures own { OnOk result (alone ≡ true → GoesOwn (bus self.old) → was_lost_in (drop cluster.now.cursor (bus self.old).log) cluster.now.number ≡ false → LosesOwn cluster.now.number cluster.now.cursor (bus self.old) (bus self.new)) };

    /// Offers the post of a cluster, and shows what is then new.
    fn offer(&mut self, cluster: &Member, post: &Post) -> Result<Offered, NoMemory>
        requires sits { sits cluster.now.number self.old }
        requires shows { shows self.old }
        requires sound { IsSound (bus self.old) }
        requires along { IsAlong (bus self.old) cluster.now }
        requires head { head_of cluster.now.queue ≡ Some post.now }
        requires tried { cluster.now.tried ≡ true }
        ensures root { root self.new ≡ root self.old }
        ensures sits { sits cluster.now.number self.new }
        ensures shows { OnOk result (shows self.new) }
        ensures from { OnOk result (from self.new ≤ cluster.now.cursor) }
        ensures sound { OnOk result (IsSound (bus self.new)) }
        ensures grows { HasGrown (bus self.old) (bus self.new) }
        ensures adds { alone ≡ true → Adds cluster.now.number (bus self.old) (bus self.new) }
        ensures offered { IfOk result (λ offered. Visits alone cluster.now.number (bus self.old) (bus self.new) (OfferIs cluster.now.number cluster.now.cursor post.now offered)) };

    /// Tells that nothing can move in a cluster, and shows what is then new. None where the log was over, the cluster was
    /// lost, or it had not seen all of the log.
    fn tell(&mut self, cluster: &Member, mark: Mark) -> Result<Option<Idled>, NoMemory>
        requires sits { sits cluster.now.number self.old }
        requires shows { shows self.old }
        requires sound { IsSound (bus self.old) }
        requires along { IsAlong (bus self.old) cluster.now }
        requires told { IsToldBy cluster.now mark }
        ensures root { root self.new ≡ root self.old }
        ensures sits { sits cluster.now.number self.new }
        ensures shows { OnOk result (shows self.new) }
        ensures from { OnOk result (from self.new ≤ cluster.now.cursor) }
        ensures sound { OnOk result (IsSound (bus self.new)) }
        ensures grows { HasGrown (bus self.old) (bus self.new) }
        ensures adds { alone ≡ true → Adds cluster.now.number (bus self.old) (bus self.new) }
        ensures told { IfOk result (λ told. Visits alone cluster.now.number (bus self.old) (bus self.new) (TellIs cluster.now.number cluster.now.cursor mark told)) };
}
