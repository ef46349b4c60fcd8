//! The losses and the returns of a cluster.
ghost use Rattle.std.specs.Prelude.{ℕ, ◌≡◌, ◌+◌, ◌<◌, ◌≤◌, true, false, not, ◌||◌, List, Some, None, is_some, slice_get, take, drop};
ghost use Rattle.std.specs.List.{list_any};
ghost use Rattle.t32_base.specs.declared.process.ClusterNo.{ClusterNo};
ghost use Rattle.sys_text.specs.declared.system.System.{System};
ghost use Rattle.bus_msg.specs.declared.entry.Entry.{Entry};
ghost use Rattle.bus_msg.specs.Places.{is_lost_in, lives_in};
ghost use Rattle.bus_msg.specs.PlacedAfter.{what};
ghost use Rattle.cert_sched.specs.Schedule.{placement};
ghost use Rattle.cert_sched.specs.Losses.{is_by_cluster, is_crash_of, was_lost_in};
ghost use Rattle.cert_sched.specs.Legal.{IsLegalBy, Stands};
ghost use Rattle.bus_order.specs.Script.{off_at};
ghost use Rattle.script_laws.specs.Off.{comes_back, has_returned_in, is_lost_last};

/// A law and no code: a cluster is lost only where it lives, and brought back only where it is lost, so its losses and
/// its returns alternate.
pub fn losses_and_returns_alternate()
    // What loses it follows where it lives and is not off,
    ensures lost { (system : System) (log : List Entry) (e : Entry) (k : ClusterNo) → IsLegalBy Stands system log → Stands system log e → is_crash_of k (what e) ≡ true → (lives_in (placement system log) k ≡ true) × (off_at log k ≡ None) }
    // and what brings it back where it is lost and off.
    ensures back { (system : System) (log : List Entry) (e : Entry) (k : ClusterNo) → IsLegalBy Stands system log → Stands system log e → comes_back k (what e) ≡ true → (is_lost_in (placement system log) k ≡ true) × (is_some (off_at log k) ≡ true) }
    // Between two losses of it stands a return of it,
    ensures returned { (system : System) (log : List Entry) (k : ClusterNo) (at more : ℕ) (first next : Entry) → IsLegalBy Stands system log → slice_get log at ≡ Some first → is_crash_of k (what first) ≡ true → slice_get log (at + 1 + more) ≡ Some next → is_crash_of k (what next) ≡ true → has_returned_in (take more (drop (at + 1) log)) k ≡ true }
    // and between two returns a loss.
    ensures lost_again { (system : System) (log : List Entry) (k : ClusterNo) (at more : ℕ) (first next : Entry) → IsLegalBy Stands system log → slice_get log at ≡ Some first → comes_back k (what first) ≡ true → slice_get log (at + 1 + more) ≡ Some next → comes_back k (what next) ≡ true → was_lost_in (take more (drop (at + 1) log)) k ≡ true }
{}

/// A law and no code: a cluster sends no entry between its loss and its next return.
pub fn lost_clusters_send_nothing()
    ensures { (system : System) (log : List Entry) (k : ClusterNo) (at more : ℕ) (e : Entry) → IsLegalBy Stands system log → slice_get log at ≡ Some e → is_crash_of k (what e) ≡ true → has_returned_in (take more (drop (at + 1) log)) k ≡ false → list_any (is_by_cluster k) (take more (drop (at + 1) log)) ≡ false }
{}

/// A law and no code: a cluster of the system lives exactly where the last of its losses and returns is no loss.
pub fn last_turn_says_who_lives()
    ensures { (system : System) (log : List Entry) (k : ClusterNo) → IsLegalBy Stands system log → k.0 < system.clusters → lives_in (placement system log) k ≡ not (is_lost_last log k) }
{}

/// A law and no code: what the log says of a life of a cluster that begins at a place, as behind a return.
pub fn lives_begin_behind_returns()
    // Behind its return the cluster is not off.
    ensures begins { (log : List Entry) (k : ClusterNo) (n : ℕ) (e : Entry) → slice_get log n ≡ Some e → comes_back k (what e) ≡ true → off_at (take (n + 1) log) k ≡ None }
    // Until its next return it is off where it was so at that place, or was lost from there on.
    ensures off { (log : List Entry) (k : ClusterNo) (n : ℕ) → has_returned_in (drop n log) k ≡ false → is_some (off_at log k) ≡ (is_some (off_at (take n log) k) || was_lost_in (drop n log) k) }
    // The loss since which it is off is the first from there on.
    ensures ends { (system : System) (log : List Entry) (k : ClusterNo) (n at : ℕ) → IsLegalBy Stands system log → off_at (take n log) k ≡ None → has_returned_in (drop n log) k ≡ false → off_at log k ≡ Some at → (n ≤ at) × (was_lost_in (drop n (take at log)) k ≡ false) }
{}
