//! What the log says of a cluster that is off.
ghost use Rattle.std.specs.Prelude.{ℕ, ◌≡◌, ◌+◌, ◌<◌, true, false, not, List, Some, None, is_none, is_some, take, drop};
ghost use Rattle.std.specs.List.{list_any};
ghost use Rattle.t32_base.specs.declared.process.ClusterNo.{ClusterNo};
ghost use Rattle.sys_text.specs.declared.system.System.{System};
ghost use Rattle.bus_msg.specs.declared.entry.Entry.{Entry};
ghost use Rattle.bus_msg.specs.Places.{lives_in};
ghost use Rattle.cert_sched.specs.Schedule.{placement};
ghost use Rattle.cert_sched.specs.Losses.{is_by_cluster, was_lost_in};
ghost use Rattle.cert_sched.specs.Legal.{IsLegalBy, MayStand, Stands};
ghost use Rattle.bus_order.specs.Script.{off_at};
ghost use Rattle.script_laws.specs.Off.{IsItsLoss, IsOffSince, has_returned_in};

/// A law and no code: a cluster is off from its loss to its return, in any log.
pub fn off_until_return()
    // It was lost at the place since which it is off, and neither lost nor brought back after it.
    ensures since { (system : System) (log : List Entry) (k : ClusterNo) (at : ℕ) → IsLegalBy Stands system log → off_at log k ≡ Some at → IsOffSince log k at }
    // One of the system lives exactly where it is not off,
    ensures lives { (system : System) (log : List Entry) (k : ClusterNo) → IsLegalBy Stands system log → k.0 < system.clusters → lives_in (placement system log) k ≡ is_none (off_at log k) }
    // and one that sends an entry is not off there.
    ensures sends { (system : System) (log : List Entry) (e : Entry) (k : ClusterNo) → IsLegalBy Stands system log → Stands system log e → is_by_cluster k e ≡ true → off_at log k ≡ None }
    // So it sends no entry after the place since which it is off,
    ensures silent_off { (system : System) (log : List Entry) (k : ClusterNo) (at : ℕ) → IsLegalBy Stands system log → off_at log k ≡ Some at → list_any (is_by_cluster k) (drop (at + 1) log) ≡ false }
    // nor any from a place where it is off until it is brought back.
    ensures silent { (system : System) (log : List Entry) (k : ClusterNo) (n : ℕ) → IsLegalBy Stands system log → is_some (off_at (take n log) k) ≡ true → has_returned_in (drop n log) k ≡ false → list_any (is_by_cluster k) (drop n log) ≡ false }
{}

/// A law and no code: a cluster that no entry of the log brings back is off exactly where it was lost.
pub fn off_unless_back()
    ensures { (log : List Entry) (k : ClusterNo) → has_returned_in log k ≡ false → is_some (off_at log k) ≡ was_lost_in log k }
{}

/// A law and no code: a cluster that no entry brings back, as none is by words for losses alone, is off exactly where it was lost.
pub fn off_is_lost()
    // It was lost at the place since which it is off, and nowhere else.
    ensures off { (system : System) (log : List Entry) (k : ClusterNo) (at : ℕ) → IsLegalBy MayStand system log → has_returned_in log k ≡ false → off_at log k ≡ Some at → IsItsLoss log k at }
    ensures not_off { (log : List Entry) (k : ClusterNo) → has_returned_in log k ≡ false → off_at log k ≡ None → was_lost_in log k ≡ false }
    // One of the system lives exactly where it was not lost.
    ensures lives { (system : System) (log : List Entry) (k : ClusterNo) → IsLegalBy MayStand system log → has_returned_in log k ≡ false → k.0 < system.clusters → lives_in (placement system log) k ≡ not (was_lost_in log k) }
    // After its loss it sends no entry.
    ensures silent { (system : System) (log : List Entry) (k : ClusterNo) (n : ℕ) → IsLegalBy MayStand system log → has_returned_in log k ≡ false → was_lost_in (take n log) k ≡ true → list_any (is_by_cluster k) (drop n log) ≡ false }
{}
