//! Whether a cluster may be lost at its next kernel step, or at its next disk call.
ghost use Rattle.std.specs.Prelude.{ℕ, ◌≡◌, ◌+◌, ◌-◌, ◌^◌, ◌<◌, ◌≤◌, ◌⊎◌, true, false, Some, slice_get, take, drop};
ghost use Rattle.std.specs.List.{list_any};
ghost use Rattle.t32_base.specs.declared.process.ClusterNo.{ClusterNo};
ghost use Rattle.bus_msg.specs.declared.entry.Cause.TheVariants.{Disk, Step};
ghost use Rattle.bus_msg.specs.declared.entry.Entry.{Entry as AnEntry};
ghost use Rattle.bus_msg.specs.PlacedAfter.{what};
ghost use Rattle.cert_sched.specs.Losses.{capped, is_by_cluster, is_page_entry, is_scripted_cause, least_calls, least_steps};
ghost use Rattle.bus_order.specs.Script.{has_unused};
ghost use Rattle.bus_order.specs.View.{BusView, KeepsScript, MayBeLost};

/// A law and no code: a cluster that has counted its steps may be lost at the next one, where a word for it is left.
pub fn lost_at_its_step()
    // One that has taken in the entries before its cursor, and sent none of the others,
    ensures scripted { (b : BusView) (k : ClusterNo) (n cursor : ℕ) → KeepsScript b → has_unused b.left k (Step n) ≡ true → list_any (is_by_cluster k) (drop cursor b.log) ≡ false → capped (least_steps (take cursor b.log) (take cursor b.log) k) ≤ n → n < 2 ^ 64 - 1 → is_scripted_cause b.system b.script b.log k (Step n) ≡ true }
    ensures may { (b : BusView) (k : ClusterNo) (n cursor : ℕ) → k.0 < b.system.clusters → KeepsScript b → has_unused b.left k (Step n) ≡ true → list_any (is_by_cluster k) (drop cursor b.log) ≡ false → capped (least_steps (take cursor b.log) (take cursor b.log) k) ≤ n → n < 2 ^ 64 - 1 → MayBeLost b k (Step n) }
    // and one that has sent the entry at its cursor, which it has not yet taken in.
    ensures sent { (b : BusView) (k : ClusterNo) (n cursor : ℕ) → KeepsScript b → has_unused b.left k (Step n) ≡ true → list_any (is_by_cluster k) (drop (cursor + 1) b.log) ≡ false → capped (least_steps (take cursor b.log) (take cursor b.log) k + 1) ≤ n → n < 2 ^ 64 - 1 → is_scripted_cause b.system b.script b.log k (Step n) ≡ true }
    ensures may_sent { (b : BusView) (k : ClusterNo) (n cursor : ℕ) → k.0 < b.system.clusters → KeepsScript b → has_unused b.left k (Step n) ≡ true → list_any (is_by_cluster k) (drop (cursor + 1) b.log) ≡ false → capped (least_steps (take cursor b.log) (take cursor b.log) k + 1) ≤ n → n < 2 ^ 64 - 1 → MayBeLost b k (Step n) }
{}

/// A law and no code: a cluster of whose disk a call failed may be lost at that call, where a word for it is left.
pub fn lost_at_its_call()
    // One that has sent nothing yet, or has counted its calls, and sent none of the entries from its cursor on,
    ensures may { (b : BusView) (k : ClusterNo) (n cursor : ℕ) → k.0 < b.system.clusters → KeepsScript b → has_unused b.left k (Disk n) ≡ true → list_any (is_by_cluster k) (drop cursor b.log) ≡ false → (list_any (is_by_cluster k) (take cursor b.log) ≡ false) ⊎ (capped (least_calls b.system (take cursor b.log) (take cursor b.log) k) ≤ n) → n < 2 ^ 64 - 1 → MayBeLost b k (Disk n) }
    // and one that has counted its calls and sent the page at its cursor, which it has not taken in, and none of the entries behind that.
    ensures may_sent { (b : BusView) (k : ClusterNo) (n cursor : ℕ) (e : AnEntry) → k.0 < b.system.clusters → KeepsScript b → has_unused b.left k (Disk n) ≡ true → slice_get b.log cursor ≡ Some e → is_page_entry (what e) ≡ true → list_any (is_by_cluster k) (drop (cursor + 1) b.log) ≡ false → capped (least_calls b.system (take cursor b.log) (take cursor b.log) k) ≤ n → n < 2 ^ 64 - 1 → MayBeLost b k (Disk n) }
{}
