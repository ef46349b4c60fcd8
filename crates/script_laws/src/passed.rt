//! Which words for a step a cluster has not passed.
ghost use Rattle.std.specs.Prelude.{ℕ, ◌≡◌, ◌+◌, true, false, List, [], ◌++◌};
ghost use Rattle.std.specs.List.{list_all};
ghost use Rattle.t32_base.specs.declared.process.ClusterNo.{ClusterNo};
ghost use Rattle.bus_msg.specs.declared.entry.Cause.TheVariants.{Step};
ghost use Rattle.bus_msg.specs.declared.entry.Entry.{Entry};
ghost use Rattle.cert_sched.specs.declared.script.ScriptWord.{ScriptWord};
ghost use Rattle.bus_order.specs.Script.{has_unused, is_unpassed};
ghost use Rattle.bus_order.specs.View.{BusView, KeepsScript};

/// A law and no code: a cluster has passed no word for a step that gave no loss.
pub fn unpassed_words()
    // Before its first step it has passed none,
    ensures boot { (k : ClusterNo) (w : ScriptWord) → is_unpassed k [] 0 w ≡ true }
    ensures all_at_boot { (k : ClusterNo) (script : List ScriptWord) → list_all (is_unpassed k [] 0) script ≡ true }
    // nor by a longer log,
    ensures longer { (k : ClusterNo) (log more : List Entry) (steps : ℕ) (w : ScriptWord) → is_unpassed k log steps w ≡ true → is_unpassed k (log ++ more) steps w ≡ true }
    ensures all_longer { (k : ClusterNo) (log more : List Entry) (steps : ℕ) (script : List ScriptWord) → list_all (is_unpassed k log steps) script ≡ true → list_all (is_unpassed k (log ++ more) steps) script ≡ true }
    // nor by a step of which no word is left,
    ensures unused { (b : BusView) (k : ClusterNo) (steps : ℕ) → KeepsScript b → has_unused b.left k (Step steps) ≡ false → list_all (is_unpassed k b.log steps) b.script ≡ true → list_all (is_unpassed k b.log (steps + 1)) b.script ≡ true }
    // nor by one that the script does not name.
    ensures unnamed { (k : ClusterNo) (log : List Entry) (steps : ℕ) (script : List ScriptWord) → has_unused script k (Step steps) ≡ false → list_all (is_unpassed k log steps) script ≡ true → list_all (is_unpassed k log (steps + 1)) script ≡ true }
{}
