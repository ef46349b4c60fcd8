//! What the looks at the words of a script make of a bus.
ghost use Rattle.std.specs.Prelude.{ℕ, ◌≡◌, Bool, true, false, length};
ghost use Rattle.std.specs.List.{list_any, list_all};
ghost use Rattle.cert_sched.specs.declared.script.ScriptWord.{ScriptWord};
ghost use Rattle.cert_sched.specs.Legal.{IsLegalBy, MayStand};
ghost use Rattle.cert_sched.specs.Losses.{is_loss_word};
ghost use Rattle.cert_sched.specs.Looked.{is_reached};
ghost use Rattle.bus_order.specs.View.{BusView, KeepsScript, after_words, looks};
ghost use Rattle.script_laws.specs.Added.{AddsTurns, is_bus_loss};

/// A law and no code: the looks at the words of a script add losses and returns alone, each by a word that was left.
pub fn looks_add_turns()
    // Some of them,
    ensures some { (n : ℕ) (b : BusView) → AddsTurns b (looks n b) }
    // and all that are due.
    ensures after { (b : BusView) → AddsTurns b (after_words b) }
    // Where no word that is left brings a cluster back they are losses.
    ensures losses { (old new : BusView) → list_all is_loss_word old.left ≡ true → (adds : AddsTurns old new) → list_all is_bus_loss adds.more ≡ true }
    // Where the log has reached no word that is left they change nothing.
    ensures none_reached { (n : ℕ) (b : BusView) → list_any (is_reached (length b.log)) b.left ≡ false → looks n b ≡ b }
{}

/// A law and no code: what a bus keeps of its script stays after some of the looks, and after all that are due, which
/// are `looks (length b.left) b`.
pub fn looks_keep_script()
    ensures legal { (n : ℕ) (b : BusView) → IsLegalBy MayStand b.system b.log → KeepsScript b → IsLegalBy MayStand (looks n b).system (looks n b).log }
    ensures words { (test : ScriptWord → Bool) (n : ℕ) (b : BusView) → list_all test b.left ≡ true → list_all test (looks n b).left ≡ true }
    ensures scripted { (n : ℕ) (b : BusView) → IsLegalBy MayStand b.system b.log → KeepsScript b → KeepsScript (looks n b) }
{}
