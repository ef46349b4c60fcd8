//! Which losses and returns stand in a log of a script, and how many.
ghost use Rattle.std.specs.Prelude.{◌≡◌, ◌+◌, ◌≤◌, true, false, length};
ghost use Rattle.std.specs.List.{list_all, list_any};
ghost use Rattle.t32_base.specs.declared.process.ClusterNo.{ClusterNo};
ghost use Rattle.cert_sched.specs.Losses.{is_loss_word};
ghost use Rattle.bus_order.specs.View.{BusView, KeepsScript};
ghost use Rattle.backup_laws.specs.LostBy.{AllLostBy};
ghost use Rattle.script_laws.specs.Crashes.{crashes};
ghost use Rattle.script_laws.specs.Off.{brings_back, has_returned_in};

/// A law and no code: each loss of a log was given by a word of the script, so there are no more losses than words.
pub fn crashes_are_of_words()
    ensures within { (b : BusView) → KeepsScript b → crashes b.log ≤ length b.script }
    // Nor are there with the words that are left.
    ensures left { (b : BusView) → KeepsScript b → crashes b.log + length b.left ≤ length b.script }
{}

/// A law and no code: each loss of a log is that of a cluster that a word of the script loses.
pub fn losses_are_of_words()
    ensures { (b : BusView) → KeepsScript b → AllLostBy b.script b.log }
{}

/// A law and no code: each return of a log is that of a cluster that a word of the script brings back.
pub fn returns_are_of_words()
    ensures words { (b : BusView) (k : ClusterNo) → KeepsScript b → has_returned_in b.log k ≡ true → list_any (brings_back k) b.script ≡ true }
    // So by words for losses alone no cluster returns.
    ensures none { (b : BusView) (k : ClusterNo) → KeepsScript b → list_all is_loss_word b.script ≡ true → has_returned_in b.log k ≡ false }
{}
