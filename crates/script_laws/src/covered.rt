//! Whether a loss ends the run.
ghost use Rattle.std.specs.Prelude.{◌≡◌, ◌≤◌, true, false, List, length};
ghost use Rattle.t32_base.specs.declared.process.ClusterNo.{ClusterNo};
ghost use Rattle.sys_text.specs.declared.system.System.{System};
ghost use Rattle.sys_text.specs.Valid.{is_system};
ghost use Rattle.bus_msg.specs.declared.entry.Entry.{Entry};
ghost use Rattle.bus_msg.specs.Places.{is_covered};
ghost use Rattle.cert_sched.specs.declared.script.ScriptWord.{ScriptWord};
ghost use Rattle.cert_sched.specs.Schedule.{placement};
ghost use Rattle.cert_sched.specs.Rules.{is_over};
ghost use Rattle.cert_sched.specs.Scripted.{is_closed, is_lost_by, is_spread};
ghost use Rattle.cert_sched.specs.Legal.{IsLegalBy, MayStand, Stands};
ghost use Rattle.bus_order.specs.View.{BusView, KeepsScript};
ghost use Rattle.script_laws.specs.Crashes.{crashes};
ghost use Rattle.script_laws.specs.Servers.{HasServer};

/// A law and no code: in a log of a valid system with no loss, the loss of each cluster is covered.
pub fn first_loss_is_covered()
    ensures { (system : System) (log : List Entry) (k : ClusterNo) → is_system system ≡ true → IsLegalBy MayStand system log → crashes log ≡ 0 → is_covered (placement system log) k ≡ true }
{}

/// A law and no code: one loss ends no run.
pub fn one_word_ends_no_run()
    // A log of a valid system with one loss at most is over only where the end or a stop stands last,
    ensures few { (system : System) (log : List Entry) → is_system system ≡ true → IsLegalBy MayStand system log → crashes log ≤ 1 → is_over system log ≡ true → is_closed log ≡ true }
    // and so is one of a script of one word at most.
    ensures word { (b : BusView) → is_system b.system ≡ true → IsLegalBy MayStand b.system b.log → KeepsScript b → length b.script ≤ 1 → is_over b.system b.log ≡ true → is_closed b.log ≡ true }
{}

/// A law and no code: where the words of a script that lose clusters name neither both clusters of a root nor both page servers, none of its
/// losses ends the run, however many there are.
pub fn spread_words_end_no_run()
    // The next loss of a cluster that the script loses is covered,
    ensures covered { (b : BusView) (k : ClusterNo) → is_system b.system ≡ true → IsLegalBy Stands b.system b.log → KeepsScript b → is_spread b.system b.script ≡ true → is_lost_by b.script k ≡ true → is_covered (placement b.system b.log) k ≡ true }
    // so the log is over only where the end or a stop stands last.
    ensures closes { (b : BusView) → is_system b.system ≡ true → IsLegalBy Stands b.system b.log → KeepsScript b → is_spread b.system b.script ≡ true → is_over b.system b.log ≡ true → is_closed b.log ≡ true }
    // A script of one word at most is such a one.
    ensures word { (system : System) (script : List ScriptWord) → is_system system ≡ true → length script ≤ 1 → is_spread system script ≡ true }
{}

/// A law and no code: while a log goes on a page server is left that lives, also behind losses and returns.
pub fn open_logs_have_a_server()
    ensures { (system : System) (log : List Entry) → is_system system ≡ true → IsLegalBy Stands system log → is_over system log ≡ false → HasServer system log }
{}
