//! Logs that differ in no more than the order of the numbers that synchronisations read.
ghost use Rattle.std.specs.Prelude.{◌≡◌, true, List, map};
ghost use Rattle.sys_text.specs.declared.system.System.{System};
ghost use Rattle.sys_text.specs.Valid.{is_system};
ghost use Rattle.bus_msg.specs.declared.entry.Entry.{Entry};
ghost use Rattle.cert_sched.specs.Counted.{counted};
ghost use Rattle.cert_sched.specs.Legal.{IsLegal, MayFollow};
ghost use Rattle.cert_sched.specs.Schedule.{schedule_of};
ghost use Rattle.report_text.specs.declared.run.Ended.{Ended};
ghost use Rattle.report_text.specs.Good.{EndsAs};
ghost use Rattle.report_text.specs.RunReport.{log_text_of};
ghost use Rattle.entry_lines.specs.Told.{told_of};
ghost use Rattle.read_orders.specs.Alike.{AreAlike};

/// A law and no code: two legal logs with the same printed lines are alike.
pub fn logs_with_the_same_lines()
    ensures { (system : System) (log other : List Entry) → is_system system ≡ true → IsLegal system log → IsLegal system other →
        map told_of log ≡ map told_of other → AreAlike log other }
{}

/// A law and no code: what may follow in a log may follow in each log that is alike.
pub fn alike_logs_go_on_alike()
    ensures { (system : System) (log other : List Entry) (e : Entry) → AreAlike log other →
        MayFollow system log e → MayFollow system other e }
{}

/// A law and no code: logs that are alike say the same. They have one schedule,
pub fn alike_logs_say_the_same()
    ensures items { (system : System) (log other : List Entry) → AreAlike log other → schedule_of system log ≡ schedule_of system other }
    // one count of what was withheld,
    ensures withheld { (system : System) (log other : List Entry) → AreAlike log other → counted system log ≡ counted system other }
    // one end,
    ensures ended { (system : System) (log other : List Entry) → AreAlike log other → (ended : Ended) → EndsAs system log ended →
        EndsAs system other ended }
    // one printed text,
    ensures text { (log other : List Entry) → AreAlike log other → log_text_of log ≡ log_text_of other }
    // and the same printed lines.
    ensures lines { (log other : List Entry) → AreAlike log other → map told_of log ≡ map told_of other }
{}
