//! A line and the log before it determine the entry.
ghost use Rattle.std.specs.Prelude.{◌≡◌, true, false, List, Some};
ghost use Rattle.sys_text.specs.declared.system.System.{System};
ghost use Rattle.sys_text.specs.Valid.{is_system};
ghost use Rattle.bus_msg.specs.declared.entry.Entry.{Entry};
ghost use Rattle.bus_msg.specs.PlacedAfter.{what};
ghost use Rattle.cert_sched.specs.Legal.{IsLegalBy, Stands};
ghost use Rattle.entry_lines.specs.Told.{told_of};
ghost use Rattle.line_laws.specs.Meant.{SameButReads, entry_meant, is_end, with_reads_rising};

/// A law and no code: what a printed line and the log before it say of the entry.
pub fn lines_determine_entries()
    // One that stands next and is not the end of the run is the one that its line means, with the numbers that it read rising.
    ensures meant { (system : System) (log : List Entry) (e : Entry) → Stands system log e → is_end (what e) ≡ false
        → entry_meant system log (told_of e) ≡ Some (with_reads_rising e) }
    // So two entries that stand next with one line differ at most in the order of the numbers that a synchronisation read,
    // also two ends of the run.
    ensures same { (system : System) (log : List Entry) (e f : Entry) → is_system system ≡ true → IsLegalBy Stands system log
        → Stands system log e → Stands system log f → told_of e ≡ told_of f → SameButReads e f }
{}
