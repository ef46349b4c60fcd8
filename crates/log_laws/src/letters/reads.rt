//! Which of its saved letters a process has read.
ghost use Rattle.std.specs.Prelude.{ℕ, ◌≡◌, true, false, List, Option, Some, None};
ghost use Rattle.t32_base.specs.declared.process.Pid.{Pid};
ghost use Rattle.t32_base.specs.declared.process.Counts.{Counts};
ghost use Rattle.t32_base.specs.declared.letter.Arrived.{Arrived};
ghost use Rattle.t32_base.specs.Small.{SmallState};
ghost use Rattle.sys_text.specs.declared.system.System.{System};
ghost use Rattle.sys_text.specs.Valid.{is_system};
ghost use Rattle.proc_state.specs.State.{ProcState, has_ended};
ghost use Rattle.bus_msg.specs.declared.entry.Entry.{Entry};
ghost use Rattle.backup_queue.specs.Fronts.{AreFronts, AreOnEnds};
ghost use Rattle.backup_queue.specs.Queue.{unread};
ghost use Rattle.cert_sched.specs.Parts.{rising};
ghost use Rattle.cert_sched.specs.Schedule.{process_after};
ghost use Rattle.cert_sched.specs.Deeds.{arrived_count};
ghost use Rattle.cert_sched.specs.Rolling.{RollsAs};
ghost use Rattle.cert_sched.specs.Steps.{numbers_read, saved_of, silent_upto};
ghost use Rattle.cert_sched.specs.Kinds.{SyncHolds};
ghost use Rattle.cert_sched.specs.Legal.{IsLegalBy, Stands};
ghost use Rattle.cert_sched.specs.Simulation.{IsUnended};
ghost use Rattle.log_laws.specs.letters.ReadsFrom.{ReadsFrom};

/// A law and no code: a process that has not ended has read its saved letters from the fronts of its ends.
pub fn reads_are_from_fronts()
    // So it is where the log leads,
    ensures now { (system : System) (log : List Entry) (p : Pid) (s : ProcState) → is_system system ≡ true → IsLegalBy Stands system log → process_after system log p ≡ Some s → has_ended (s.small).status ≡ false → ReadsFrom (saved_of system log p) s.mail }
    // and after silent steps from there.
    ensures silent { (system : System) (log : List Entry) (p : Pid) (n : ℕ) (s : ProcState) → is_system system ≡ true → IsLegalBy Stands system log → silent_upto system log p n ≡ Some s → has_ended (s.small).status ≡ false → ReadsFrom (saved_of system log p) s.mail }
{}

/// A law and no code: so has one that rolls forward, which has done again a part of what it did since it started.
pub fn rolling_reads_from_fronts()
    ensures { (system : System) (log : List Entry) (p : Pid) (s : ProcState) (counts : Counts) (births : List Pid) → is_system system ≡ true → IsLegalBy Stands system log → IsUnended system log p → RollsAs system log p s counts births → ReadsFrom (saved_of system log p) s.mail }
{}

/// A law and no code: as many letters have arrived in a process that runs as came to it.
pub fn all_letters_arrived()
    ensures { (system : System) (log : List Entry) (p : Pid) (n : ℕ) (s : ProcState) → is_system system ≡ true → IsLegalBy Stands system log → silent_upto system log p n ≡ Some s → has_ended (s.small).status ≡ false → s.next ≡ arrived_count log p }
{}

/// A law and no code: the numbers of the letters that were read may be told in any order.
pub fn reads_in_any_order()
    ensures left { (read : List ℕ) (saved mail : List Arrived) → rising read ≡ numbers_read saved mail → ReadsFrom saved mail → unread read saved ≡ mail }
    ensures fronts { (read : List ℕ) (saved mail : List Arrived) → rising read ≡ numbers_read saved mail → ReadsFrom saved mail → AreFronts read saved }
    ensures ends { (read : List ℕ) (saved mail : List Arrived) → rising read ≡ numbers_read saved mail → ReadsFrom saved mail → AreOnEnds read saved }
{}

/// A law and no code: so the letters that a synchronisation tells of were read from the fronts, that of the signal among them.
pub fn syncs_read_from_fronts()
    ensures fronts { (system : System) (log : List Entry) (p : Pid) (small : SmallState) (read : List ℕ) (took : Option ℕ) → is_system system ≡ true → IsLegalBy Stands system log → SyncHolds system log p small read took → IsUnended system log p → AreFronts read (saved_of system log p) }
    ensures ends { (system : System) (log : List Entry) (p : Pid) (small : SmallState) (read : List ℕ) (took : Option ℕ) → is_system system ≡ true → IsLegalBy Stands system log → SyncHolds system log p small read took → IsUnended system log p → AreOnEnds read (saved_of system log p) }
{}
