//! How many steps a recovery makes again, and how many letters it reads again.
ghost use Rattle.std.specs.Prelude.{ℕ, ◌≡◌, ◌≤◌, true, List, length, Some};
ghost use Rattle.t32_base.specs.declared.process.Pid.{Pid};
ghost use Rattle.t32_base.specs.declared.letter.BackRec.{BackRec};
ghost use Rattle.sys_text.specs.declared.system.System.{System};
ghost use Rattle.sys_text.specs.Valid.{is_system};
ghost use Rattle.rv_mem.specs.Memory.{Memory};
ghost use Rattle.proc_state.specs.State.{ProcState};
ghost use Rattle.bus_msg.specs.declared.entry.Entry.{Entry};
ghost use Rattle.roll_forward.specs.Deeds.{Deed};
ghost use Rattle.roll_forward.specs.RunsOut.{RunsOut};
ghost use Rattle.roll_forward.specs.Replay.{replayed};
ghost use Rattle.roll_forward.specs.Rolling.{started};
ghost use Rattle.cert_sched.specs.Deeds.{start_of};
ghost use Rattle.cert_sched.specs.Steps.{numbers_read};
ghost use Rattle.cert_sched.specs.Record.{backup_record};
ghost use Rattle.cert_sched.specs.Legal.{IsLegalBy, MayStand};
ghost use Rattle.cert_sched.specs.Simulation.{IsUnended};

/// A law and no code: a process of a log of what is built, which has not ended, starts again from the record that its
/// backup keeps of it, with the memory of its start and the saved letters.
pub fn recoveries_cost_at_most_the_limits()
    // What the record counts has run out after no more steps than a process makes between two synchronisations.
    ensures steps { (system : System) (log : List Entry) (p : Pid) (start : ProcState) (kept : BackRec) (ram : Memory) (n : ℕ) → is_system system ≡ true → IsLegalBy MayStand system log → IsUnended system log p → start_of system log p ≡ Some start → backup_record system log p ≡ Some kept → ram.bytes ≡ start.memory → RunsOut (started start.small ram kept.saved kept.next) kept.counts kept.births n → n ≤ system.syncsteps }
    // By then the process has read no more of the saved letters than it reads between two.
    ensures reads { (system : System) (log : List Entry) (p : Pid) (start there : ProcState) (kept : BackRec) (ram : Memory) (n : ℕ) (deeds : List Deed) → is_system system ≡ true → IsLegalBy MayStand system log → IsUnended system log p → start_of system log p ≡ Some start → backup_record system log p ≡ Some kept → ram.bytes ≡ start.memory → RunsOut (started start.small ram kept.saved kept.next) kept.counts kept.births n → replayed n (started start.small ram kept.saved kept.next) kept.births ≡ Some (there, deeds) → length (numbers_read kept.saved there.mail) ≤ system.syncreads }
{}
