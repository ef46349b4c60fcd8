//! Where the next entry leads a process that is kept, as its line tells: laws and no code.
ghost use Rattle.std.specs.Prelude.{◌≡◌, ◌||◌};
ghost use Rattle.t32_base.specs.declared.process.Pid.{Pid};
ghost use Rattle.bus_msg.specs.declared.entry.What.{What};
ghost use Rattle.cert_sched.specs.Deeds.{is_cut};
ghost use Rattle.entry_lines.specs.Told.{told_what};
ghost use Rattle.log_processes.specs.Arrivals.{is_writer};
ghost use Rattle.audited_process.specs.Concerns.{forks, goes_on, steps_by};
ghost use Rattle.audited_process.specs.Leading.{HasRoom, LeadsOn, StaysUnended, is_going_told, is_letter_told, is_standing_told, is_step_told};

/// A law and no code: a process is led by an entry as the answer to its line left it.
pub fn answers_lead()
    ensures { LeadsOn }
{}

/// A law and no code: the line of an entry tells which process steps by it, and which ends.
pub fn lines_tell_who_steps()
    ensures steps { (p : Pid) (w : What) → steps_by p w ≡ is_step_told p.0 (told_what w) }
    ensures sends { (p : Pid) (w : What) → is_writer p w ≡ is_letter_told p.0 (told_what w) }
    ensures stands { (p : Pid) (w : What) → (forks p w || is_cut p w) ≡ is_standing_told p.0 (told_what w) }
    ensures goes_on { (p : Pid) (w : What) → goes_on p w ≡ is_going_told p.0 (told_what w) }
{}

/// A law and no code: a process stays among those that have not ended where an entry ends neither it nor the run.
pub fn processes_stay()
    ensures { StaysUnended }
{}

/// A law and no code: the letters of a process can be counted, where there is room for another entry.
pub fn letters_have_room()
    ensures { HasRoom }
{}
