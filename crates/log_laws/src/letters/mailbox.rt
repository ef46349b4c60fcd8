//! The numbers of the letters in a mailbox, and of those that are saved.
ghost use Rattle.std.specs.Prelude.{◌≡◌, true, false, List, Some};
ghost use Rattle.t32_base.specs.declared.process.Pid.{Pid};
ghost use Rattle.sys_text.specs.declared.system.System.{System};
ghost use Rattle.sys_text.specs.Valid.{is_system};
ghost use Rattle.proc_state.specs.State.{ProcState, has_ended};
ghost use Rattle.bus_msg.specs.declared.entry.Entry.{Entry};
ghost use Rattle.cert_sched.specs.Schedule.{process_after};
ghost use Rattle.cert_sched.specs.Deeds.{arrived_count};
ghost use Rattle.cert_sched.specs.Steps.{saved_of};
ghost use Rattle.cert_sched.specs.Legal.{IsLegalBy, Stands};
ghost use Rattle.log_laws.specs.letters.Numbered.{are_numbered};

/// A law and no code: the letters in the mailbox of a process stand by rising number, each below the number of the next
/// that comes.
pub fn mail_is_numbered()
    ensures { (system : System) (log : List Entry) (p : Pid) (s : ProcState) → process_after system log p ≡ Some s → are_numbered s.next s.mail ≡ true }
{}

/// A law and no code: so do the saved letters of a process that has not ended.
pub fn saved_are_numbered()
    ensures { (system : System) (log : List Entry) (p : Pid) (s : ProcState) → is_system system ≡ true → IsLegalBy Stands system log → process_after system log p ≡ Some s → has_ended (s.small).status ≡ false → are_numbered (arrived_count log p) (saved_of system log p) ≡ true }
{}
