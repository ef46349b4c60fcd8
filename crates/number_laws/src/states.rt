//! The numbers of the processes of a log.
ghost use Rattle.std.specs.Prelude.{◌≡◌, true, List, Some};
ghost use Rattle.t32_base.specs.declared.process.Pid.{Pid};
ghost use Rattle.sys_text.specs.declared.system.System.{System};
ghost use Rattle.sys_text.specs.Valid.{is_system};
ghost use Rattle.proc_state.specs.State.{ProcState};
ghost use Rattle.bus_msg.specs.declared.entry.Entry.{Entry};
ghost use Rattle.cert_sched.specs.Legal.{MayStand};
ghost use Rattle.cert_sched.specs.Legal.{IsLegalBy};
ghost use Rattle.cert_sched.specs.Schedule.{process_after};
ghost use Rattle.state_numbers.specs.Fits.{StateFits};

/// A law and no code: the numbers of each process of a legal log have 32 bits, and its bytes eight.
pub fn processes_fit()
    ensures { (system : System) (log : List Entry) (p : Pid) (s : ProcState) → is_system system ≡ true → IsLegalBy MayStand system log → process_after system log p ≡ Some s → StateFits s }
{}
