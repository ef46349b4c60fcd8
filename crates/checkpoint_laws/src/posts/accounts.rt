//! Which pages an account has.
ghost use Rattle.std.specs.Prelude.{◌≡◌, true, List, Some};
ghost use Rattle.t32_base.specs.declared.process.Pid.{Pid};
ghost use Rattle.sys_text.specs.declared.system.System.{System};
ghost use Rattle.sys_text.specs.Valid.{is_system};
ghost use Rattle.proc_state.specs.State.{ProcState};
ghost use Rattle.bus_msg.specs.declared.entry.Entry.{Entry};
ghost use Rattle.cert_sched.specs.Schedule.{process_after};
ghost use Rattle.cert_sched.specs.Account.{account_after};
ghost use Rattle.cert_sched.specs.Legal.{IsLegalBy, Stands};
ghost use Rattle.checkpoint_laws.specs.posts.Paged.{ArePaged};

/// A law and no code: the pages of both accounts of a process stand by rising number, and none is behind its memory.
pub fn accounts_are_paged()
    ensures now { (system : System) (log : List Entry) (p : Pid) (s : ProcState) → is_system system ≡ true → IsLegalBy Stands system log → process_after system log p ≡ Some s → ArePaged (s.small).pages (account_after system log p).now }
    ensures kept { (system : System) (log : List Entry) (p : Pid) (s : ProcState) → is_system system ≡ true → IsLegalBy Stands system log → process_after system log p ≡ Some s → ArePaged (s.small).pages (account_after system log p).kept }
{}
