//! The family of a process among the births that a cluster keeps.
ghost use Rattle.std.specs.Prelude.{◌≡◌, List};
ghost use Rattle.t32_base.specs.declared.process.Pid.{Pid};
ghost use Rattle.sys_text.specs.declared.system.System.{System};
ghost use Rattle.bus_msg.specs.declared.entry.Entry.{Entry};
ghost use Rattle.cert_sched.specs.Family.{unsynced_family};
ghost use Rattle.log_laws.specs.births.Unsynced.{unsynced_births};
ghost use Rattle.birth_notice.specs.Joined.{family_of};

/// A law and no code: among the births that a cluster keeps the family of a process is the one whose records its new backup gets.
pub fn families_are_joined()
    ensures { (system : System) (log : List Entry) (p : Pid) → family_of (unsynced_births system log) p ≡ unsynced_family system log p }
{}
