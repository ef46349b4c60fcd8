//! A synchronisation may stand next in the log.
ghost use Rattle.std.specs.Prelude.{ℕ, List, Option};
ghost use Rattle.t32_base.specs.declared.process.Pid.{Pid};
ghost use Rattle.sys_text.specs.declared.system.System.{System};
ghost use Rattle.proc_state.specs.State.{ProcState};
ghost use Rattle.bus_msg.specs.declared.entry.What.TheVariants.{Sync};
ghost use Rattle.bus_msg.specs.declared.entry.By.{By};
ghost use Rattle.bus_msg.specs.declared.entry.Entry.{Entry};
ghost use Rattle.cert_sched.specs.Appended.{entry_of};
ghost use Rattle.cert_sched.specs.Kinds.{after_take};
ghost use Rattle.cert_sched.specs.Legal.{Stands};
ghost use Rattle.checkpoint_laws.specs.posts.Sending.{MaySend, MaySync};

/// A law and no code: the state of a process that may synchronise may stand next, with the letters that it has read
/// in any order. A signal may be taken with it: the state and the letters are then those after the take.
pub fn sync_posts_stand()
    ensures { (system : System) (log : List Entry) (by : By) (p : Pid) (s : ProcState) (read : List ℕ) (took : Option ℕ) → MaySend system log by p s → MaySync system log p s read took → Stands system log (entry_of system log (record { by = by; what = Sync p (after_take took s).small read took })) }
{}
