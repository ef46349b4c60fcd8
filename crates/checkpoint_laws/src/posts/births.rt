//! The birth of a process that stands before its fork.
ghost use Rattle.std.specs.Prelude.{◌≡◌, ◌+◌, true, List, Some, option_map};
ghost use Rattle.t32_base.specs.declared.process.Pid.{Pid};
ghost use Rattle.sys_text.specs.declared.system.System.{System};
ghost use Rattle.sys_text.specs.Valid.{is_system};
ghost use Rattle.proc_state.specs.State.{ProcState};
ghost use Rattle.sys_calls.specs.Calls.{Forks};
ghost use Rattle.sys_calls.specs.Fork.{next_end};
ghost use Rattle.sys_calls.specs.Next.{next_step};
ghost use Rattle.bus_msg.specs.declared.entry.By.{By};
ghost use Rattle.bus_msg.specs.declared.entry.What.TheVariants.{Birth};
ghost use Rattle.bus_msg.specs.declared.entry.Entry.{Entry};
ghost use Rattle.bus_msg.specs.Places.{unended_at};
ghost use Rattle.cert_sched.specs.Appended.{entry_of};
ghost use Rattle.cert_sched.specs.Schedule.{placement};
ghost use Rattle.cert_sched.specs.Kinds.{next_child_at};
ghost use Rattle.cert_sched.specs.Legal.{IsLegalBy, Stands};
ghost use Rattle.checkpoint_laws.specs.posts.Sending.{MaySend};

/// A law and no code: where a process that may be sent stands before its fork, its birth may stand next, with the next pid
/// of its home for the child and its lowest end that was never linked.
pub fn birth_posts_stand()
    ensures { (system : System) (log : List Entry) (by : By) (p : Pid) (s : ProcState) (child : Pid) → is_system system ≡ true → IsLegalBy Stands system log → MaySend system log by p s → next_step s ≡ Forks → option_map (next_child_at (placement system log)) (unended_at (placement system log) p) ≡ Some child → Stands system log (entry_of system log (record { by = by; what = Birth p ((s.small).steps + 1) child (next_end s) })) }
{}
