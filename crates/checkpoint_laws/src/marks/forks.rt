//! A fork, or a birth in the log, and the marks of parent and child.
ghost use Rattle.std.specs.Prelude.{ℕ, ◌≡◌, ◌+◌, ◌≤◌, true, false, List, [], ◌∷◌, ◌++◌, length, replicate, Option};
ghost use Rattle.t32_base.specs.declared.process.Pid.{Pid};
ghost use Rattle.sys_text.specs.declared.system.System.{System};
ghost use Rattle.sys_text.specs.Valid.{is_system};
ghost use Rattle.proc_state.specs.declared.process.Process.{Process};
ghost use Rattle.proc_state.specs.State.{SameRest, state_of};
ghost use Rattle.sys_calls.specs.Calls.{Forks};
ghost use Rattle.sys_calls.specs.Fork.{fork_parent};
ghost use Rattle.sys_calls.specs.Next.{next_step};
ghost use Rattle.bus_msg.specs.declared.entry.What.TheVariants.{Birth};
ghost use Rattle.bus_msg.specs.declared.entry.Entry.{Entry};
ghost use Rattle.bus_msg.specs.PlacedAfter.{what};
ghost use Rattle.roll_forward.specs.Advancing.{Advances, IsNewborn};
ghost use Rattle.roll_forward.specs.Rolling.{RollingState};
ghost use Rattle.roll_forward.specs.declared.rolled.Rolled.TheVariants.{Born};
ghost use Rattle.cert_sched.specs.Moved.{any_since_moved};
ghost use Rattle.cert_sched.specs.Steps.{saved_of, start_steps};
ghost use Rattle.cert_sched.specs.Legal.{IsLegalBy, Stands};
ghost use Rattle.cert_sched.specs.Simulation.{IsUnended};
ghost use Rattle.checkpoint_laws.specs.posts.Marked.{IsMarked};
ghost use Rattle.checkpoint_laws.specs.posts.Running.{RunsMarked};
ghost use Rattle.checkpoint_laws.specs.marks.Beside.{LeavesMarks, is_some_page};
ghost use Rattle.checkpoint_laws.specs.marks.Rolled.{RollsMarked};
ghost use Rattle.checkpoint_laws.specs.marks.Sent.{SentUpto};

/// A law and no code: a process that is marked, of which no page was sent from a later step, is marked after a fork, which
/// changes its registers and its ends and no page.
pub fn forks_keep_marks()
    ensures marked { (system : System) (log : List Entry) (p child : Pid) (old new : Process) → state_of new ≡ fork_parent (state_of old) child → SameRest old new → IsMarked system log p old → SentUpto system log p (old.small).steps → IsMarked system log p new }
    // Its pages were sent up to where it is now, too.
    ensures sent { (system : System) (log : List Entry) (p child : Pid) (old new : Process) → state_of new ≡ fork_parent (state_of old) child → SentUpto system log p (old.small).steps → SentUpto system log p (new.small).steps }
{}

/// A law and no code: so does a fork that a parent that rolls forward makes again: it rolls forward with its marks.
pub fn forks_again_keep_marks()
    ensures rolls { (system : System) (log : List Entry) (p child : Pid) (process : Option Process) (old new : RollingState) → Advances (Born child process) old new → RollsMarked system log p old.process → SentUpto system log p ((old.process).small).steps → RollsMarked system log p new.process }
    // Its pages were sent up to where it is now, too.
    ensures sent { (system : System) (log : List Entry) (p child : Pid) (process : Option Process) (old new : RollingState) → Advances (Born child process) old new → SentUpto system log p ((old.process).small).steps → SentUpto system log p ((new.process).small).steps }
{}

/// A law and no code: a birth leaves the marks of each process that has not ended, the parent among them.
pub fn births_leave_marks()
    ensures { (system : System) (log : List Entry) (e : Entry) (parent : Pid) (at : ℕ) (child : Pid) (end : ℕ) (p : Pid) → is_system system ≡ true → IsLegalBy Stands system log → Stands system log e → what e ≡ Birth parent at child end → IsUnended system log p → LeavesMarks system log e p }
{}

/// A law and no code: after the birth of a process that stands before its fork, the parent that has forked runs with its
/// marks,
pub fn births_run_marked()
    ensures parent { (system : System) (log : List Entry) (e : Entry) (p child : Pid) (end : ℕ) (old new : Process) → RunsMarked system log p old → Stands system log e → what e ≡ Birth p ((old.small).steps + 1) child end → next_step (state_of old) ≡ Forks → state_of new ≡ fork_parent (state_of old) child → SameRest old new → SentUpto system log p (old.small).steps → RunsMarked system (log ++ e ∷ []) p new }
    // and so does the child as it was born, with each of its pages marked,
    ensures child { (system : System) (log : List Entry) (e : Entry) (p child : Pid) (end : ℕ) (old c : Process) → RunsMarked system log p old → Stands system log e → what e ≡ Birth p ((old.small).steps + 1) child end → next_step (state_of old) ≡ Forks → IsNewborn (state_of old) (length (old.ram).dirty) child c → RunsMarked system (log ++ e ∷ []) child c }
    // of which no page was sent, from any step.
    ensures sent { (system : System) (log : List Entry) (e : Entry) (p child : Pid) (end : ℕ) (old : Process) (n : ℕ) → RunsMarked system log p old → Stands system log e → what e ≡ Birth p ((old.small).steps + 1) child end → SentUpto system (log ++ e ∷ []) child n }
{}

/// A law and no code: a process that counts from its start, has read none of its saved letters, and has each page marked
/// and none sent is marked as the log says. So is a child that begins again, which never was cut.
pub fn children_begin_marked()
    ensures { (system : System) (log : List Entry) (p : Pid) (process : Process) (n : ℕ) → process.since ≡ start_steps system log p → process.read ≡ [] → (process.mail).letters ≡ saved_of system log p → (process.ram).dirty ≡ replicate n true → (process.small).pages ≤ n → any_since_moved system log p (is_some_page p) ≡ false → IsMarked system log p process }
{}
