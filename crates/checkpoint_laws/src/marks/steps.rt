//! A silent step keeps the marks of a process.
ghost use Rattle.std.specs.Prelude.{ℕ, ◌≤◌, List};
ghost use Rattle.t32_base.specs.declared.process.Pid.{Pid};
ghost use Rattle.sys_text.specs.declared.system.System.{System};
ghost use Rattle.proc_state.specs.declared.process.Process.{Process};
ghost use Rattle.bus_msg.specs.declared.entry.Entry.{Entry};
ghost use Rattle.checkpoint_laws.specs.posts.Marked.{IsMarked};
ghost use Rattle.checkpoint_laws.specs.posts.Running.{RunsMarked};
ghost use Rattle.checkpoint_laws.specs.marks.Sent.{SentUpto};
ghost use Rattle.checkpoint_laws.specs.marks.Stepped.{StepsSilently};

/// A law and no code: a process that runs with its marks, of which no page was sent from a later step, runs with them
/// after a silent step.
pub fn steps_keep_marks()
    ensures marked { (system : System) (log : List Entry) (p : Pid) (old new : Process) → RunsMarked system log p old → SentUpto system log p (old.small).steps → StepsSilently old new → IsMarked system log p new }
    ensures runs { (system : System) (log : List Entry) (p : Pid) (old new : Process) → RunsMarked system log p old → SentUpto system log p (old.small).steps → StepsSilently old new → RunsMarked system log p new }
    // Its pages were sent up to where it is now, too.
    ensures sent { (system : System) (log : List Entry) (p : Pid) (old new : Process) → SentUpto system log p (old.small).steps → StepsSilently old new → SentUpto system log p (new.small).steps }
{}
