//! Steps of a process that rolls forward keep its marks.
ghost use Rattle.std.specs.Prelude.{ℕ, ◌≡◌, List, Some};
ghost use Rattle.t32_base.specs.declared.process.Pid.{Pid};
ghost use Rattle.t32_base.specs.declared.process.Counts.{Counts};
ghost use Rattle.sys_text.specs.declared.system.System.{System};
ghost use Rattle.proc_state.specs.declared.process.Process.{Process};
ghost use Rattle.roll_forward.specs.Advancing.{going, rolled_on};
ghost use Rattle.bus_msg.specs.declared.entry.Entry.{Entry};
ghost use Rattle.checkpoint_laws.specs.posts.Marked.{IsMarked};
ghost use Rattle.checkpoint_laws.specs.marks.Rolled.{RollsMarked};
ghost use Rattle.checkpoint_laws.specs.marks.Sent.{SentUpto};

/// A law and no code: a process that rolls forward with its marks, of which no page was sent from a later step, has them
/// after steps of which none is a fork, silent ones and ones whose letters are withheld.
pub fn rolled_steps_keep_marks()
    ensures marked { (system : System) (log : List Entry) (p : Pid) (n : ℕ) (old new : Process) (counts left : Counts) (births unborn : List Pid) → RollsMarked system log p old → SentUpto system log p (old.small).steps → rolled_on n (going old counts births) ≡ Some (going new left unborn) → new.since ≡ old.since → IsMarked system log p new }
    // Its pages were sent up to where it is now, too.
    ensures sent { (system : System) (log : List Entry) (p : Pid) (n : ℕ) (old new : Process) (counts left : Counts) (births unborn : List Pid) → SentUpto system log p (old.small).steps → rolled_on n (going old counts births) ≡ Some (going new left unborn) → SentUpto system log p (new.small).steps }
{}
