//! A step that sends something keeps the marks of a process.
ghost use Rattle.std.specs.Prelude.{◌≡◌, List};
ghost use Rattle.t32_base.specs.declared.process.Pid.{Pid};
ghost use Rattle.sys_text.specs.declared.system.System.{System};
ghost use Rattle.proc_state.specs.declared.process.Process.{Process};
ghost use Rattle.proc_state.specs.State.{state_of};
ghost use Rattle.sys_calls.specs.declared.steps.Emission.{Emission};
ghost use Rattle.sys_calls.specs.Calls.{Emits};
ghost use Rattle.sys_calls.specs.Next.{next_step};
ghost use Rattle.bus_msg.specs.declared.entry.Entry.{Entry};
ghost use Rattle.checkpoint_laws.specs.posts.Marked.{IsMarked};
ghost use Rattle.checkpoint_laws.specs.marks.Sent.{SentUpto};

/// A law and no code: a process that is marked, of which no page was sent from a later step, is marked after a step that
/// sends something, which touches its state alone.
pub fn sent_steps_keep_marks()
    ensures marked { (system : System) (log : List Entry) (p : Pid) (old new : Process) (e : Emission) → next_step (state_of old) ≡ Emits e (state_of new) → new ≡ record old { small = new.small } → IsMarked system log p old → SentUpto system log p (old.small).steps → IsMarked system log p new }
    // Its pages were sent up to where it is now, too.
    ensures sent { (system : System) (log : List Entry) (p : Pid) (old new : Process) (e : Emission) → next_step (state_of old) ≡ Emits e (state_of new) → SentUpto system log p (old.small).steps → SentUpto system log p (new.small).steps }
{}
