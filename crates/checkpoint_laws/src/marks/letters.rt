//! A letter that a process receives leaves its marks.
ghost use Rattle.std.specs.Prelude.{List};
ghost use Rattle.t32_base.specs.declared.process.Pid.{Pid};
ghost use Rattle.t32_base.specs.declared.letter.Letter.{Letter};
ghost use Rattle.sys_text.specs.declared.system.System.{System};
ghost use Rattle.proc_state.specs.declared.process.Process.{Process};
ghost use Rattle.bus_msg.specs.declared.entry.Entry.{Entry};
ghost use Rattle.checkpoint_laws.specs.posts.Marked.{IsMarked};
ghost use Rattle.checkpoint_laws.specs.marks.Received.{with_letter};

/// A law and no code: a process that receives a letter is marked as it was, since it has not read it.
pub fn letters_keep_marks()
    ensures kept { (system : System) (log : List Entry) (p : Pid) (process : Process) (letter : Letter) → IsMarked system log p process → IsMarked system log p (with_letter process letter) }
    ensures before { (system : System) (log : List Entry) (p : Pid) (process : Process) (letter : Letter) → IsMarked system log p (with_letter process letter) → IsMarked system log p process }
{}
