//! From the marks of a process to what is asked of its synchronisation.
ghost use Rattle.std.specs.Prelude.{◌≡◌, List};
ghost use Rattle.t32_base.specs.declared.process.Pid.{Pid};
ghost use Rattle.t32_base.specs.declared.process.ClusterNo.{ClusterNo};
ghost use Rattle.sys_text.specs.declared.system.System.{System};
ghost use Rattle.proc_state.specs.declared.process.Process.{Process};
ghost use Rattle.proc_state.specs.State.{state_of};
ghost use Rattle.bus_msg.specs.declared.entry.Entry.{Entry};
ghost use Rattle.sync_point.specs.Batch.{batch, cut_of, took_by};
ghost use Rattle.sync_point.specs.Due.{is_due_by};
ghost use Rattle.sync_point.specs.Laws.{pages_sent, with_pages};
ghost use Rattle.cert_sched.specs.Parts.{rising};
ghost use Rattle.cert_sched.specs.Account.{account_after, all_pages};
ghost use Rattle.cert_sched.specs.Steps.{numbers_read, saved_of};
ghost use Rattle.checkpoint_laws.specs.posts.Sending.{is_due_since};
ghost use Rattle.checkpoint_laws.specs.posts.Cut.{TakesTo};
ghost use Rattle.checkpoint_laws.specs.posts.Running.{RunsMarked};

/// A law and no code: what a process remembers of itself is what the log says.
pub fn marks_lead_there()
    // The letters that it remembers as read are the saved ones that it has read,
    ensures reads { (system : System) (log : List Entry) (p : Pid) (process : Process) → RunsMarked system log p process → rising process.read ≡ numbers_read (saved_of system log p) (process.mail).letters }
    // and so it is of those that it names after it took a signal, where it can take one;
    ensures cut { (system : System) (log : List Entry) (p : Pid) (process : Process) → RunsMarked system log p process → rising (cut_of process).read ≡ numbers_read (saved_of system log p) ((cut_of process).mail).letters }
    ensures takes { (process : Process) → TakesTo (took_by process) (state_of process) (state_of (cut_of process)) }
    // it is due by its own counts where it is by the log,
    ensures due { (system : System) (log : List Entry) (p : Pid) (process : Process) → RunsMarked system log p process → is_due_since system log p (state_of process) ≡ is_due_by process system.syncreads system.syncsteps }
    // and once the pages of its batch came, its account has its whole memory.
    ensures account { (system : System) (log : List Entry) (p : Pid) (process : Process) → RunsMarked system log p process → (by : ClusterNo) → (with_pages (pages_sent (batch process by)) (account_after system log p)).now ≡ all_pages (process.ram).bytes }
{}
