//! A process that a crash moved begins marked, once its pages have come.
ghost use Rattle.std.specs.Prelude.{ℕ, ◌≡◌, true, false, List, [], ◌∷◌, ◌++◌, Some};
ghost use Rattle.t32_base.specs.declared.process.Pid.{Pid};
ghost use Rattle.t32_base.specs.declared.letter.BackRec.{BackRec};
ghost use Rattle.sys_text.specs.declared.system.System.{System};
ghost use Rattle.sys_text.specs.Valid.{is_system};
ghost use Rattle.proc_state.specs.State.{ProcState};
ghost use Rattle.page_waits.specs.Begun.{begun};
ghost use Rattle.bus_msg.specs.declared.entry.What.TheVariants.{PageIs};
ghost use Rattle.bus_msg.specs.declared.entry.Entry.{Entry};
ghost use Rattle.bus_msg.specs.PlacedAfter.{what};
ghost use Rattle.cert_sched.specs.Account.{account_after};
ghost use Rattle.cert_sched.specs.Deeds.{start_of};
ghost use Rattle.cert_sched.specs.Legal.{IsLegalBy, MayStand};
ghost use Rattle.cert_sched.specs.Record.{backup_record};
ghost use Rattle.cert_sched.specs.Rules.{has_its_pages};
ghost use Rattle.cert_sched.specs.Simulation.{IsUnended};
ghost use Rattle.checkpoint_laws.specs.posts.Marked.{IsMarked};
ghost use Rattle.checkpoint_laws.specs.marks.Sent.{SentUpto};

/// A law and no code: a process that lacks pages since a crash moved it sends none.
pub fn lacking_pages_sends_none()
    // So none was sent from any step,
    ensures none { (system : System) (log : List Entry) (p : Pid) (n : ℕ) → IsLegalBy MayStand system log → has_its_pages system log p ≡ false → SentUpto system log p n }
    // and its account has nothing but what was kept.
    ensures kept { (system : System) (log : List Entry) (p : Pid) → IsLegalBy MayStand system log → has_its_pages system log p ≡ false → (account_after system log p).now ≡ (account_after system log p).kept }
{}

/// A law and no code: a process that begins again from its start and its record, right after a page of it came, begins
/// marked: without a mark, and with no letter read.
pub fn rolls_begin_marked()
    ensures marked { (system : System) (log : List Entry) (e : Entry) (p : Pid) (i : ℕ) (bytes : List ℕ) (start : ProcState) (kept : BackRec) → is_system system ≡ true → IsLegalBy MayStand system (log ++ e ∷ []) → IsUnended system (log ++ e ∷ []) p → what e ≡ PageIs p i bytes → start_of system (log ++ e ∷ []) p ≡ Some start → backup_record system (log ++ e ∷ []) p ≡ Some kept → IsMarked system (log ++ e ∷ []) p (begun start kept).process }
    // No page of it was sent since the crash, from any step.
    ensures sent { (system : System) (log : List Entry) (e : Entry) (p : Pid) (i : ℕ) (bytes : List ℕ) (n : ℕ) → IsLegalBy MayStand system (log ++ e ∷ []) → what e ≡ PageIs p i bytes → SentUpto system (log ++ e ∷ []) p n }
{}
