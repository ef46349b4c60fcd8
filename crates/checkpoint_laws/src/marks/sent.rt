//! Which pages of a process were sent, entry by entry.
ghost use Rattle.std.specs.Prelude.{ℕ, ◌≡◌, ◌≤◌, true, false, List, [], ◌∷◌, ◌++◌};
ghost use Rattle.t32_base.specs.declared.process.Pid.{Pid};
ghost use Rattle.sys_text.specs.declared.system.System.{System};
ghost use Rattle.bus_msg.specs.declared.entry.Entry.{Entry};
ghost use Rattle.bus_msg.specs.PlacedAfter.{what};
ghost use Rattle.log_laws.specs.pages.Next.{moves_next};
ghost use Rattle.checkpoint_laws.specs.marks.Sent.{SentUpto, is_later_page};

/// A law and no code: up to which step the pages of a process were sent.
pub fn pages_are_sent_upto()
    // At the start none was sent, nor after a crash that moves the process;
    ensures start { (system : System) (p : Pid) (n : ℕ) → SentUpto system [] p n }
    ensures moved { (system : System) (log : List Entry) (p : Pid) (e : Entry) (n : ℕ) → moves_next system log e p ≡ true → SentUpto system (log ++ e ∷ []) p n }
    // an entry that is no page of it from a later step leaves that,
    ensures on { (system : System) (log : List Entry) (p : Pid) (e : Entry) (n : ℕ) → is_later_page p n (what e) ≡ false → SentUpto system log p n → SentUpto system (log ++ e ∷ []) p n }
    // and so does a later step.
    ensures later { (system : System) (log : List Entry) (p : Pid) (n m : ℕ) → n ≤ m → SentUpto system log p n → SentUpto system log p m }
{}
