//! What stays of the pages of a process from entry to entry: those that it has got, and what may be asked and answered.
ghost use Rattle.std.specs.Prelude.{ℕ, ◌≡◌, true, false, List, [], ◌∷◌, ◌++◌};
ghost use Rattle.t32_base.specs.declared.process.Pid.{Pid};
ghost use Rattle.sys_text.specs.declared.system.System.{System};
ghost use Rattle.bus_msg.specs.declared.entry.What.TheVariants.{Birth};
ghost use Rattle.bus_msg.specs.declared.entry.Entry.{Entry};
ghost use Rattle.bus_msg.specs.PlacedAfter.{what};
ghost use Rattle.cert_sched.specs.Deeds.{is_birth_of, is_cut};
ghost use Rattle.cert_sched.specs.Moved.{is_fetch};
ghost use Rattle.cert_sched.specs.Steps.{page_count};
ghost use Rattle.cert_sched.specs.Rules.{has_its_pages};
ghost use Rattle.cert_sched.specs.Kinds.{FetchHolds, PageIsHolds};
ghost use Rattle.cert_sched.specs.Legal.{Stands};
ghost use Rattle.log_laws.specs.pages.Next.{moves_next, ends_wait_next};

/// A law and no code: what a process has got it keeps.
pub fn pages_stay()
    // No entry changes the number of its pages but its birth,
    ensures count { (system : System) (log : List Entry) (e : Entry) (p : Pid) → Stands system log e → is_birth_of p (what e) ≡ false → page_count system (log ++ e ∷ []) p ≡ page_count system log p }
    // from which it has as many as its parent;
    ensures born { (system : System) (log : List Entry) (e : Entry) (parent : Pid) (at : ℕ) (child : Pid) (end : ℕ) → Stands system log e → what e ≡ Birth parent at child end → page_count system (log ++ e ∷ []) child ≡ page_count system log parent }
    // and none takes its pages from it, but a crash that moves it.
    ensures pages { (system : System) (log : List Entry) (e : Entry) (p : Pid) → Stands system log e → is_birth_of p (what e) ≡ false → moves_next system log e p ≡ false → has_its_pages system log p ≡ true → has_its_pages system (log ++ e ∷ []) p ≡ true }
{}

/// A law and no code: a fetch that may be sent may still be sent after an entry that is not that fetch and no crash
/// that moves its process.
pub fn fetch_stays()
    ensures { (system : System) (log : List Entry) (e : Entry) (p : Pid) (i : ℕ) → Stands system log e → is_fetch p i (what e) ≡ false → moves_next system log e p ≡ false → FetchHolds system log p i → FetchHolds system (log ++ e ∷ []) p i }
{}

/// A law and no code: an answer that may be sent may still be sent after an entry that does not cut its process and
/// does not end the wait for it.
pub fn page_is_stays()
    ensures { (system : System) (log : List Entry) (e : Entry) (p : Pid) (i : ℕ) (bytes : List ℕ) → is_cut p (what e) ≡ false → ends_wait_next system log e p i ≡ false → PageIsHolds system log p i bytes → PageIsHolds system (log ++ e ∷ []) p i bytes }
{}
