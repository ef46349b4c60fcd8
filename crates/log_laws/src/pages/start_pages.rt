//! The pages that come to a process that a loss moved are those with which it starts again.
ghost use Rattle.std.specs.Prelude.{ℕ, ◌≡◌, ◌<◌, true, false, List, [], ◌∷◌, ◌++◌, Some};
ghost use Rattle.std.specs.List.{list_any};
ghost use Rattle.t32_base.specs.declared.process.Pid.{Pid};
ghost use Rattle.sys_text.specs.declared.system.System.{System};
ghost use Rattle.sys_text.specs.Valid.{is_system};
ghost use Rattle.rv_mem.specs.Memory.{page_at};
ghost use Rattle.proc_state.specs.State.{ProcState};
ghost use Rattle.bus_msg.specs.declared.entry.What.TheVariants.{PageIs};
ghost use Rattle.bus_msg.specs.declared.entry.Entry.{Entry};
ghost use Rattle.bus_msg.specs.PlacedAfter.{what};
ghost use Rattle.cert_sched.specs.Parts.{first_of};
ghost use Rattle.cert_sched.specs.Deeds.{is_birth_of, is_cut, start_of};
ghost use Rattle.cert_sched.specs.Account.{account_after, page_in};
ghost use Rattle.cert_sched.specs.Moved.{any_since_moved, moved_with_state, waiting_fetches};
ghost use Rattle.cert_sched.specs.Steps.{page_count};
ghost use Rattle.cert_sched.specs.Kinds.{PageIsHolds};
ghost use Rattle.cert_sched.specs.Rules.{has_its_pages};
ghost use Rattle.cert_sched.specs.Legal.{IsLegalBy, MayStand, Stands};
ghost use Rattle.cert_sched.specs.Simulation.{IsUnended};
ghost use Rattle.log_laws.specs.pages.Waited.{is_waited};

/// A law and no code: a page that is kept for a process, and one that comes, are pages of its start.
pub fn pages_of_the_start()
    // Of a process that was moved with a state and has not ended each page that it has is kept, as it is at its start.
    ensures kept { (system : System) (log : List Entry) (p : Pid) (start : ProcState) (i : ℕ) → is_system system ≡ true → IsLegalBy Stands system log → moved_with_state system log p ≡ true → IsUnended system log p → start_of system log p ≡ Some start → i < page_count system log p → page_in (account_after system log p).kept i ≡ Some (page_at start.memory i) }
    // Who waits for a page has not ended,
    ensures unended { (system : System) (log : List Entry) (p : Pid) (i : ℕ) → IsLegalBy Stands system log → is_waited system log p i ≡ true → IsUnended system log p }
    // so the fetch that waits longest may be answered, with the page of the start,
    ensures answer { (system : System) (log : List Entry) (p : Pid) (i : ℕ) (start : ProcState) → is_system system ≡ true → IsLegalBy Stands system log → first_of (waiting_fetches system log) ≡ Some (p, i) → start_of system log p ≡ Some start → PageIsHolds system log p i (page_at start.memory i) }
    // and a page that comes next is that page.
    ensures next { (system : System) (log : List Entry) (e : Entry) (p : Pid) (i : ℕ) (bytes : List ℕ) (start : ProcState) → is_system system ≡ true → IsLegalBy Stands system log → Stands system log e → what e ≡ PageIs p i bytes → start_of system log p ≡ Some start → bytes ≡ page_at start.memory i }
{}

/// A law and no code: until a process is cut it keeps its start.
pub fn starts_stay()
    // No entry changes it but its cut and its birth,
    ensures one { (system : System) (log : List Entry) (e : Entry) (p : Pid) → is_cut p (what e) ≡ false → is_birth_of p (what e) ≡ false → start_of system (log ++ e ∷ []) p ≡ start_of system log p }
    // so each page that came and was followed by no cut of the process is that of the start.
    ensures came { (system : System) (before after : List Entry) (e : Entry) (p : Pid) (i : ℕ) (bytes : List ℕ) (start : ProcState) → is_system system ≡ true → IsLegalBy Stands system (before ++ e ∷ after) → what e ≡ PageIs p i bytes → list_any (λ (f : Entry). is_cut p (what f)) after ≡ false → start_of system (before ++ e ∷ after) p ≡ Some start → bytes ≡ page_at start.memory i }
    // While it has not got its pages it was not cut since a crash moved it.
    ensures uncut { (system : System) (log : List Entry) (p : Pid) → IsLegalBy MayStand system log → has_its_pages system log p ≡ false → any_since_moved system log p (is_cut p) ≡ false }
{}
