//! What is left to ask for and to answer of the pages of processes that a loss moved.
ghost use Rattle.std.specs.Prelude.{ℕ, ◌≡◌, ◌<◌, ◌≤◌, true, false, List, [], ◌∷◌, ◌++◌};
ghost use Rattle.t32_base.specs.declared.process.Pid.{Pid};
ghost use Rattle.sys_text.specs.declared.system.System.{System};
ghost use Rattle.sys_text.specs.Valid.{is_system};
ghost use Rattle.bus_msg.specs.declared.entry.What.TheVariants.{Birth, Fetch, PageIs};
ghost use Rattle.bus_msg.specs.declared.entry.Entry.{Entry};
ghost use Rattle.bus_msg.specs.PlacedAfter.{what};
ghost use Rattle.cert_sched.specs.Moved.{any_since_moved, is_fetch, is_page_is};
ghost use Rattle.cert_sched.specs.Rules.{has_its_pages, tells_or_closes};
ghost use Rattle.cert_sched.specs.Legal.{IsLegalBy, Stands};
ghost use Rattle.cert_sched.specs.Simulation.{IsUnended};
ghost use Rattle.log_laws.specs.pages.Waited.{is_waited};
ghost use Rattle.log_laws.specs.pages.Left.{left_of_pages};

/// A law and no code: what is left falls.
pub fn left_falls()
    // A fetch makes it less, and so does a page that comes;
    ensures fetch { (system : System) (log : List Entry) (e : Entry) (p : Pid) (i : ℕ) → Stands system log e → what e ≡ Fetch p i → left_of_pages system (log ++ e ∷ []) < left_of_pages system log }
    ensures page_is { (system : System) (log : List Entry) (e : Entry) (p : Pid) (i : ℕ) (bytes : List ℕ) → Stands system log e → what e ≡ PageIs p i bytes → left_of_pages system (log ++ e ∷ []) < left_of_pages system log }
    // a letter, an exit, the end and a stop do not raise it,
    ensures most { (system : System) (log : List Entry) (e : Entry) → Stands system log e → tells_or_closes (what e) ≡ true → left_of_pages system (log ++ e ∷ []) ≤ left_of_pages system log }
    // and neither does a birth, since no crash has moved the child.
    ensures birth { (system : System) (log : List Entry) (e : Entry) (parent : Pid) (at : ℕ) (child : Pid) (end : ℕ) → is_system system ≡ true → IsLegalBy Stands system log → Stands system log e → what e ≡ Birth parent at child end → left_of_pages system (log ++ e ∷ []) ≤ left_of_pages system log }
{}

/// A law and no code: where nothing is left, each process has its pages, in a log in which each entry stands.
pub fn nothing_left()
    // A page that was fetched since a crash moved a process that has not ended, and that has not come, is waited for.
    ensures waited { (system : System) (log : List Entry) (p : Pid) (i : ℕ) → IsLegalBy Stands system log → IsUnended system log p → any_since_moved system log p (is_fetch p i) ≡ true → any_since_moved system log p (is_page_is p i) ≡ false → is_waited system log p i ≡ true }
    // So with no page to ask for and no fetch that waits, each that has not ended has its pages.
    ensures pages { (system : System) (log : List Entry) (p : Pid) → IsLegalBy Stands system log → left_of_pages system log ≡ 0 → IsUnended system log p → has_its_pages system log p ≡ true }
{}
