//! A process whose fetch waits lacks the page, and does nothing that others see.
ghost use Rattle.std.specs.Prelude.{ℕ, ◌≡◌, ◌<◌, true, false, List, Some};
ghost use Rattle.t32_base.specs.declared.process.Pid.{Pid};
ghost use Rattle.sys_text.specs.declared.system.System.{System};
ghost use Rattle.bus_msg.specs.declared.entry.Entry.{Entry};
ghost use Rattle.bus_msg.specs.PlacedAfter.{what};
ghost use Rattle.cert_sched.specs.Moved.{any_since_moved, moved_with_state, is_fetch, is_page_is};
ghost use Rattle.cert_sched.specs.Steps.{page_count, process_of};
ghost use Rattle.cert_sched.specs.Rules.{has_its_pages, awaits_pages};
ghost use Rattle.cert_sched.specs.Legal.{IsLegalBy, Stands, MayStand};
ghost use Rattle.log_laws.specs.pages.Waited.{is_waited};

/// A law and no code: who waits for a page lacks it, in a log in which each entry stands.
pub fn waits_lack()
    // It was fetched since a crash moved the process, and has not come since;
    ensures fetched { (system : System) (log : List Entry) (p : Pid) (i : ℕ) → IsLegalBy Stands system log → is_waited system log p i ≡ true → any_since_moved system log p (is_fetch p i) ≡ true }
    ensures not_come { (system : System) (log : List Entry) (p : Pid) (i : ℕ) → IsLegalBy Stands system log → is_waited system log p i ≡ true → any_since_moved system log p (is_page_is p i) ≡ false }
    // the crash found a state, and the process has such a page.
    ensures moved { (system : System) (log : List Entry) (p : Pid) (i : ℕ) → IsLegalBy Stands system log → is_waited system log p i ≡ true → moved_with_state system log p ≡ true }
    ensures within { (system : System) (log : List Entry) (p : Pid) (i : ℕ) → IsLegalBy Stands system log → is_waited system log p i ≡ true → i < page_count system log p }
    // So it has not got its pages,
    ensures has_not { (system : System) (log : List Entry) (p : Pid) (i : ℕ) → IsLegalBy Stands system log → is_waited system log p i ≡ true → has_its_pages system log p ≡ false }
    // and no letter, birth, exit, page or cut of it may follow.
    ensures still { (system : System) (log : List Entry) (e : Entry) (p : Pid) (i : ℕ) → IsLegalBy Stands system log → MayStand system log e → awaits_pages (what e) ≡ true → process_of (what e) ≡ Some p → is_waited system log p i ≡ false }
    // A page that came was fetched before.
    ensures came { (system : System) (log : List Entry) (p : Pid) (i : ℕ) → IsLegalBy Stands system log → any_since_moved system log p (is_page_is p i) ≡ true → any_since_moved system log p (is_fetch p i) ≡ true }
{}
