//! A process whose pages have all come rolls forward.
ghost use Rattle.std.specs.Prelude.{ℕ, ◌≡◌, Bool, true, false, List, [], ◌∷◌, ◌++◌};
ghost use Rattle.t32_base.specs.declared.process.Pid.{Pid};
ghost use Rattle.sys_text.specs.declared.system.System.{System};
ghost use Rattle.sys_text.specs.Valid.{is_system};
ghost use Rattle.bus_msg.specs.declared.entry.What.TheVariants.{PageIs};
ghost use Rattle.bus_msg.specs.declared.entry.Entry.{Entry};
ghost use Rattle.bus_msg.specs.PlacedAfter.{what};
ghost use Rattle.cert_sched.specs.Legal.{IsLegalBy, Stands};
ghost use Rattle.cert_sched.specs.Record.{has_state};
ghost use Rattle.cert_sched.specs.Rules.{has_its_pages};
ghost use Rattle.cert_sched.specs.Simulation.{IsUnended};
ghost use Rattle.page_waits.specs.Waiting.{is_whole, CanGoOn, WaitingState};
ghost use Rattle.replay_laws.specs.pages.Waits.{GoesOnAs, WaitsAs};

/// A law and no code: once all pages have come the process goes on, as it started.
pub fn whole_waits_go_on()
    // It can do again all that its record counts,
    ensures can { (system : System) (log : List Entry) (p : Pid) (queued : ℕ → Bool) (w : WaitingState) → is_system system ≡ true → IsLegalBy Stands system log → IsUnended system log p → WaitsAs system log p queued w → is_whole w ≡ true → CanGoOn w }
    // it rolls forward, and is not beyond where it was,
    ensures behind { (system : System) (log : List Entry) (p : Pid) (queued : ℕ → Bool) (w : WaitingState) → is_system system ≡ true → IsLegalBy Stands system log → IsUnended system log p → WaitsAs system log p queued w → is_whole w ≡ true → GoesOnAs system log p w }
    // and it has its pages.
    ensures pages { (system : System) (log : List Entry) (p : Pid) (queued : ℕ → Bool) (w : WaitingState) → WaitsAs system log p queued w → is_whole w ≡ true → has_its_pages system log p ≡ true }
{}

/// A law and no code: a process without a state in its record needs no page.
pub fn stateless_processes_need_no_page()
    ensures { (system : System) (log : List Entry) (p : Pid) → IsLegalBy Stands system log → has_state system log p ≡ false → has_its_pages system log p ≡ true }
{}
