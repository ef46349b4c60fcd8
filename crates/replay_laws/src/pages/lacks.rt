//! What a process that waits for its pages still lacks.
ghost use Rattle.std.specs.Prelude.{ℕ, ◌≡◌, ◌≢◌, ◌==◌, ◌+◌, Bool, true, false, List, [], Some, None};
ghost use Rattle.t32_base.specs.declared.process.Pid.{Pid};
ghost use Rattle.sys_text.specs.declared.system.System.{System};
ghost use Rattle.bus_msg.specs.declared.entry.Entry.{Entry};
ghost use Rattle.cert_sched.specs.Kinds.{FetchHolds};
ghost use Rattle.cert_sched.specs.Legal.{IsLegalBy, Stands};
ghost use Rattle.cert_sched.specs.Moved.{waiting_fetches};
ghost use Rattle.cert_sched.specs.Simulation.{IsUnended};
ghost use Rattle.page_waits.specs.Waiting.{is_whole, next_page, WaitingState};
ghost use Rattle.replay_laws.specs.pages.Waits.{none_queued, WaitsAs};

/// A law and no code: what a process that waits asks for next.
pub fn next_pages_may_be_asked()
    // Its lowest page that was not asked for may be fetched,
    ensures fetch { (system : System) (log : List Entry) (p : Pid) (w : WaitingState) (i : ℕ) → WaitsAs system log p none_queued w → next_page w ≡ Some i → FetchHolds system log p i }
    // and is asked for with that fetch in the queue.
    ensures asked { (system : System) (log : List Entry) (p : Pid) (w : WaitingState) (i : ℕ) → WaitsAs system log p none_queued w → next_page w ≡ Some i → WaitsAs system log p (λ j. j == i) (record w { asked = w.asked + 1 }) }
{}

/// A law and no code: where a process lacks a page and has asked for all, a fetch waits.
pub fn lacking_pages_are_waited_for()
    ensures { (system : System) (log : List Entry) (p : Pid) (w : WaitingState) → IsLegalBy Stands system log → IsUnended system log p → WaitsAs system log p none_queued w → next_page w ≡ None → is_whole w ≡ false → waiting_fetches system log ≢ [] }
{}
