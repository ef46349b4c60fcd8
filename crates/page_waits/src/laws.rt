//! The pages of a process, as they come and once all have come.
ghost use Rattle.std.specs.Prelude.{ℕ, ◌≡◌, ◌≢◌, ◌<◌, true, List, Option, Some, is_some, length, slice_get};
ghost use Rattle.std.specs.List.{list_all};
ghost use Rattle.proc_state.specs.State.{ProcState};
ghost use Rattle.page_waits.specs.Begun.{begun, BeginsFrom};
ghost use Rattle.page_waits.specs.Pages.{memory_of, AreAllPages};
ghost use Rattle.page_waits.specs.Waiting.{rolling_of, with_page, CanGoOn, WaitingState};

/// A law and no code: a page that comes is there, the others are as they were, and there are as many.
pub fn one_page_comes()
    ensures there { (w : WaitingState) (i : ℕ) (page : List ℕ) → i < length w.come → slice_get (with_page i page w).come i ≡ Some (Some page) }
    ensures others { (w : WaitingState) (i j : ℕ) (page : List ℕ) → j ≢ i → slice_get (with_page i page w).come j ≡ slice_get w.come j }
    ensures number { (w : WaitingState) (i : ℕ) (page : List ℕ) → length (with_page i page w).come ≡ length w.come }
{}

/// A law and no code: where each page of a memory has come, every page has come, and they make that memory.
pub fn pages_make_memory()
    ensures whole { (memory : List ℕ) (come : List (Option (List ℕ))) → AreAllPages memory come → list_all is_some come ≡ true }
    ensures memory { (memory : List ℕ) (come : List (Option (List ℕ))) → AreAllPages memory come → memory_of come ≡ memory }
{}

/// A law and no code: where each page has come of the memory in which a process started, and its record is that of a
/// process which starts so, it can roll forward, and begins from that start.
pub fn goes_on_as_it_started()
    ensures can { (w : WaitingState) (start : ProcState) → AreAllPages start.memory w.come → BeginsFrom start w.kept → CanGoOn w }
    ensures rolls { (w : WaitingState) (start : ProcState) → AreAllPages start.memory w.come → BeginsFrom start w.kept → rolling_of w ≡ Some (begun start w.kept) }
{}
