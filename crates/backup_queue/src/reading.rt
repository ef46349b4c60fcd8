//! What a process has read of the letters that a backup saved stands at the fronts of its ends: laws and no code.
ghost use Rattle.std.specs.Prelude.{ℕ, ◌≡◌, ◌<◌, ◌==◌, false, List, [], ◌∷◌, find, Some};
ghost use Rattle.std.specs.List.{list_any, AllPairs};
ghost use Rattle.t32_base.specs.declared.letter.Arrived.{Arrived};
ghost use Rattle.t32_base.specs.declared.letter.Letter.{Letter};
ghost use Rattle.proc_state.specs.Mail.{is_on, without_first};
ghost use Rattle.proc_state.specs.Queues.{DiffersFrom};
ghost use Rattle.backup_queue.specs.Fronts.{AreFronts, AreOnEnds};
ghost use Rattle.backup_queue.specs.Queue.{saved_with, unread};

/// A law and no code: a process that reads the first letter that waits for an end has read from the fronts.
pub fn reads_are_fronts()
    ensures none { (saved : List Arrived) → AreFronts [] saved }
    // A letter that comes was not read.
    ensures saved { (read : List ℕ) (saved : List Arrived) (letter : Letter) (number : ℕ) → list_any (λ n. n == number) read ≡ false → AreFronts read saved → AreFronts read (saved_with saved letter number) }
    // The first that was not read is read.
    ensures read { (read : List ℕ) (end : ℕ) (saved : List Arrived) (found : Arrived) → AllPairs DiffersFrom saved → find (is_on end) (unread read saved) ≡ Some found → AreFronts read saved → AreFronts (found.number ∷ read) saved }
{}

/// A law and no code: what it had not read is then what was left before, without that letter.
pub fn reads_take_out()
    ensures { (read : List ℕ) (end : ℕ) (saved : List Arrived) (found : Arrived) → AllPairs DiffersFrom saved → find (is_on end) (unread read saved) ≡ Some found → unread (found.number ∷ read) saved ≡ without_first (is_on end) (unread read saved) }
{}

/// A law and no code: where it reads at its 32 ends, the letters that it has read are for them.
pub fn reads_are_on_ends()
    ensures none { (saved : List Arrived) → AreOnEnds [] saved }
    ensures saved { (read : List ℕ) (saved : List Arrived) (letter : Letter) (number : ℕ) → list_any (λ n. n == number) read ≡ false → AreOnEnds read saved → AreOnEnds read (saved_with saved letter number) }
    ensures read { (read : List ℕ) (end : ℕ) (saved : List Arrived) (found : Arrived) → AllPairs DiffersFrom saved → find (is_on end) (unread read saved) ≡ Some found → end < 32 → AreOnEnds read saved → AreOnEnds (found.number ∷ read) saved }
{}
