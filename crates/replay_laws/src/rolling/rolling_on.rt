//! A process that rolls forward, from its start until it has caught up.
ghost use Rattle.std.specs.Prelude.{ℕ, ◌≡◌, ◌^◌, ◌<◌, ◌≤◌, true, false, List, [], ◌∷◌, ◌++◌, fold, Some, is_some};
ghost use Rattle.t32_base.specs.declared.process.Pid.{Pid};
ghost use Rattle.t32_base.specs.declared.process.Counts.{Counts};
ghost use Rattle.t32_base.specs.declared.letter.BackRec.{BackRec};
ghost use Rattle.t32_base.specs.declared.letter.Letter.{Letter};
ghost use Rattle.t32_base.specs.Small.{SmallState};
ghost use Rattle.sys_text.specs.declared.system.System.{System};
ghost use Rattle.sys_text.specs.Valid.{is_system};
ghost use Rattle.rv_mem.specs.Memory.{Memory};
ghost use Rattle.proc_state.specs.State.{ProcState, delivered, has_ended, state_of};
ghost use Rattle.sys_calls.specs.Next.{next_step, is_blocked};
ghost use Rattle.write_count.specs.Counting.{counts_of};
ghost use Rattle.bus_msg.specs.declared.entry.Entry.{Entry};
ghost use Rattle.bus_msg.specs.declared.placed.Placed.{Placed};
ghost use Rattle.bus_msg.specs.Places.{unended_at};
ghost use Rattle.bus_msg.specs.PlacedAfter.{what};
ghost use Rattle.roll_forward.specs.Deeds.{letters_in, births_in};
ghost use Rattle.roll_forward.specs.RunsOut.{RunsOut, RunsOn, nothing_left};
ghost use Rattle.roll_forward.specs.Rolling.{CanRoll, RollingState, started, with_saved};
ghost use Rattle.roll_forward.specs.Advancing.{Advances, Going, rolled_on};
ghost use Rattle.roll_forward.specs.declared.rolled.Rolled.{Rolled};
ghost use Rattle.cert_sched.specs.Schedule.{placement, process_after};
ghost use Rattle.cert_sched.specs.Deeds.{is_cut, start_of, since, deeds_in, letter_for, arrived_count};
ghost use Rattle.cert_sched.specs.Steps.{silent_upto};
ghost use Rattle.cert_sched.specs.Losses.{is_from};
ghost use Rattle.cert_sched.specs.Record.{backup_record, has_state};
ghost use Rattle.cert_sched.specs.Rules.{is_over};
ghost use Rattle.cert_sched.specs.Legal.{IsLegalBy, Stands};
ghost use Rattle.cert_sched.specs.Simulation.{IsUnended};
ghost use Rattle.cert_sched.specs.Rolling.{refilled, RollsAs};
ghost use Rattle.replay_laws.specs.rolling.Behind.{EndsExactly, RollsBehind, RunsAhead};

/// A law and no code: where a process begins to roll forward.
pub fn rolling_begins()
    // As it started, with its saved letters, it has to do again all that it did since.
    ensures start { (system : System) (log : List Entry) (p : Pid) (start : ProcState) → start_of system log p ≡ Some start → RollsAs system log p (refilled log p start) (counts_of (letters_in (since log p))) (births_in (since log p)) }
    // The process of its record, with the memory of its start, has to do again what the record counts.
    ensures recorded { (system : System) (log : List Entry) (p : Pid) (start : ProcState) (kept : BackRec) (small : SmallState) (ram : Memory) → start_of system log p ≡ Some start → backup_record system log p ≡ Some kept → kept.state ≡ Some small → ram.bytes ≡ start.memory → RollsAs system log p (started small ram kept.saved kept.next) kept.counts kept.births }
    // Where it has not ended it is not beyond where it was.
    ensures behind { (system : System) (log : List Entry) (p : Pid) (start : ProcState) (kept : BackRec) (small : SmallState) (ram : Memory) → is_system system ≡ true → IsLegalBy Stands system log → IsUnended system log p → start_of system log p ≡ Some start → backup_record system log p ≡ Some kept → kept.state ≡ Some small → ram.bytes ≡ start.memory → RollsBehind system log p (started small ram kept.saved kept.next) kept.counts kept.births }
    // Its record has a state where it is a root or was cut, and nowhere else;
    ensures has_state { (system : System) (log : List Entry) (p : Pid) (kept : BackRec) → backup_record system log p ≡ Some kept → is_some kept.state ≡ has_state system log p }
    // that is the state of its start.
    ensures stated { (system : System) (log : List Entry) (p : Pid) (start : ProcState) (kept : BackRec) → has_state system log p ≡ true → start_of system log p ≡ Some start → backup_record system log p ≡ Some kept → kept.state ≡ Some start.small }
    // From its start each process rolls forward, with the saved letters of its record,
    ensures from_kept { (system : System) (log : List Entry) (p : Pid) (start : ProcState) (kept : BackRec) → is_system system ≡ true → IsLegalBy Stands system log → IsUnended system log p → start_of system log p ≡ Some start → backup_record system log p ≡ Some kept → RollsBehind system log p (with_saved start kept.saved kept.next) kept.counts kept.births }
    // and so with its state and the memory of its start.
    ensures from_start { (system : System) (log : List Entry) (p : Pid) (start : ProcState) (kept : BackRec) (ram : Memory) → is_system system ≡ true → IsLegalBy Stands system log → IsUnended system log p → start_of system log p ≡ Some start → backup_record system log p ≡ Some kept → ram.bytes ≡ start.memory → RollsBehind system log p (started start.small ram kept.saved kept.next) kept.counts kept.births }
{}

/// A law and no code: what the log brings to a process that rolls forward.
pub fn entries_reach_it()
    // An entry that another than its home sends tells of none of its deeds.
    ensures others { (system : System) (log : List Entry) (e : Entry) (p : Pid) (q : Placed) → Stands system log e → unended_at (placement system log) p ≡ Some q → is_from q.home e.post.by ≡ false → deeds_in p (what e) ≡ [] }
    // Nor does such an entry cut it.
    ensures uncut { (system : System) (log : List Entry) (e : Entry) (p : Pid) (q : Placed) → Stands system log e → unended_at (placement system log) p ≡ Some q → is_from q.home e.post.by ≡ false → is_cut p (what e) ≡ false }
    // An entry that tells of none of its deeds, and is no cut of it, brings it its letters and leaves what is left:
    ensures standing { (system : System) (log : List Entry) (e : Entry) (p : Pid) (s : ProcState) (counts : Counts) (births : List Pid) → is_system system ≡ true → IsLegalBy Stands system (log ++ e ∷ []) → is_cut p (what e) ≡ false → deeds_in p (what e) ≡ [] → RollsAs system log p s counts births → RollsAs system (log ++ e ∷ []) p (fold delivered s (letter_for p (what e))) counts births }
    // a letter to it,
    ensures letter { (system : System) (log : List Entry) (e : Entry) (p : Pid) (s : ProcState) (counts : Counts) (births : List Pid) (letter : Letter) → is_system system ≡ true → IsLegalBy Stands system (log ++ e ∷ []) → is_cut p (what e) ≡ false → deeds_in p (what e) ≡ [] → letter_for p (what e) ≡ letter ∷ [] → RollsAs system log p s counts births → RollsAs system (log ++ e ∷ []) p (delivered s letter) counts births }
    // and one that brings it none, as a loss.
    ensures quiet { (system : System) (log : List Entry) (e : Entry) (p : Pid) (s : ProcState) (counts : Counts) (births : List Pid) → is_system system ≡ true → IsLegalBy Stands system (log ++ e ∷ []) → is_cut p (what e) ≡ false → deeds_in p (what e) ≡ [] → letter_for p (what e) ≡ [] → RollsAs system log p s counts births → RollsAs system (log ++ e ∷ []) p s counts births }
    // Where it was not beyond where it was, it is not after the entry.
    ensures behind { (system : System) (log : List Entry) (e : Entry) (p : Pid) (s : ProcState) (counts : Counts) (births : List Pid) → is_system system ≡ true → IsLegalBy Stands system (log ++ e ∷ []) → IsUnended system log p → is_cut p (what e) ≡ false → deeds_in p (what e) ≡ [] → RollsBehind system log p s counts births → RollsBehind system (log ++ e ∷ []) p (fold delivered s (letter_for p (what e))) counts births }
{}

/// A law and no code: the steps of a process that rolls forward.
pub fn rolling_goes_on()
    // While something is left its next step is silent, or sends a letter that is counted, or bears the next child; and it rolls forward from there.
    ensures step { (system : System) (log : List Entry) (p : Pid) (s : ProcState) (counts : Counts) (births : List Pid) → is_system system ≡ true → IsLegalBy Stands system log → IsUnended system log p → RollsAs system log p s counts births → nothing_left counts births ≡ false → RunsOn s counts (λ t left rest. RollsBehind system log p t left rest) (next_step s) births }
    // So it does after some of the steps ahead,
    ensures steps { (system : System) (log : List Entry) (p : Pid) (ahead n : ℕ) (g h : Going) → is_system system ≡ true → IsLegalBy Stands system log → IsUnended system log p → RollsAs system log p g.state g.counts g.births → RunsOut g.state g.counts g.births ahead → n ≤ ahead → rolled_on n g ≡ Some h → RollsAs system log p h.state h.counts h.births }
    // is not beyond where it was if it was not before,
    ensures behind { (system : System) (log : List Entry) (p : Pid) (ahead n : ℕ) (g h : Going) → is_system system ≡ true → IsLegalBy Stands system log → IsUnended system log p → RollsBehind system log p g.state g.counts g.births → RunsOut g.state g.counts g.births ahead → n ≤ ahead → rolled_on n g ≡ Some h → RollsBehind system log p h.state h.counts h.births }
    // and so after one step, a fork among them.
    ensures advanced { (system : System) (log : List Entry) (p : Pid) (old new : RollingState) (r : Rolled) → is_system system ≡ true → IsLegalBy Stands system log → IsUnended system log p → RollsAs system log p (state_of old.process) old.counts old.births → nothing_left old.counts old.births ≡ false → Advances r old new → RollsBehind system log p (state_of new.process) new.counts new.births }
{}

/// A law and no code: a process that rolls forward runs out, within the steps that the process in the kernel
/// without failures has made more.
pub fn rolling_runs_out()
    // The steps until nothing is left are no more than those that that process has made more.
    ensures ahead { (system : System) (log : List Entry) (p : Pid) (s : ProcState) (counts : Counts) (births : List Pid) → is_system system ≡ true → IsLegalBy Stands system log → IsUnended system log p → RollsAs system log p s counts births → RunsAhead system log p s counts births }
    // So it can roll, where that process has made fewer than 2 ^ 64.
    ensures can { (system : System) (log : List Entry) (p : Pid) (now s : ProcState) (counts : Counts) (births : List Pid) → is_system system ≡ true → IsLegalBy Stands system log → IsUnended system log p → process_after system log p ≡ Some now → now.small.steps < 2 ^ 64 → RollsAs system log p s counts births → CanRoll s counts births }
    // No process makes so many steps.
    ensures always { (system : System) (log : List Entry) (p : Pid) (s : ProcState) (counts : Counts) (births : List Pid) → is_system system ≡ true → IsLegalBy Stands system log → IsUnended system log p → RollsAs system log p s counts births → CanRoll s counts births }
{}

/// A law and no code: a process that rolls forward has not ended, and while something is left it does not wait.
pub fn rolling_has_not_ended()
    ensures alive { (system : System) (log : List Entry) (p : Pid) (s : ProcState) (counts : Counts) (births : List Pid) → is_system system ≡ true → IsLegalBy Stands system log → IsUnended system log p → RollsAs system log p s counts births → has_ended s.small.status ≡ false }
    ensures moves { (system : System) (log : List Entry) (p : Pid) (s : ProcState) (counts : Counts) (births : List Pid) → is_system system ≡ true → IsLegalBy Stands system log → IsUnended system log p → RollsAs system log p s counts births → nothing_left counts births ≡ false → is_blocked (next_step s) ≡ false }
{}

/// A law and no code: what a process that rolls forward has of its own.
pub fn rolling_keeps_its_numbers()
    // As many letters have arrived as came to it.
    ensures next { (system : System) (log : List Entry) (p : Pid) (s : ProcState) (counts : Counts) (births : List Pid) → RollsAs system log p s counts births → s.next ≡ arrived_count log p }
    ensures pid { (system : System) (log : List Entry) (p : Pid) (s : ProcState) (counts : Counts) (births : List Pid) → RollsAs system log p s counts births → s.small.pid ≡ p }
{}

/// A law and no code: in a log that is not over, the last step of a process in the kernel without failures is its
/// last deed since it started, or it is at its start, as right after a cut.
pub fn last_steps_are_deeds()
    ensures { (system : System) (log : List Entry) (p : Pid) (now : ProcState) → is_system system ≡ true → IsLegalBy Stands system log → is_over system log ≡ false → IsUnended system log p → process_after system log p ≡ Some now → EndsExactly system log p now }
{}

/// A law and no code: so a process that rolls forward catches up with the process in that kernel.
pub fn rolling_catches_up()
    // Where it is not beyond where it was and has nothing left it is that process, and stands in the log at its own steps.
    ensures there { (system : System) (log : List Entry) (p : Pid) (s : ProcState) (counts : Counts) (births : List Pid) → is_system system ≡ true → IsLegalBy Stands system log → is_over system log ≡ false → IsUnended system log p → RollsBehind system log p s counts births → nothing_left counts births ≡ true → process_after system log p ≡ Some s }
    ensures silent { (system : System) (log : List Entry) (p : Pid) (s : ProcState) (counts : Counts) (births : List Pid) → is_system system ≡ true → IsLegalBy Stands system log → is_over system log ≡ false → IsUnended system log p → RollsBehind system log p s counts births → nothing_left counts births ≡ true → silent_upto system log p s.small.steps ≡ Some s }
    // So it is after all the steps ahead, where it was not beyond before them, or where something was left.
    ensures after { (system : System) (log : List Entry) (p : Pid) (ahead : ℕ) (g h : Going) → is_system system ≡ true → IsLegalBy Stands system log → is_over system log ≡ false → IsUnended system log p → RollsBehind system log p g.state g.counts g.births → RunsOut g.state g.counts g.births ahead → rolled_on ahead g ≡ Some h → process_after system log p ≡ Some h.state }
    ensures from_left { (system : System) (log : List Entry) (p : Pid) (ahead : ℕ) (g h : Going) → is_system system ≡ true → IsLegalBy Stands system log → is_over system log ≡ false → IsUnended system log p → RollsAs system log p g.state g.counts g.births → nothing_left g.counts g.births ≡ false → RunsOut g.state g.counts g.births ahead → rolled_on ahead g ≡ Some h → process_after system log p ≡ Some h.state }
{}
