//! What is left to do, in steps and synchronisations.
ghost use Rattle.std.specs.Prelude.{ℕ, ◌≡◌, ◌≤◌, ◌+◌, Some, true};
ghost use Rattle.sys_text.specs.Valid.{is_system};
ghost use Rattle.proc_state.specs.State.{ProcState};
ghost use Rattle.sys_calls.specs.declared.steps.Emission.{Emission};
ghost use Rattle.sys_calls.specs.Calls.{Emits};
ghost use Rattle.sys_calls.specs.Next.{next_step, silently};
ghost use Rattle.sys_calls.specs.Small.{weight};
ghost use Rattle.cluster_core.specs.Calls.{FollowsSome, WorkIs};
ghost use Rattle.cluster_core.specs.View.{ClusterView, load};

use crate::worked::Worked;

/// A law and no code: a process that made n silent steps has n fewer left, and one less where its next step
/// sends something.
pub fn steps_lighten()
    ensures silent { (n : ℕ) (s t : ProcState) → silently n s ≡ Some t → weight t.small + n ≤ weight s.small }
    ensures sends { (s t : ProcState) (e : Emission) → next_step s ≡ Emits e t → weight t.small + 1 ≤ weight s.small }
{}

/// A law and no code: where a process of a cluster moved, the processes there have less left to do, which counts two for each
/// step of theirs and of the children that they may still fork, and one for each process that has moved since its last
/// synchronisation; where something is queued, which may be a fetch or an answer, they have no more.
pub fn work_lightens()
    ensures moved { (old new : ClusterView) → is_system old.system ≡ true → FollowsSome old → WorkIs old Worked.Moved new → load new + 1 ≤ load old }
    ensures queued { (old new : ClusterView) → is_system old.system ≡ true → FollowsSome old → WorkIs old Worked.Queued new → load new ≤ load old }
{}
