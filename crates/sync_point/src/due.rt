//! When a process is due to synchronise, and when it takes a signal.
ghost use Rattle.std.specs.Prelude.{◌≡◌, ◌&&◌, not};
ghost use Rattle.proc_state.specs.State.{can_take as can_take_of, state_of};
ghost use Rattle.sync_point.specs.Due.{is_due_by};

use proc_state::process::Process;
use sys_calls::signals::can_take;

/// Whether a process has read at least `syncreads` letters since its last synchronisation, or made at least
/// `syncsteps` steps since. Takes no memory.
pub fn due(process: &Process, syncreads: u32, syncsteps: u32) -> bool
    ensures { result ≡ is_due_by process.now syncreads syncsteps }
{
    let steps = process.small.steps.saturating_sub(process.since);
    process.read.len() >= syncreads as usize || steps >= u64::from(syncsteps)
}

/// Whether a process takes a signal: it can, and no letter is left to withhold and no child to be born again; `left`
/// says that one is. Takes no memory.
pub fn may_take(process: &Process, left: bool) -> bool
    ensures { result ≡ (can_take_of (state_of process.now) && not left) }
{
    !left && can_take(process)
}
