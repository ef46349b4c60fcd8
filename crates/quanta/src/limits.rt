//! When a process is to synchronise, by the limits of its system.
ghost use Rattle.std.specs.Prelude.{◌≡◌};
ghost use Rattle.quanta.specs.Limited.{is_due};

use proc_state::process::Process;
use sync_point::due::due;
use sys_calls::signals::can_take;

/// The letters and the steps after which a process is due to synchronise, each since its last synchronisation.
#[derive(Clone, Copy, PartialEq, Eq, Debug)]
pub struct Limits {
    pub reads: u32,
    pub steps: u32,
}

impl Limits {
    /// Whether a process that rolls forward no more is to synchronise: since its last synchronisation it read as many letters
    /// or made as many steps, or it can take a signal. Takes no memory.
    #[inline(always)]
    pub fn ask(&self, process: &Process) -> bool
        ensures { result ≡ is_due self.now process.now }
    {
        due(process, self.reads, self.steps) || can_take(process)
    }
}
