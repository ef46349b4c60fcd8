//! Which processes a loss moved that have done nothing since.
ghost use Rattle.std.specs.Prelude.{◌≡◌};
ghost use Rattle.cert_sched.specs.Kinds.{is_done_by};
ghost use Rattle.log_renewals.specs.Moved.{KeepsMovedOnly, MovedOnlyBegins};

use bus_msg::entry::{Entry, What};
use t32_base::process::Pid;

/// A law and no code: of which processes this begins to be kept, at boot, at their birth, and where a loss moves them.
pub fn moved_only_begins()
    ensures { MovedOnlyBegins }
{}

/// Whether a process that has only been moved, or not, has so after an entry that does not move it. Takes no memory.
pub fn follow(pid: Pid, moved_only: bool, entry: &Entry) -> bool
    ensures { KeepsMovedOnly pid moved_only result entry.now }
{
    moved_only && !is_done_by(pid, &entry.post.what)
}

// Whether a process does what an entry says: it sends, forks, ends or synchronises.
fn is_done_by(pid: Pid, what: &What) -> bool
    ensures { result ≡ is_done_by pid what.now }
{
    match what {
        What::Mail { letter, .. } => pid.0 == letter.from.0,
        What::Birth { parent, .. } => pid.0 == parent.0,
        What::Exit { pid: own, .. } => pid.0 == own.0,
        What::Page { pid: own, .. } => pid.0 == own.0,
        What::Sync { pid: own, .. } => pid.0 == own.0,
        What::Fetch { .. }
        | What::PageIs { .. }
        | What::Crash { .. }
        | What::Return { .. }
        | What::Rebackup { .. }
        | What::Done { .. }
        | What::Stop => false,
    }
}
