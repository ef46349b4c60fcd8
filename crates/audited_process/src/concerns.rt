//! What an entry is to one process.
ghost use Rattle.std.specs.Prelude.{◌≡◌};
ghost use Rattle.cert_sched.specs.Deeds.{is_cut, is_end_of, is_first};
ghost use Rattle.cert_sched.specs.Moved.{names};
ghost use Rattle.audited_process.specs.Concerns.{changes, is_moved_at, names_in, page_sent};

use bus_msg::entry::What;
use channel_table::placement::Placement;
use t32_base::letter::{BackRec, To};
use t32_base::process::Pid;

/// Whether the process steps by an entry, or gets its letter. Takes no memory.
pub fn changes(pid: Pid, what: &What) -> bool
    ensures { result ≡ changes pid what.now }
{
    match what {
        What::Mail { letter, .. } => letter.from.0 == pid.0 || is_to(pid, letter.to),
        What::Birth { parent, .. } => parent.0 == pid.0,
        What::Sync { .. } | What::Rebackup { .. } => is_cut(pid, what),
        What::Exit { .. }
        | What::Page { .. }
        | What::Fetch { .. }
        | What::PageIs { .. }
        | What::Crash { .. }
        | What::Return { .. }
        | What::Done { .. }
        | What::Stop => false,
    }
}

/// Whether an entry cuts the process: it synchronises, or gets a new backup after it has run. Takes no memory.
pub fn is_cut(pid: Pid, what: &What) -> bool
    ensures { result ≡ is_cut pid what.now }
{
    match what {
        What::Sync { pid: own, .. } => own.0 == pid.0,
        What::Rebackup { fresh, recs, .. } => *fresh && is_first(pid, recs.get().as_slice()),
        What::Mail { .. }
        | What::Birth { .. }
        | What::Exit { .. }
        | What::Page { .. }
        | What::Fetch { .. }
        | What::PageIs { .. }
        | What::Crash { .. }
        | What::Return { .. }
        | What::Done { .. }
        | What::Stop => false,
    }
}

/// Whether an entry moves a process that has not ended. The placement is the one before it. Takes no memory.
pub fn is_moved(pid: Pid, before: &Placement, what: &What) -> bool
    ensures { result ≡ is_moved_at pid before.now what.now }
{
    let What::Crash { k, .. } = what else {
        return false;
    };
    match before.unended(pid) {
        Some(placed) => placed.home == *k && !placed.ended && placed.backup.is_some(),
        None => false,
    }
}

/// The page of the process that an entry tells of, and the step count at which it was so. Takes no memory.
pub fn page_sent(pid: Pid, what: &What) -> Option<(u16, u64)>
    ensures { result ≡ page_sent pid what.now }
{
    match what {
        What::Page {
            pid: own,
            at,
            index,
            ..
        } => {
            if own.0 == pid.0 {
                Some((*index, *at))
            } else {
                None
            }
        }
        _ => None,
    }
}

/// Whether an entry is a new backup for the process. Takes no memory.
pub fn names(pid: Pid, what: &What) -> bool
    ensures { result ≡ names pid what.now }
{
    match what {
        What::Rebackup { recs, .. } => is_among(pid, recs.get().as_slice()),
        _ => false,
    }
}

// Whether a letter that goes there goes to this process.
fn is_to(pid: Pid, to: To) -> bool
    ensures { result ≡ is_end_of pid to }
{
    match to {
        To::Proc(at, _) => at.0 == pid.0,
        To::Tty(_) => false,
    }
}

// Whether the first of these records is of the process.
fn is_first(pid: Pid, recs: &[BackRec]) -> bool
    ensures { result ≡ is_first pid recs.now }
{
    match recs.first() {
        Some(rec) => rec.pid.0 == pid.0,
        None => false,
    }
}

// Whether one of them is.
fn is_among(pid: Pid, recs: &[BackRec]) -> bool
    ensures { result ≡ names_in pid recs.now }
{
    recs.iter().any(|rec| rec.pid.0 == pid.0)
}
