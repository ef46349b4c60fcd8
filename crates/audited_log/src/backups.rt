//! The rule of new backups: whether a line may stand where a process waits for its backup, or is owed one.
ghost use Rattle.std.specs.Prelude.{◌≡◌};
ghost use Rattle.std.specs.List.{list_all, range_with_len};
ghost use Rattle.cert_sched.specs.Rules.{owes_no_backup};
ghost use Rattle.audited_log.specs.Backups.{HasAwaited, KeepsBackups, is_owed_none, waiter};

use crate::lines::pid_no;
use crate::processes::Processes;
use crate::state::AuditedLog;
use backup_mode::next::next_backup;
use channel_table::placement::Placement;
use entry_lines::{Told, ToldWhat};

/// Whether an entry with a line keeps the rule of new backups, where it may stand next by all other rules: a fullback that a loss moved
/// waits for its new backup, and at the end none is owed. Takes no memory.
pub(crate) fn keeps_backups(told: &Told, state: &AuditedLog) -> bool
    ensures { KeepsBackups state.now told.now result }
{
    let places = state.common.front.places();
    if let ToldWhat::Done = &told.what {
        return owes_none(places);
    }
    match waiter(&told.what) {
        Some(number) => has_awaited(number, places, &state.processes),
        None => true,
    }
}

// The number of the process that waits for its new backup before it does what a line says.
fn waiter(what: &ToldWhat) -> Option<u64>
    ensures { result ≡ waiter what.now }
{
    match what {
        ToldWhat::Mail { from, .. } => Some(*from),
        ToldWhat::Birth { parent, .. } => Some(*parent),
        ToldWhat::Exit { pid, .. } | ToldWhat::Page { pid, .. } | ToldWhat::Sync { pid, .. } => {
            Some(*pid)
        }
        ToldWhat::Fetch { .. }
        | ToldWhat::PageIs { .. }
        | ToldWhat::Crash { .. }
        | ToldWhat::Return { .. }
        | ToldWhat::Fresh { .. }
        | ToldWhat::Standing { .. }
        | ToldWhat::Done
        | ToldWhat::Stop => None,
    }
}

// Whether the process with a number has got the new backup that it waits for. Of one that is not kept nothing is said.
fn has_awaited(number: u64, places: &Placement, processes: &Processes) -> bool
    ensures { HasAwaited number places.now processes.now.entries result }
{
    let Some(pid) = pid_no(number) else {
        return true;
    };
    let Some(audited) = processes.get(&pid.0) else {
        return true;
    };
    !audited.since_moved.waits(pid, places)
}

// Whether no process is owed a backup.
fn owes_none(places: &Placement) -> bool
    ensures { result ≡ owes_no_backup places.now }
{
    first_are_owed_none(places, places.len())
}

// Whether so many, the first in the order of births, are owed none.
fn first_are_owed_none(places: &Placement, count: usize) -> bool
    ensures { result ≡ list_all (is_owed_none places.now) (range_with_len 0 count) }
{
    (0..count).all(|index| is_owed_none(places, index))
}

// Whether the process at a place of the order of births is owed none.
fn is_owed_none(places: &Placement, index: usize) -> bool
    ensures { result ≡ is_owed_none places.now index }
{
    match places.at(index) {
        Some(placed) => next_backup(places, placed.pid).is_none(),
        None => true,
    }
}
