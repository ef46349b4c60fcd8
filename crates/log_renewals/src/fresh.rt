//! Lines of new backups of processes that have run.
ghost use Rattle.std.specs.Prelude.{◌≡◌, None, IfOk};
ghost use Rattle.std.specs.Option.{IfSome};
ghost use Rattle.proc_state.specs.State.{state_of};
ghost use Rattle.page_server.specs.Account.{SameAccounts};
ghost use Rattle.backup_mode.specs.Posts.{renewed_record};
ghost use Rattle.log_cuts.specs.Ahead.{IsAhead};
ghost use Rattle.log_renewals.specs.Fresh.{AnswersFresh, ComesToRenewal, LeadsToRenewal, fresh_entry, renewal_may};

use crate::standing::backup_told;
use bus_msg::entry::{By, Entry, Post, What};
use bus_msg::shared::Shared;
use log_audit::front::Front;
use log_cuts::ahead::Ahead;
use log_cuts::memory::is_memory;
use log_processes::sender::{Head, Limits, Sender, home_may, is_within, steps_made};
use page_server::disk::{DiskRefused, PageDisk};
use page_server::pager::Pager;
use proc_state::process::Process;
use std::alloc::Global;
use t32_base::letter::BackRec;
use t32_base::lists::List;
use t32_base::process::{ClusterNo, Counts, Pid};
use t32_base::streams::NoMemory;

/// The entry of a line by which a process that has run gets a new backup in the cluster `to`, where the front, what is kept of the
/// process, and the page server are those of the log before it. None where no such entry may follow, as where the line names
/// `others` too: the process has then made some steps, as it may have after want of memory. Otherwise it stands where its record is,
/// synchronised, and there is no copy. It takes a call of the disk for each page of the process at most, and no account changes.
pub fn next_fresh<D: PageDisk>(
    alloc: Global,
    front: &Front,
    limits: Limits,
    head: Head,
    others: &[u64],
    to: u64,
    kept: Sender,
    pager: &mut Pager<D>,
    process: &mut Process,
    ahead: &mut Ahead,
) -> Result<Option<Entry>, DiskRefused>
    requires { IsAhead (state_of process.old) ahead.old }
    ensures decides { IfOk result (AnswersFresh front.now limits head others.now to kept pager.old (state_of process.old)) }
    ensures leads { IfOk result (λ answer. IfSome answer (λ e. LeadsToRenewal front.now limits head.pid kept pager.old (state_of process.old) e
        (state_of process.new))) }
    ensures accounts { SameAccounts pager.old pager.new }
    ensures fetches { pager.new.fetches ≡ pager.old.fetches }
    ensures ahead { IfOk result (λ answer. IfSome answer (λ _. ahead.new ≡ None)) }
{
    if !others.is_empty() {
        return Ok(None);
    }
    let Some(home) = home_may(front, head, kept) else {
        return Ok(None);
    };
    let Some(to) = backup_told(front, head.pid, to) else {
        return Ok(None);
    };
    match come_to_renewal(alloc, limits, head.at, kept, process, ahead) {
        Ok(true) => {}
        Ok(false) => return Ok(None),
        Err(_) => return Err(DiskRefused::NoMemory),
    }
    match is_memory(pager, head.pid, &process.ram) {
        Ok(true) => {}
        Ok(false) => return Ok(None),
        Err(fault) => return Err(DiskRefused::Fault(fault)),
    }
    match renew(alloc, front, head, home, to, process) {
        Ok(entry) => Ok(Some(entry)),
        Err(_) => Err(DiskRefused::NoMemory),
    }
}

// Leads the process to where it may get a new backup.
fn come_to_renewal(
    alloc: Global,
    limits: Limits,
    at: u64,
    kept: Sender,
    process: &mut Process,
    ahead: &mut Ahead,
) -> Result<bool, NoMemory>
    requires { IsAhead (state_of process.old) ahead.old }
    ensures comes { IfOk result (λ may. ComesToRenewal limits at kept (state_of process.old) may (state_of process.new)) }
    ensures none { ahead.new ≡ None }
{
    if ahead.catch_up(alloc, process, at)? {
        Ok(renewal_may(limits, at, kept, process))
    } else {
        Ok(false)
    }
}

// Whether a process may get a new backup where it stands.
fn renewal_may(limits: Limits, at: u64, kept: Sender, process: &Process) -> bool
    ensures { result ≡ renewal_may limits at kept (state_of process.now) }
{
    !kept.parent && steps_made(process) == at && is_within(limits, kept, process)
}

// The process gets its new backup: the entry by which its home tells of it.
fn renew(
    alloc: Global,
    front: &Front,
    head: Head,
    home: ClusterNo,
    to: ClusterNo,
    process: &mut Process,
) -> Result<Entry, NoMemory>
    ensures entry { IfOk result (λ entry. entry ≡ fresh_entry front.now head home to (state_of process.old)) }
    ensures state { state_of process.new ≡ state_of process.old }
{
    let mut recs = List::new(alloc);
    recs.push(record_as_it_is(alloc, head.pid, process)?)?;
    let what = What::Rebackup {
        to,
        fresh: true,
        recs: Shared::new(alloc, recs)?,
    };
    process.synced();
    let by = By::Cluster(home);
    Ok(front.entry_at(head.place, Post { by, what }))
}

// The record of a process that runs, which has done nothing since.
fn record_as_it_is(alloc: Global, pid: Pid, process: &Process) -> Result<BackRec, NoMemory>
    ensures { IfOk result (λ rec. rec ≡ renewed_record pid (state_of process.now)) }
{
    Ok(BackRec {
        pid,
        state: Some(process.small.copy()),
        saved: process.mail.listed(alloc)?,
        next: process.mail.next(),
        counts: Counts {
            ends: [0; 32],
            signals: 0,
        },
        births: List::new(alloc),
    })
}
