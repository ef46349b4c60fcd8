//! Lines of synchronisations.
ghost use Rattle.std.specs.Prelude.{◌≡◌, None, IfOk};
ghost use Rattle.std.specs.Option.{IfSome};
ghost use Rattle.proc_state.specs.State.{state_of};
ghost use Rattle.page_server.specs.Account.{SameAccounts};
ghost use Rattle.log_cuts.specs.Ahead.{IsAhead};
ghost use Rattle.log_cuts.specs.Syncs.{AnswersSync, ComesToCut, Cuts, LeadsToCut, Takes, cut_may, is_due, sync_of};

use crate::ahead::Ahead;
use crate::memory::is_memory;
use crate::start::{Start, read_since};
use bus_msg::entry::{By, Entry, Post, What};
use bus_msg::shared::Shared;
use log_audit::front::Front;
use log_processes::sender::{
    Head, Limits, Sender, home_may, is_within, letters_waiting, steps_made,
};
use page_server::disk::{DiskRefused, PageDisk};
use page_server::pager::Pager;
use proc_state::process::Process;
use std::alloc::Global;
use sys_calls::signals::{can_take, take_signal};
use t32_base::process::{ClusterNo, Pid};
use t32_base::streams::NoMemory;

/// The entry of a line by which a process synchronises, where the front, what is kept of the process and of where it started,
/// and the page server are those of the log before it. None where no such entry may follow: the process has then made some
/// steps, as it may have after want of memory. Otherwise it stands where it is cut, and has taken the signal that the line
/// tells, and there is no copy. It takes a call of the disk for each page of the process at most, and no account changes.
pub fn next_sync<D: PageDisk>(
    alloc: Global,
    front: &Front,
    limits: Limits,
    head: Head,
    took: Option<u64>,
    kept: Sender,
    start: &Start,
    pager: &mut Pager<D>,
    process: &mut Process,
    ahead: &mut Ahead,
) -> Result<Option<Entry>, DiskRefused>
    requires { IsAhead (state_of process.old) ahead.old }
    ensures decides { IfOk result (AnswersSync front.now limits head kept start.now pager.old (state_of process.old) took) }
    ensures leads { IfOk result (λ answer. IfSome answer (λ e. LeadsToCut front.now limits head.pid kept start.now pager.old (state_of process.old) e (state_of process.new))) }
    ensures accounts { SameAccounts pager.old pager.new }
    ensures fetches { pager.new.fetches ≡ pager.old.fetches }
    ensures ahead { IfOk result (λ answer. IfSome answer (λ _. ahead.new ≡ None)) }
{
    let Some(home) = home_may(front, head, kept) else {
        return Ok(None);
    };
    match come_to_cut(
        alloc,
        limits,
        head.at,
        kept,
        start.stated,
        took,
        process,
        ahead,
    ) {
        Ok(true) => {}
        Ok(false) => return Ok(None),
        Err(_) => return Err(DiskRefused::NoMemory),
    }
    match is_memory(pager, head.pid, &process.ram) {
        Ok(true) => {}
        Ok(false) => return Ok(None),
        Err(fault) => return Err(DiskRefused::Fault(fault)),
    }
    match cut(alloc, front, head, home, took, start, process) {
        Ok(entry) => Ok(entry),
        Err(_) => Err(DiskRefused::NoMemory),
    }
}

// Leads the process to where it may be cut.
fn come_to_cut(
    alloc: Global,
    limits: Limits,
    at: u64,
    kept: Sender,
    stated: bool,
    took: Option<u64>,
    process: &mut Process,
    ahead: &mut Ahead,
) -> Result<bool, NoMemory>
    requires { IsAhead (state_of process.old) ahead.old }
    ensures comes { IfOk result (λ may. ComesToCut limits at kept stated took (state_of process.old) may (state_of process.new)) }
    ensures none { ahead.new ≡ None }
{
    if ahead.catch_up(alloc, process, at)? {
        Ok(cut_may(limits, at, kept, stated, took, process))
    } else {
        Ok(false)
    }
}

// Whether a process may be cut where it stands.
fn cut_may(
    limits: Limits,
    at: u64,
    kept: Sender,
    stated: bool,
    took: Option<u64>,
    process: &Process,
) -> bool
    ensures { result ≡ cut_may limits at kept stated took (state_of process.now) }
{
    !kept.parent
        && steps_made(process) == at
        && is_within(limits, kept, process)
        && is_due(limits, kept, stated, took, process)
}

// Whether it is due.
fn is_due(limits: Limits, kept: Sender, stated: bool, took: Option<u64>, process: &Process) -> bool
    ensures { result ≡ is_due limits kept stated took (state_of process.now) }
{
    let steps = steps_made(process).saturating_sub(kept.start);
    let reads = kept.saved.saturating_sub(letters_waiting(process));
    u64::from(limits.reads) <= reads
        || u64::from(limits.steps) <= steps
        || took.is_some()
        || !stated
}

// Cuts the process, which takes the signal that is told, if one is: the entry by which its home tells of it. None where it
// cannot take that.
fn cut(
    alloc: Global,
    front: &Front,
    head: Head,
    home: ClusterNo,
    told: Option<u64>,
    start: &Start,
    process: &mut Process,
) -> Result<Option<Entry>, NoMemory>
    ensures { IfOk result (λ made. Cuts front.now head home start.now told (state_of process.old) made (state_of process.new)) }
{
    let Some(took) = take(told, process)? else {
        return Ok(None);
    };
    let what = sync_of(alloc, head.pid, start, took, process)?;
    process.synced();
    let by = By::Cluster(home);
    Ok(Some(front.entry_at(head.place, Post { by, what })))
}

// The synchronisation of a process that stands so.
fn sync_of(
    alloc: Global,
    pid: Pid,
    start: &Start,
    took: Option<u8>,
    process: &Process,
) -> Result<What, NoMemory>
    ensures { IfOk result (λ what. what ≡ sync_of pid start.now took (state_of process.now)) }
{
    Ok(What::Sync {
        pid,
        small: Shared::new(alloc, process.small.copy())?,
        read: read_since(alloc, start, process)?,
        took,
    })
}

// Takes the signal that is told, if one is. None where the process cannot take that.
fn take(told: Option<u64>, process: &mut Process) -> Result<Option<Option<u8>>, NoMemory>
    ensures { IfOk result (λ taken. Takes told (state_of process.old) taken (state_of process.new)) }
{
    let Some(signal) = told else {
        return Ok(Some(None));
    };
    if !can_take(process) {
        return Ok(None);
    }
    let taken = take_signal(process)?;
    if u64::from(taken) == signal {
        Ok(Some(Some(taken)))
    } else {
        Ok(None)
    }
}
