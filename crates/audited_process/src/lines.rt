//! Lines by which a process that is kept sends, forks or synchronises: the entry of each, and where that leads the process.
ghost use Rattle.std.specs.Prelude.{◌≡◌, ◌∷◌, IfOk, option_map};
ghost use Rattle.std.specs.Option.{IfSome};
ghost use Rattle.proc_state.specs.State.{state_of};
ghost use Rattle.page_server.specs.Account.{SameAccounts};
ghost use Rattle.entry_lines.specs.declared.told.ToldWhat.TheVariants.{Birth, Exit, Fetch, Fresh, Mail, Page, Standing, Sync};
ghost use Rattle.cert_sched.specs.Legal.{MayStand};
ghost use Rattle.log_audit.specs.Decides.{Decides};
ghost use Rattle.log_cuts.specs.Ahead.{IsAhead};
ghost use Rattle.audited_process.specs.Lines.{AnswersLine, KeepsAudited, KeepsFetched, KeepsPaged, KeepsRecorded, LeadsTo};

use crate::answering::asked_of;
use crate::audited::Audited;
use backup_records::records::Records;
use birth_notice::family::Family;
use bus_msg::entry::Entry;
use entry_lines::{ToldBy, ToldEnd, ToldLetter};
use log_audit::fetches::next_fetch;
use log_audit::front::Front;
use log_births::births::{Born, ToldChild, next_birth};
use log_cuts::pages::next_page;
use log_cuts::syncs::next_sync;
use log_fetches::fetches::Fetches;
use log_processes::exits::next_exit;
use log_processes::letters::next_letter;
use log_processes::sender::{Head, Limits, Sender};
use log_renewals::fresh::next_fresh;
use log_renewals::standing::{StandingHead, next_standing};
use page_server::disk::{DiskRefused, PageDisk};
use page_server::pager::Pager;
use std::alloc::Global;
use t32_base::process::Pid;
use t32_base::streams::NoMemory;

/// The entry of a line by which the process sends a letter, where the front, and what is kept of the process, are those of the log
/// before it. None where no such entry may follow, and then, as after want of memory, nothing is said of the process. Otherwise it
/// stands where the entry leads it, and is to take that in.
pub fn letter(
    alloc: Global,
    front: &Front,
    limits: Limits,
    head: Head,
    told: &ToldLetter,
    kept: Sender,
    audited: &mut Audited,
) -> Result<Option<Entry>, NoMemory>
    ensures decides { IfOk result (AnswersLine (KeepsAudited front.now limits head.pid audited.old kept)
        head (Mail head.pid.0 head.at told.now)) }
    ensures leads { IfOk result (λ answer. IfSome answer
        (LeadsTo (KeepsAudited front.now limits head.pid audited.old kept) head.pid audited.new)) }
{
    next_letter(alloc, front, limits, head, told, kept, &mut audited.process)
}

/// The entry of a line by which the process ends. It is not kept any more then.
pub fn exit(
    alloc: Global,
    front: &Front,
    limits: Limits,
    head: Head,
    told: ToldEnd,
    kept: Sender,
    audited: &mut Audited,
) -> Result<Option<Entry>, NoMemory>
    ensures { IfOk result (AnswersLine (KeepsAudited front.now limits head.pid audited.old kept) head (Exit head.pid.0 head.at told)) }
{
    next_exit(alloc, front, limits, head, told, kept, &mut audited.process)
}

/// The entry of a line by which the process forks, as of a letter, and its child as that is born.
pub fn birth(
    alloc: Global,
    front: &Front,
    limits: Limits,
    head: Head,
    told: ToldChild,
    kept: Sender,
    audited: &mut Audited,
) -> Result<Option<Born>, NoMemory>
    ensures decides { IfOk result (λ answer. AnswersLine (KeepsAudited front.now limits head.pid audited.old kept)
        head (Birth head.pid.0 head.at told.pid told.end) (option_map (λ born. born.entry) answer)) }
    ensures leads { IfOk result (λ answer. IfSome answer
        (λ born. LeadsTo (KeepsAudited front.now limits head.pid audited.old kept) head.pid audited.new born.entry)) }
{
    next_birth(alloc, front, limits, head, told, kept, &mut audited.process)
}

/// The entry of a line by which the process sends its page `index`, as of a letter, but it stays where it is, and the copy is led ahead.
pub fn page(
    alloc: Global,
    front: &Front,
    limits: Limits,
    head: Head,
    index: u64,
    kept: Sender,
    audited: &mut Audited,
) -> Result<Option<Entry>, NoMemory>
    requires { IsAhead (state_of audited.old.process) audited.old.ahead }
    ensures decides { IfOk result (AnswersLine (KeepsAudited front.now limits head.pid audited.old kept)
        head (Page head.pid.0 head.at index)) }
    ensures leads { IfOk result (λ answer. IfSome answer
        (LeadsTo (KeepsAudited front.now limits head.pid audited.old kept) head.pid audited.new)) }
    ensures ahead { IsAhead (state_of audited.new.process) audited.new.ahead }
{
    next_page(
        alloc,
        front,
        head,
        index,
        kept,
        &audited.since_moved.sent,
        &audited.process,
        &mut audited.ahead,
    )
}

/// The entry of a line by which the process synchronises, as of a letter, where the page server has the accounts of the log, which stay.
pub fn sync<D: PageDisk>(
    alloc: Global,
    front: &Front,
    limits: Limits,
    head: Head,
    took: Option<u64>,
    kept: Sender,
    pager: &mut Pager<D>,
    audited: &mut Audited,
) -> Result<Option<Entry>, DiskRefused>
    requires { IsAhead (state_of audited.old.process) audited.old.ahead }
    ensures decides { IfOk result (AnswersLine (KeepsPaged front.now limits head.pid audited.old kept pager.old)
        head (Sync head.pid.0 head.at took)) }
    ensures leads { IfOk result (λ answer. IfSome answer
        (LeadsTo (KeepsPaged front.now limits head.pid audited.old kept pager.old) head.pid audited.new)) }
    ensures accounts { SameAccounts pager.old pager.new }
    ensures fetches { pager.new.fetches ≡ pager.old.fetches }
{
    next_sync(
        alloc,
        front,
        limits,
        head,
        took,
        kept,
        &audited.begun.start,
        pager,
        &mut audited.process,
        &mut audited.ahead,
    )
}

/// The entry of a line by which the process gets a new backup in the cluster `to` after it has run, as of a synchronisation. None where the
/// line names `others` too.
pub fn fresh<D: PageDisk>(
    alloc: Global,
    front: &Front,
    limits: Limits,
    head: Head,
    others: &[u64],
    to: u64,
    kept: Sender,
    pager: &mut Pager<D>,
    audited: &mut Audited,
) -> Result<Option<Entry>, DiskRefused>
    requires { IsAhead (state_of audited.old.process) audited.old.ahead }
    ensures decides { IfOk result (AnswersLine (KeepsPaged front.now limits head.pid audited.old kept pager.old)
        head (Fresh (head.pid.0 ∷ others.now) head.at to)) }
    ensures leads { IfOk result (λ answer. IfSome answer
        (LeadsTo (KeepsPaged front.now limits head.pid audited.old kept pager.old) head.pid audited.new)) }
    ensures accounts { SameAccounts pager.old pager.new }
    ensures fetches { pager.new.fetches ≡ pager.old.fetches }
{
    next_fresh(
        alloc,
        front,
        limits,
        head,
        others,
        to,
        kept,
        pager,
        &mut audited.process,
        &mut audited.ahead,
    )
}

/// The entry of a line by which a page of the process is asked for, where these are the fetches of the log. None where no such entry
/// may follow. Takes no memory.
pub fn fetch(
    front: &Front,
    place: u64,
    by: ToldBy,
    pid: Pid,
    index: u64,
    fetches: &Fetches,
    audited: &Audited,
) -> Option<Entry>
    ensures { Decides MayStand (KeepsFetched front.now pid audited.now fetches.now)
        (record { place = place; by = by; what = Fetch pid.0 index }) result }
{
    let kept = asked_of(pid, audited, fetches, index);
    next_fetch(front, place, by, pid, index, kept)
}

/// The entry of a line by which the process gets a new backup as it waits, with the `others` of its family, where these are the
/// children and the records of the log. None where no such entry may follow.
pub fn standing(
    alloc: Global,
    front: &Front,
    head: StandingHead,
    others: &[u64],
    family: &Family,
    records: &Records,
    audited: &Audited,
) -> Result<Option<Entry>, NoMemory>
    ensures { IfOk result (Decides MayStand (KeepsRecorded front.now head.pid audited.now family.now records.now)
        (record { place = head.place; by = head.by; what = Standing (head.pid.0 ∷ others.now) head.to })) }
{
    let only = audited.since_moved.only;
    next_standing(alloc, front, head, others, only, family, records)
}
