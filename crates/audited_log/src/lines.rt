//! Lines of all kinds.
ghost use Rattle.std.specs.Prelude.{◌≡◌, None, Some, IfOk};
ghost use Rattle.std.specs.Option.{IfSome};
ghost use Rattle.proc_state.specs.State.{state_of};
ghost use Rattle.log_cuts.specs.Ahead.{IsAhead};
ghost use Rattle.audited_log.specs.Answers.{AnswersTold, IsReady, Leads, entry_of};
ghost use Rattle.audited_log.specs.Named.{IsPidOf, doer, first_number};
ghost use Rattle.audited_log.specs.One.{AnswersOne, LeadsOne, StaysCommon};

use crate::answer::Answer;
use crate::common::Common;
use crate::state::AuditedLog;
use crate::{births, cuts, ends, exits, fetches, letters, losses, pages, renewals};
use audited_process::audited::Audited;
use entry_lines::{Told, ToldWhat};
use log_processes::sender::Head;
use log_renewals::standing::StandingHead;
use std::alloc::Global;
use t32_base::process::Pid;
use t32_base::streams::NoMemory;

/// The answer to a line, where the state is that of a log in which an entry with its place may stand next: the entry, which led each
/// process to where it stands then. None where no entry with the line may follow, and then nothing is said of the state.
pub(crate) fn answer_to(
    alloc: Global,
    told: &Told,
    state: &mut AuditedLog,
) -> Result<Option<Answer>, NoMemory>
    requires { IsReady state.old told.now.place }
    ensures decides { IfOk result (λ answer. AnswersTold state.old told.now (entry_of answer)) }
    ensures leads { IfOk result (λ answer. IfSome answer (Leads state.old state.new)) }
{
    match doer(&told.what) {
        Some(number) => of_process(alloc, told, number, state),
        None => of_no_process(alloc, told, state),
    }
}

// The answer to a line of a process.
fn of_process(
    alloc: Global,
    told: &Told,
    number: u64,
    state: &mut AuditedLog,
) -> Result<Option<Answer>, NoMemory>
    requires ready { IsReady state.old told.now.place }
    requires doer { doer told.now.what ≡ Some number }
    ensures decides { IfOk result (λ answer. AnswersTold state.old told.now (entry_of answer)) }
    ensures leads { IfOk result (λ answer. IfSome answer (Leads state.old state.new)) }
{
    let Some(pid) = pid_no(number) else {
        return Ok(None);
    };
    let Some(audited) = state.processes.get_mut(&pid.0) else {
        return Ok(None);
    };
    let answer = of_kept(alloc, told, pid, &mut state.common, audited)?;
    Ok(answer)
}

// The answer to a line of a process that is kept.
fn of_kept(
    alloc: Global,
    told: &Told,
    pid: Pid,
    common: &mut Common,
    audited: &mut Audited,
) -> Result<Option<Answer>, NoMemory>
    requires ahead { IsAhead (state_of audited.old.process) audited.old.ahead }
    requires doer { doer told.now.what ≡ Some pid.0 }
    ensures decides { IfOk result (AnswersOne common.old pid audited.old told.now.place told.now.by told.now.what) }
    ensures leads { IfOk result (λ answer. IfSome answer (LeadsOne common.old pid audited.old audited.new)) }
    ensures common { StaysCommon common.old common.new }
{
    let (place, by) = (told.place, told.by);
    match &told.what {
        ToldWhat::Mail { at, letter, .. } => {
            letters::answer(alloc, head_of(told, pid, *at), letter, common, audited)
        }
        ToldWhat::Birth { at, child, end, .. } => {
            births::answer(
                alloc,
                head_of(told, pid, *at),
                *child,
                *end,
                common,
                audited,
            )
        }
        ToldWhat::Exit { at, end, .. } => {
            exits::answer(alloc, head_of(told, pid, *at), *end, common, audited)
        }
        ToldWhat::Page { at, index, .. } => {
            pages::answer(alloc, head_of(told, pid, *at), *index, common, audited)
        }
        ToldWhat::Sync { at, took, .. } => {
            cuts::answer(alloc, head_of(told, pid, *at), *took, common, audited)
        }
        ToldWhat::Fetch { index, .. } => {
            Ok(fetches::fetch(place, by, pid, *index, common, audited))
        }
        ToldWhat::Fresh { pids, at, to } => {
            let head = head_of(told, pid, *at);
            renewals::fresh(alloc, head, pids.as_slice(), *to, common, audited)
        }
        ToldWhat::Standing { pids, to } => {
            let head = StandingHead {
                place,
                by,
                pid,
                to: *to,
            };
            renewals::standing(alloc, head, pids.as_slice(), common, audited)
        }
        ToldWhat::PageIs { .. }
        | ToldWhat::Crash { .. }
        | ToldWhat::Return { .. }
        | ToldWhat::Done
        | ToldWhat::Stop => unreachable!(),
    }
}

// The answer to a line that names no process which does what it says.
fn of_no_process(
    alloc: Global,
    told: &Told,
    state: &mut AuditedLog,
) -> Result<Option<Answer>, NoMemory>
    requires ready { IsReady state.old told.now.place }
    requires doer { doer told.now.what ≡ None }
    ensures decides { IfOk result (λ answer. AnswersTold state.old told.now (entry_of answer)) }
    ensures leads { IfOk result (λ answer. IfSome answer (Leads state.old state.new)) }
{
    let (place, by) = (told.place, told.by);
    match &told.what {
        ToldWhat::PageIs { pid, index } => {
            let answer = fetches::page_is(alloc, place, by, *pid, *index, &mut state.common)?;
            Ok(answer)
        }
        ToldWhat::Crash { k, cause } => Ok(losses::loss(place, by, *k, *cause, &state.common)),
        ToldWhat::Return { k } => Ok(losses::comes_back(place, by, *k, &state.common)),
        ToldWhat::Done => {
            let answer = ends::answer(alloc, place, by, state)?;
            Ok(answer)
        }
        ToldWhat::Stop => Ok(losses::stop(place, by, &state.common)),
        ToldWhat::Fresh { .. } | ToldWhat::Standing { .. } => Ok(None),
        ToldWhat::Mail { .. }
        | ToldWhat::Birth { .. }
        | ToldWhat::Exit { .. }
        | ToldWhat::Page { .. }
        | ToldWhat::Sync { .. }
        | ToldWhat::Fetch { .. } => unreachable!(),
    }
}

// The head of a line of a process.
fn head_of(told: &Told, pid: Pid, at: u64) -> Head
    ensures { result ≡ record { place = told.now.place; by = told.now.by; pid = pid; at = at } }
{
    Head {
        place: told.place,
        by: told.by,
        pid,
        at,
    }
}

// The number of the process that does what a line says.
fn doer(what: &ToldWhat) -> Option<u64>
    ensures { result ≡ doer what.now }
{
    match what {
        ToldWhat::Mail { from, .. } => Some(*from),
        ToldWhat::Birth { parent, .. } => Some(*parent),
        ToldWhat::Exit { pid, .. }
        | ToldWhat::Page { pid, .. }
        | ToldWhat::Sync { pid, .. }
        | ToldWhat::Fetch { pid, .. } => Some(*pid),
        ToldWhat::Fresh { pids, .. } | ToldWhat::Standing { pids, .. } => first(pids.as_slice()),
        ToldWhat::PageIs { .. }
        | ToldWhat::Crash { .. }
        | ToldWhat::Return { .. }
        | ToldWhat::Done
        | ToldWhat::Stop => None,
    }
}

fn first(numbers: &[u64]) -> Option<u64>
    ensures { result ≡ first_number numbers.now }
{
    numbers.first().copied()
}

/// The pid with a number, if it has so few bits.
pub(crate) fn pid_no(number: u64) -> Option<Pid>
    ensures { IsPidOf number result }
{
    if number <= u64::from(u32::MAX) {
        Some(Pid(number as u32))
    } else {
        None
    }
}
