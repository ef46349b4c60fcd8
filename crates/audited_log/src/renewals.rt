//! Lines of new backups.
ghost use Rattle.std.specs.Prelude.{◌≡◌, Some, IfOk, slice_range, length};
ghost use Rattle.std.specs.Option.{IfSome};
ghost use Rattle.proc_state.specs.State.{state_of};
ghost use Rattle.entry_lines.specs.declared.told.ToldWhat.TheVariants.{Fresh, Standing};
ghost use Rattle.log_cuts.specs.Ahead.{IsAhead};
ghost use Rattle.audited_log.specs.Named.{behind_first, first_number};
ghost use Rattle.audited_log.specs.One.{AnswersOne, LeadsOne, StaysCommon};

use crate::answer::{Answer, childless};
use crate::common::Common;
use audited_process::answering::sender_of;
use audited_process::audited::Audited;
use audited_process::lines;
use log_processes::sender::Head;
use log_renewals::standing::StandingHead;
use std::alloc::Global;
use t32_base::streams::NoMemory;

/// The answer to a line by which a process that has run, the first of `pids`, gets a new backup in the cluster `to`. The disk of the
/// page server fails at no call, so that it refuses for want of memory alone.
pub(crate) fn fresh(
    alloc: Global,
    head: Head,
    pids: &[u64],
    to: u64,
    common: &mut Common,
    audited: &mut Audited,
) -> Result<Option<Answer>, NoMemory>
    requires ahead { IsAhead (state_of audited.old.process) audited.old.ahead }
    requires first { first_number pids.now ≡ Some head.pid.0 }
    ensures decides { IfOk result (AnswersOne common.old head.pid audited.old head.place head.by (Fresh pids.now head.at to)) }
    ensures leads { IfOk result (λ answer. IfSome answer (LeadsOne common.old head.pid audited.old audited.new)) }
    ensures common { StaysCommon common.old common.new }
{
    let kept = sender_of(head.pid, audited, &common.fetches, &common.family);
    let (front, limits) = (&common.front, common.limits);
    let others = behind_first(pids);
    let pager = &mut common.pager;
    match lines::fresh(alloc, front, limits, head, others, to, kept, pager, audited) {
        Ok(entry) => Ok(childless(entry)),
        Err(_) => Err(NoMemory),
    }
}

/// The answer to a line by which a process that waits, the first of `pids`, gets a new backup with its family.
pub(crate) fn standing(
    alloc: Global,
    head: StandingHead,
    pids: &[u64],
    common: &Common,
    audited: &Audited,
) -> Result<Option<Answer>, NoMemory>
    requires { first_number pids.now ≡ Some head.pid.0 }
    ensures decides { IfOk result (AnswersOne common.now head.pid audited.now head.place head.by (Standing pids.now head.to)) }
    ensures leads { IfOk result (λ answer. IfSome answer (LeadsOne common.now head.pid audited.now audited.now)) }
{
    let others = behind_first(pids);
    let (front, family) = (&common.front, &common.family);
    let records = common.records.records();
    let entry = lines::standing(alloc, front, head, others, family, records, audited)?;
    Ok(childless(entry))
}

// The numbers behind the first.
fn behind_first(numbers: &[u64]) -> &[u64]
    ensures { result.now ≡ behind_first numbers.now }
{
    match numbers.split_first() {
        Some((_, others)) => others,
        None => &[],
    }
}
