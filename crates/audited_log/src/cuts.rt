//! Lines of synchronisations.
ghost use Rattle.std.specs.Prelude.{◌≡◌, IfOk};
ghost use Rattle.std.specs.Option.{IfSome};
ghost use Rattle.proc_state.specs.State.{state_of};
ghost use Rattle.entry_lines.specs.declared.told.ToldWhat.TheVariants.{Sync};
ghost use Rattle.log_cuts.specs.Ahead.{IsAhead};
ghost use Rattle.audited_log.specs.One.{AnswersOne, LeadsOne, StaysCommon};

use crate::answer::{Answer, childless};
use crate::common::Common;
use audited_process::answering::sender_of;
use audited_process::audited::Audited;
use audited_process::lines::sync;
use log_processes::sender::Head;
use std::alloc::Global;
use t32_base::streams::NoMemory;

/// The answer to a line by which a process synchronises. The disk of the page server fails at no call, so that it refuses for want of
/// memory alone.
pub(crate) fn answer(
    alloc: Global,
    head: Head,
    took: Option<u64>,
    common: &mut Common,
    audited: &mut Audited,
) -> Result<Option<Answer>, NoMemory>
    requires { IsAhead (state_of audited.old.process) audited.old.ahead }
    ensures decides { IfOk result (AnswersOne common.old head.pid audited.old head.place head.by (Sync head.pid.0 head.at took)) }
    ensures leads { IfOk result (λ answer. IfSome answer (LeadsOne common.old head.pid audited.old audited.new)) }
    ensures common { StaysCommon common.old common.new }
{
    let kept = sender_of(head.pid, audited, &common.fetches, &common.family);
    let (front, limits) = (&common.front, common.limits);
    let pager = &mut common.pager;
    match sync(alloc, front, limits, head, took, kept, pager, audited) {
        Ok(entry) => Ok(childless(entry)),
        Err(_) => Err(NoMemory),
    }
}
