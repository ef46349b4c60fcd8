//! Lines of pages that are sent.
ghost use Rattle.std.specs.Prelude.{◌≡◌, IfOk};
ghost use Rattle.std.specs.Option.{IfSome};
ghost use Rattle.proc_state.specs.State.{state_of};
ghost use Rattle.entry_lines.specs.declared.told.ToldWhat.TheVariants.{Page};
ghost use Rattle.log_cuts.specs.Ahead.{IsAhead};
ghost use Rattle.audited_log.specs.One.{AnswersOne, LeadsOne};

use crate::answer::{Answer, childless};
use crate::common::Common;
use audited_process::answering::sender_of;
use audited_process::audited::Audited;
use audited_process::lines::page;
use log_processes::sender::Head;
use std::alloc::Global;
use t32_base::streams::NoMemory;

/// The answer to a line by which a process sends its page `index`.
pub(crate) fn answer(
    alloc: Global,
    head: Head,
    index: u64,
    common: &Common,
    audited: &mut Audited,
) -> Result<Option<Answer>, NoMemory>
    requires { IsAhead (state_of audited.old.process) audited.old.ahead }
    ensures decides { IfOk result (AnswersOne common.now head.pid audited.old head.place head.by (Page head.pid.0 head.at index)) }
    ensures leads { IfOk result (λ answer. IfSome answer (LeadsOne common.now head.pid audited.old audited.new)) }
{
    let kept = sender_of(head.pid, audited, &common.fetches, &common.family);
    let (front, limits) = (&common.front, common.limits);
    let entry = page(alloc, front, limits, head, index, kept, audited)?;
    Ok(childless(entry))
}
