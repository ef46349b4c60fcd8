//! Lines of letters.
ghost use Rattle.std.specs.Prelude.{◌≡◌, IfOk};
ghost use Rattle.std.specs.Option.{IfSome};
ghost use Rattle.entry_lines.specs.declared.told.ToldWhat.TheVariants.{Mail};
ghost use Rattle.audited_log.specs.One.{AnswersOne, LeadsOne};

use crate::answer::{Answer, childless};
use crate::common::Common;
use audited_process::answering::sender_of;
use audited_process::audited::Audited;
use audited_process::lines::letter;
use entry_lines::ToldLetter;
use log_processes::sender::Head;
use std::alloc::Global;
use t32_base::streams::NoMemory;

/// The answer to a line by which a process sends a letter.
pub(crate) fn answer(
    alloc: Global,
    head: Head,
    told: &ToldLetter,
    common: &Common,
    audited: &mut Audited,
) -> Result<Option<Answer>, NoMemory>
    ensures decides { IfOk result (AnswersOne common.now head.pid audited.old head.place head.by (Mail head.pid.0 head.at told.now)) }
    ensures leads { IfOk result (λ answer. IfSome answer (LeadsOne common.now head.pid audited.old audited.new)) }
{
    let kept = sender_of(head.pid, audited, &common.fetches, &common.family);
    let (front, limits) = (&common.front, common.limits);
    let entry = letter(alloc, front, limits, head, told, kept, audited)?;
    Ok(childless(entry))
}
