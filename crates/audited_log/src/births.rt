//! Lines of births.
ghost use Rattle.std.specs.Prelude.{◌≡◌, IfOk};
ghost use Rattle.std.specs.Option.{IfSome};
ghost use Rattle.entry_lines.specs.declared.told.ToldWhat.TheVariants.{Birth};
ghost use Rattle.audited_log.specs.One.{AnswersOne, IsOfBirth, LeadsOne};

use crate::answer::Answer;
use crate::common::Common;
use audited_process::answering::sender_of;
use audited_process::audited::Audited;
use log_births::births::{Born, ToldChild, next_birth};
use log_processes::sender::Head;
use std::alloc::Global;
use t32_base::streams::NoMemory;

/// The answer to a line by which a process forks.
pub(crate) fn answer(
    alloc: Global,
    head: Head,
    child: u64,
    end: u64,
    common: &Common,
    audited: &mut Audited,
) -> Result<Option<Answer>, NoMemory>
    ensures decides { IfOk result (AnswersOne common.now head.pid audited.old head.place head.by (Birth head.pid.0 head.at child end)) }
    ensures leads { IfOk result (λ answer. IfSome answer (LeadsOne common.now head.pid audited.old audited.new)) }
{
    let kept = sender_of(head.pid, audited, &common.fetches, &common.family);
    let told = ToldChild { pid: child, end };
    let born = next_birth(
        alloc,
        &common.front,
        common.limits,
        head,
        told,
        kept,
        &mut audited.process,
    )?;
    let answer = with_child(child, born)?;
    Ok(answer)
}

// The answer of a birth, if there is one. No clause of a birth says that the child has the pid of the line: it has.
fn with_child(told: u64, born: Option<Born>) -> Result<Option<Answer>, NoMemory>
    ensures { IfOk result (IsOfBirth told born) }
{
    let Some(Born { entry, child }) = born else {
        return Ok(None);
    };
    if u64::from(child.small.pid.0) != told {
        return Err(NoMemory);
    }
    Ok(Some(Answer {
        entry,
        child: Some(child),
    }))
}
