//! Lines of pages that are asked for, and of pages that come.
ghost use Rattle.std.specs.Prelude.{◌≡◌, IfOk};
ghost use Rattle.std.specs.Option.{IfSome};
ghost use Rattle.entry_lines.specs.declared.told.ToldWhat.TheVariants.{Fetch, PageIs};
ghost use Rattle.audited_log.specs.Answers.{AnswersCommon, HasPages, IsChildless};
ghost use Rattle.audited_log.specs.One.{AnswersOne, LeadsOne, StaysCommon};

use crate::answer::{Answer, childless};
use crate::common::Common;
use audited_process::audited::Audited;
use audited_process::lines;
use entry_lines::ToldBy;
use log_audit::answers::next_page;
use std::alloc::Global;
use t32_base::process::Pid;
use t32_base::streams::NoMemory;

/// The answer to a line by which page `index` of a process is asked for. Takes no memory.
pub(crate) fn fetch(
    place: u64,
    by: ToldBy,
    pid: Pid,
    index: u64,
    common: &Common,
    audited: &Audited,
) -> Option<Answer>
    ensures decides { AnswersOne common.now pid audited.now place by (Fetch pid.0 index) result }
    ensures leads { IfSome result (LeadsOne common.now pid audited.now audited.now) }
{
    let (front, fetches) = (&common.front, &common.fetches);
    childless(lines::fetch(front, place, by, pid, index, fetches, audited))
}

/// The answer to a line by which page `index` of the process `pid` comes. The disk of the page server fails at no call, so that it
/// refuses for want of memory alone.
pub(crate) fn page_is(
    alloc: Global,
    place: u64,
    by: ToldBy,
    pid: u64,
    index: u64,
    common: &mut Common,
) -> Result<Option<Answer>, NoMemory>
    requires { HasPages common.old }
    ensures decides { IfOk result (AnswersCommon common.old place by (PageIs pid index)) }
    ensures child { IfOk result (λ answer. IfSome answer IsChildless) }
    ensures common { StaysCommon common.old common.new }
{
    let pager = &mut common.pager;
    match next_page(alloc, &common.front, pager, place, by, pid, index) {
        Ok(entry) => Ok(childless(entry)),
        Err(_) => Err(NoMemory),
    }
}
