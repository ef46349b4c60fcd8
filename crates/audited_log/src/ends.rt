//! The line of the end of a run.
ghost use Rattle.std.specs.Prelude.{◌≡◌, IfOk, option_map};
ghost use Rattle.std.specs.Option.{IfSome};
ghost use Rattle.std.specs.Map.{lookup};
ghost use Rattle.t32_base.specs.declared.process.Pid.{Pid};
ghost use Rattle.entry_lines.specs.declared.told.ToldWhat.TheVariants.{Done};
ghost use Rattle.plain_kernel.specs.Maps.{at_key};
ghost use Rattle.audited_log.specs.Answers.{AnswersSaid, IsReady, Leads};
ghost use Rattle.audited_log.specs.Processes.{kept_at, process_in};

use crate::answer::{Answer, childless};
use crate::processes::Processes;
use crate::state::AuditedLog;
use entry_lines::ToldBy;
use log_ends::ends::next_done;
use proc_state::process::Process;
use std::alloc::Global;
use std::collections::BTreeMap;
use t32_base::streams::NoMemory;

/// The answer to the line of the end of the run: it takes the processes out, since none goes on after it.
pub(crate) fn answer(
    alloc: Global,
    place: u64,
    by: ToldBy,
    state: &mut AuditedLog,
) -> Result<Option<Answer>, NoMemory>
    requires { IsReady state.old place }
    ensures decides { IfOk result (AnswersSaid state.old place by Done) }
    ensures leads { IfOk result (λ answer. IfSome answer (Leads state.old state.new)) }
{
    let mut processes = taken_out(alloc, &mut state.processes)?;
    let entry = next_done(alloc, &state.common.front, place, by, &mut processes)?;
    Ok(childless(entry))
}

// The processes themselves.
fn taken_out(alloc: Global, kept: &mut Processes) -> Result<BTreeMap<u32, Process>, NoMemory>
    ensures { IfOk result (λ processes. (p : Pid) → lookup (at_key p.0) processes.entries ≡ process_in (kept_at kept.old.entries p)) }
{
    let mut processes = BTreeMap::new(alloc);
    while let Some((pid, audited)) = kept.pop_first() {
        processes.insert(pid, audited.process)?;
    }
    Ok(processes)
}
