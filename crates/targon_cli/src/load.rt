//! What `load` makes of its size: the text of its workload, or the run of it.
ghost use Rattle.std.specs.Prelude.{◌≡◌, IfOk, [], None, false, true};
ghost use Rattle.cert_sched.specs.Legal.{IsLegal};
ghost use Rattle.cert_sched.specs.Schedule.{schedule_of};
ghost use Rattle.sys_text.specs.declared.system.System.{System as ASystem};
ghost use Rattle.sys_text.specs.Valid.{is_system};
ghost use Rattle.targon_cli.specs.Explained.{ExplainsLoad};
ghost use Rattle.targon_cli.specs.Noted.{MayNoteRun, NotesRan};
ghost use Rattle.targon_cli.specs.Reply.{IsTextOf, MakesLoad, load_text, status_of};
ghost use Rattle.workload.specs.Ring.{is_size, workload as workload_of};

use crate::notes::run_notes;
use crate::reply::{DONE, Reply, no_cluster};
use crate::runs::{Read, status_of, with_clusters};
use cert_sched::script::{Script, ScriptWord};
use cluster_run::life::Ran;
use cluster_threads::running::run;
use command_words::allowed;
use report_text::load::load_report;
use report_text::run::Run;
use std::alloc::Global;
use std::sync::Wait;
use std::thread::Threads;
use sys_text::printer::system_text;
use sys_text::system::System;
use t32_base::gate::Gate;
use t32_base::streams::NoMemory;
use workload::workload;

/// Prints the workload of a size in canonical form, where it has the clusters of the script.
pub fn print_load(alloc: Global, size: u32, script: &Script) -> Result<Reply, NoMemory>
    requires { is_size size ≡ true }
    ensures makes { IfOk result (λ r. (system : ASystem) → system ≡ workload_of size → MakesLoad true size system script.now r.status r.text None) }
    ensures why { IfOk result (λ r. (system : ASystem) → system ≡ workload_of size → ExplainsLoad system script.now r.status r.why) }
    ensures notes { IfOk result (λ r. r.notes ≡ None) }
{
    let system = workload(alloc, size)?;
    if allowed(script, system.clusters, system.pager) {
        let text = system_text(alloc, &system)?;
        return Ok(Reply {
            status: DONE,
            text,
            why: None,
            notes: None,
        });
    }
    no_cluster(alloc)
}

/// Runs the workload of a size, each cluster on a thread of its own, and loses them and brings them back by the script. The
/// reply is one line that counts what came of it.
pub fn run_load<R: Threads + Wait + Sync, G: Gate + Sync>(
    rt: &R,
    alloc: Global,
    size: u32,
    script: &Script,
    gate: &G,
) -> Result<(Reply, Option<Ran>), NoMemory>
    requires size { is_size size ≡ true }
    ensures makes { IfOk result (λ r. (system : ASystem) → system ≡ workload_of size → MakesLoad false size system script.now r.0.status r.0.text r.1) }
    ensures why { IfOk result (λ r. (system : ASystem) → system ≡ workload_of size → ExplainsLoad system script.now r.0.status r.0.why) }
    ensures notes { IfOk result (λ r. (system : ASystem) → system ≡ workload_of size → NotesRan [] system script.now r.1 r.0.notes) }
{
    let ring = workload(alloc, size)?;
    run_ring(rt, alloc, ring, size, script, gate)
}

// The same of its system.
fn run_ring<R: Threads + Wait + Sync, G: Gate + Sync>(
    rt: &R,
    alloc: Global,
    ring: System,
    size: u32,
    script: &Script,
    gate: &G,
) -> Result<(Reply, Option<Ran>), NoMemory>
    requires valid { is_system ring ≡ true }
    ensures makes { IfOk result (λ r. MakesLoad false size ring script.now r.0.status r.0.text r.1) }
    ensures why { IfOk result (λ r. ExplainsLoad ring script.now r.0.status r.0.why) }
    ensures notes { IfOk result (λ r. NotesRan [] ring script.now r.1 r.0.notes) }
{
    match with_clusters(alloc, ring, script)? {
        Read::System(system) => {
            let ran = run(rt, alloc, &system, script.as_slice(), gate)?;
            let reply = tell(alloc, &system, script.as_slice(), &ran.run, size)?;
            Ok((reply, Some(ran)))
        }
        Read::Refused(reply) => Ok((reply, None)),
    }
}

// The reply that tells of the run of a workload.
fn tell(
    alloc: Global,
    system: &System,
    script: &[ScriptWord],
    run: &Run,
    size: u32,
) -> Result<Reply, NoMemory>
    requires valid { is_system system.now ≡ true }
    requires legal { IsLegal system.now run.now.log }
    requires items { run.now.items ≡ schedule_of system.now run.now.log }
    ensures done { IfOk result (λ r. (r.status ≡ status_of run.now.ended) × (r.why ≡ None)) }
    ensures text { IfOk result (λ r. IsTextOf system.now (load_text size) run.now r.text) }
    ensures notes { IfOk result (λ r. MayNoteRun [] system.now script.now run.now r.notes) }
{
    let text = load_report(alloc, system, run, size)?;
    Ok(Reply {
        status: status_of(run.ended),
        text,
        why: None,
        notes: run_notes(alloc, b"", system, script, run),
    })
}
