//! What `sim` and `run` make of the bytes of their input: a run of clusters, and what is written of it.
ghost use Rattle.std.specs.Prelude.{ℕ, ◌≡◌, ◌<◌, ◌^◌, IfOk, List, None, Ok, true};
ghost use Rattle.cert_sched.specs.Legal.{IsLegal};
ghost use Rattle.cert_sched.specs.Schedule.{schedule_of};
ghost use Rattle.sys_text.specs.Reading.{reading_of as system_reading};
ghost use Rattle.sys_text.specs.Valid.{is_system};
ghost use Rattle.report_text.specs.Good.{EndsAs};
ghost use Rattle.report_text.specs.RunReport.{report_of};
ghost use Rattle.text_parts.specs.Lines.{lines_of};
ghost use Rattle.targon_cli.specs.Explained.{ExplainsRead, ExplainsRun};
ghost use Rattle.targon_cli.specs.Noted.{MayNoteRun, NotesRead, NotesRun};
ghost use Rattle.targon_cli.specs.Reply.{IsRead, IsTextOf, MakesRun, run_text as run_text_of, status_of};

use crate::notes::run_notes;
use crate::reply::{DONE, LOST, Reply, no_cluster, refused_system};
use cert_sched::script::{Script, ScriptWord};
use cluster_run::life::Ran;
use cluster_run::sim::sim;
use cluster_threads::running::run;
use command_words::allowed;
use report_text::run::{Ended, Run};
use report_text::whole::{finished_report, log_text, replayed_report};
use std::alloc::Global;
use std::sync::{Arc, Wait};
use std::thread::Threads;
use sys_text::system::System;
use sys_text::{SystemRefused, read_system};
use t32_base::gate::Gate;
use t32_base::lists::Text;
use t32_base::streams::NoMemory;

/// Runs the clusters of a system text on one thread, and loses them and brings them back by the script. The reply tells of the run, also
/// of its log where that is asked for.
pub fn simulate(
    alloc: Global,
    bytes: &[u8],
    pick: u32,
    log: bool,
    script: &Script,
) -> Result<(Reply, Option<Ran>), NoMemory>
    requires seed { pick < 2 ^ 31 }
    ensures makes { IfOk result (λ r. MakesRun (system_reading bytes.now) script.now (run_text_of log) r.0.status r.0.text r.1) }
    ensures why { IfOk result (λ r. ExplainsRun (system_reading bytes.now) script.now (lines_of bytes.now) r.0.status r.0.why) }
    ensures notes { IfOk result (λ r. NotesRun (system_reading bytes.now) script.now (lines_of bytes.now) r.1 r.0.notes) }
{
    match system_in(alloc, bytes, script)? {
        Read::System(system) => {
            let ran = sim(alloc, &system, script.as_slice(), pick)?;
            let reply = tell(alloc, bytes, &system, script.as_slice(), &ran.run, log)?;
            Ok((reply, Some(ran)))
        }
        Read::Refused(reply) => Ok((reply, None)),
    }
}

/// Runs the clusters of a system text, each on a thread of its own, and loses them and brings them back by the script. The
/// reply tells of the run, also of its log where that is asked for.
pub fn run_threads<R: Threads + Wait + Sync, G: Gate + Sync>(
    rt: &R,
    alloc: Global,
    bytes: &[u8],
    log: bool,
    script: &Script,
    gate: &G,
) -> Result<(Reply, Option<Ran>), NoMemory>
    ensures makes { IfOk result (λ r. MakesRun (system_reading bytes.now) script.now (run_text_of log) r.0.status r.0.text r.1) }
    ensures why { IfOk result (λ r. ExplainsRun (system_reading bytes.now) script.now (lines_of bytes.now) r.0.status r.0.why) }
    ensures notes { IfOk result (λ r. NotesRun (system_reading bytes.now) script.now (lines_of bytes.now) r.1 r.0.notes) }
{
    match system_in(alloc, bytes, script)? {
        Read::System(system) => {
            let ran = run(rt, alloc, &system, script.as_slice(), gate)?;
            let reply = tell(alloc, bytes, &system, script.as_slice(), &ran.run, log)?;
            Ok((reply, Some(ran)))
        }
        Read::Refused(reply) => Ok((reply, None)),
    }
}

/// The system of a text, which has the clusters of a script; or the reply where there is none.
#[derive(Drop)]
pub enum Read {
    System(Arc<System>),
    Refused(Reply),
}

// Reads the system of a text, and asks whether it has the clusters of the script.
fn system_in(alloc: Global, bytes: &[u8], script: &Script) -> Result<Read, NoMemory>
    ensures read { IfOk result (IsRead (system_reading bytes.now) script.now) }
    ensures why { IfOk result (ExplainsRead (system_reading bytes.now) script.now (lines_of bytes.now)) }
    ensures notes { IfOk result (NotesRead (system_reading bytes.now) (lines_of bytes.now)) }
{
    match read_system(alloc, bytes) {
        Ok(system) => with_clusters(alloc, system, script),
        Err(SystemRefused::BadLine { line, rule }) => {
            Ok(Read::Refused(refused_system(alloc, bytes, line, rule)?))
        }
        Err(SystemRefused::NoMemory) => Err(NoMemory),
    }
}

/// A system where it has the clusters of the script, or the reply where it lacks one.
pub fn with_clusters(alloc: Global, system: System, script: &Script) -> Result<Read, NoMemory>
    requires { is_system system ≡ true }
    ensures read { IfOk result (IsRead (Ok system) script.now) }
    ensures why { IfOk result (λ r. (lines : List (List ℕ)) → ExplainsRead (Ok system) script.now lines r) }
    ensures notes { IfOk result (λ r. (lines : List (List ℕ)) → NotesRead (Ok system) lines r) }
{
    if allowed(script, system.clusters, system.pager) {
        Ok(Read::System(Arc::new(alloc, system)?))
    } else {
        Ok(Read::Refused(no_cluster(alloc)?))
    }
}

// The reply that tells of a run of the system of a text.
fn tell(
    alloc: Global,
    bytes: &[u8],
    system: &System,
    script: &[ScriptWord],
    run: &Run,
    log: bool,
) -> Result<Reply, NoMemory>
    requires valid { is_system system.now ≡ true }
    requires legal { IsLegal system.now run.now.log }
    requires items { run.now.items ≡ schedule_of system.now run.now.log }
    requires ended { EndsAs system.now run.now.log run.now.ended }
    ensures done { IfOk result (λ r. (r.status ≡ status_of run.now.ended) × (r.why ≡ None)) }
    ensures text { IfOk result (λ r. IsTextOf system.now (run_text_of log) run.now r.text) }
    ensures notes { IfOk result (λ r. MayNoteRun (lines_of bytes.now) system.now script.now run.now r.notes) }
{
    let text = run_text(alloc, system, run, log)?;
    Ok(Reply {
        status: status_of(run.ended),
        text,
        why: None,
        notes: run_notes(alloc, bytes, system, script, run),
    })
}

/// The status of a run: 0 where it came to its end, and 7 where a loss was not covered.
pub fn status_of(ended: Ended) -> u8
    ensures { result ≡ status_of ended }
{
    match ended {
        Ended::Finished => DONE,
        Ended::Lost { .. } => LOST,
    }
}

// What is written of a run, by its log.
fn run_text(alloc: Global, system: &System, run: &Run, log: bool) -> Result<Text, NoMemory>
    requires valid { is_system system.now ≡ true }
    requires legal { IsLegal system.now run.now.log }
    requires items { run.now.items ≡ schedule_of system.now run.now.log }
    requires ended { EndsAs system.now run.now.log run.now.ended }
    ensures { IfOk result (λ text. IsTextOf system.now (run_text_of log) run.now text) }
{
    let mut text = report(alloc, system, run)?;
    if log {
        text.extend(log_text(alloc, run.log.as_slice())?.as_slice())?;
    }
    Ok(text)
}

// The report of a run. Where nothing can move any more its log tells all; where a loss was not covered its schedule is run again.
fn report(alloc: Global, system: &System, run: &Run) -> Result<Text, NoMemory>
    requires valid { is_system system.now ≡ true }
    requires legal { IsLegal system.now run.now.log }
    requires items { run.now.items ≡ schedule_of system.now run.now.log }
    requires ended { EndsAs system.now run.now.log run.now.ended }
    ensures { IfOk result (λ text. IsTextOf system.now report_of run.now text) }
{
    match run.ended {
        Ended::Finished => finished_report(alloc, system, run),
        Ended::Lost { .. } => replayed_report(alloc, system, run),
    }
}
