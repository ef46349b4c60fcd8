//! What is printed of a run.
ghost use Rattle.std.specs.Prelude.{◌≡◌, ◌++◌, OnOk, IfOk, Some, count_by, length, string_bytes, true};
ghost use Rattle.std.specs.List.{flat_map, list_any};
ghost use Rattle.bus_msg.specs.PlacedAfter.{what as says};
ghost use Rattle.bus_msg.specs.Text.{line_of};
ghost use Rattle.sys_text.specs.Valid.{is_system};
ghost use Rattle.plain_kernel.specs.Apply.{plain_run};
ghost use Rattle.plain_kernel.specs.Kernel.{Kernel};
ghost use Rattle.cert_sched.specs.Legal.{IsLegal};
ghost use Rattle.cert_sched.specs.Schedule.{schedule_of};
ghost use Rattle.cert_sched.specs.Scripted.{is_finished};
ghost use Rattle.report_text.specs.Report.{newline};
ghost use Rattle.report_text.specs.RunReport.{at_place, loss_part, run_part, is_crash as is_crash_of, losses_part, lost_part, no_crash, is_sync as is_sync_of, bus_part, report_of, log_lines, log_text_of};

use crate::outcome::Outcome;
use crate::plain::plain_report;
use crate::run::{Ended, Run};
use bus_msg::entry::{Entry, What};
use bus_msg::text::put_entry;
use cert_sched::items_text;
use plain_kernel::item::RunRefused;
use plain_kernel::plain::{self, Plain};
use std::alloc::Global;
use sys_text::system::System;
use t32_base::lists::{Bytes, Text};
use t32_base::process::ClusterNo;
use t32_base::streams::NoMemory;

/// The report of a run, where `plain` is the kernel after the run's schedule: the terminals and the
/// processes, the crashes and returns, how many entries of which kind the log has, and the schedule.
pub fn report(alloc: Global, plain: &Plain, run: &Run) -> Result<Text, NoMemory>
    ensures { IfOk result (λ text. text ≡ report_of plain.now run.now) }
{
    let mut text = plain_report(alloc, plain)?;
    put_run(alloc, &mut text, run)?;
    Ok(text)
}

/// The report of a run that came to its end, by its log alone, without running the schedule again: nothing can
/// move in the kernel that the schedule leads to, so the log tells what that holds.
pub fn finished_report(alloc: Global, system: &System, run: &Run) -> Result<Text, NoMemory>
    requires valid { is_system system.now ≡ true }
    requires legal { IsLegal system.now run.now.log }
    requires items { run.now.items ≡ schedule_of system.now run.now.log }
    requires finished { is_finished run.now.log ≡ true }
    ensures { IfOk result (λ text. (kernel : Kernel) × (plain_run system.now run.now.items ≡ Some kernel) × (text ≡ report_of kernel run.now)) }
{
    let outcome = Outcome::of(alloc, system, run.log.as_slice())?;
    let mut text = outcome.report(alloc)?;
    put_run(alloc, &mut text, run)?;
    Ok(text)
}

/// The report of a run by running its schedule again, as where a loss was not covered: the log does not tell then whether a
/// process that has not ended has a step.
pub fn replayed_report(alloc: Global, system: &System, run: &Run) -> Result<Text, NoMemory>
    requires valid { is_system system.now ≡ true }
    requires legal { IsLegal system.now run.now.log }
    requires items { run.now.items ≡ schedule_of system.now run.now.log }
    ensures { IfOk result (λ text. (kernel : Kernel) × (plain_run system.now run.now.items ≡ Some kernel) × (text ≡ report_of kernel run.now)) }
{
    match plain::run(alloc, system, run.items.as_slice()) {
        Ok(kernel) => report(alloc, &kernel, run),
        Err(RunRefused::BadItem { .. }) => unreachable!(),
        Err(RunRefused::NoMemory) => Err(NoMemory),
    }
}

// What is printed of a run behind the terminals and the processes.
fn put_run(alloc: Global, text: &mut Text, run: &Run) -> Result<(), NoMemory>
    ensures { OnOk result (text.new ≡ text.old ++ run_part run.now) }
{
    put_losses(alloc, text, run.log.as_slice())?;
    put_lost(alloc, text, run.ended)?;
    put_bus(alloc, text, run)?;
    let items = items_text(alloc, run.items.as_slice())?;
    text.extend(items.as_slice())
}

/// A log as a text: the number of its entries, and a line for each.
pub fn log_text(alloc: Global, log: &[Entry]) -> Result<Text, NoMemory>
    ensures { IfOk result (λ text. text ≡ log_text_of log.now) }
{
    let count = log.len();
    let head = format!(in alloc; "log {count}\n")?;
    let mut text = Bytes::copy_of(alloc, head.as_bytes())?;
    put_entries(alloc, &mut text, log)?;
    Ok(text)
}

fn put_entries(alloc: Global, text: &mut Text, log: &[Entry]) -> Result<(), NoMemory>
    ensures { OnOk result (text.new ≡ text.old ++ log_lines log.now) }
{
    for entry in log {
        put_line(alloc, text, entry)?;
    }
    Ok(())
}

fn put_line(alloc: Global, text: &mut Text, entry: &Entry) -> Result<(), NoMemory>
    ensures { OnOk result (text.new ≡ text.old ++ (line_of entry.now ++ newline)) }
{
    put_entry(alloc, text, entry)?;
    text.extend(b"\n")
}

fn is_crash(entry: &Entry) -> bool
    ensures { result ≡ is_crash_of (says entry.now) }
{
    matches!(entry.post.what, What::Crash { .. })
}

fn has_crash(log: &[Entry]) -> bool
    ensures { result ≡ list_any (λ e. is_crash_of (says e)) log.now }
{
    log.iter().any(|entry| is_crash(entry))
}

fn is_sync(entry: &Entry) -> bool
    ensures { result ≡ is_sync_of (says entry.now) }
{
    matches!(entry.post.what, What::Sync { .. })
}

fn put_losses(alloc: Global, text: &mut Text, log: &[Entry]) -> Result<(), NoMemory>
    ensures { OnOk result (text.new ≡ text.old ++ losses_part log.now) }
{
    if has_crash(log) {
        put_each_loss(alloc, text, log)
    } else {
        put_no_crash(text)
    }
}

fn put_no_crash(text: &mut Text) -> Result<(), NoMemory>
    ensures { OnOk result (text.new ≡ text.old ++ no_crash) }
{
    text.extend(b"crash none")?;
    text.extend(b"\n")
}

fn put_each_loss(alloc: Global, text: &mut Text, log: &[Entry]) -> Result<(), NoMemory>
    ensures { OnOk result (text.new ≡ text.old ++ flat_map (λ e. loss_part e.place (says e)) log.now) }
{
    for entry in log {
        put_loss(alloc, text, entry)?;
    }
    Ok(())
}

fn put_loss(alloc: Global, text: &mut Text, entry: &Entry) -> Result<(), NoMemory>
    ensures { OnOk result (text.new ≡ text.old ++ loss_part entry.now.place (says entry.now)) }
{
    match &entry.post.what {
        What::Crash { k, .. } => put_place(alloc, text, "crash ", *k, entry.place),
        What::Return { k } => put_place(alloc, text, "return ", *k, entry.place),
        What::Mail { .. }
        | What::Birth { .. }
        | What::Exit { .. }
        | What::Page { .. }
        | What::Sync { .. }
        | What::Fetch { .. }
        | What::PageIs { .. }
        | What::Rebackup { .. }
        | What::Done { .. }
        | What::Stop => Ok(()),
    }
}

fn put_lost(alloc: Global, text: &mut Text, ended: Ended) -> Result<(), NoMemory>
    ensures { OnOk result (text.new ≡ text.old ++ lost_part ended) }
{
    match ended {
        Ended::Finished => Ok(()),
        Ended::Lost { cluster, at } => put_place(alloc, text, "lost ", cluster, at),
    }
}

fn put_place(
    alloc: Global,
    text: &mut Text,
    word: &str,
    cluster: ClusterNo,
    place: u64,
) -> Result<(), NoMemory>
    ensures { OnOk result (text.new ≡ text.old ++ at_place word.now cluster place) }
{
    let number = cluster.0;
    let line = format!(in alloc; "{number} at {place}\n")?;
    text.extend(word.as_bytes())?;
    text.extend(line.as_bytes())
}

fn put_bus(alloc: Global, text: &mut Text, run: &Run) -> Result<(), NoMemory>
    ensures { OnOk result (text.new ≡ text.old ++ bus_part (length run.now.log) (count_by (λ e. is_sync_of (says e)) run.now.log) run.now.withheld) }
{
    let entries = run.log.len();
    let syncs = run
        .log
        .as_slice()
        .iter()
        .filter(|entry| is_sync(entry))
        .count();
    let withheld = run.withheld;
    let line = format!(in alloc; "bus {entries} syncs {syncs} withheld {withheld}\n")?;
    text.extend(line.as_bytes())
}
