//! The line of an entry in a printed log.
ghost use Rattle.std.specs.Prelude.{◌≡◌, ◌++◌, IfOk, OnOk, OnErr, Some, string_bytes};
ghost use Rattle.std.specs.Option.{option_map_or};
ghost use Rattle.t32_base.specs.Small.{SmallState};
ghost use Rattle.bus_msg.specs.Text.{end_text, body_text, bytes_said as bytes_said_by, letter_text, cause_text, took_text, spaced, pids_text, first_steps as first_steps_of, what_text, by_text, line_of};

use crate::entry::{By, Cause, Entry, What};
use std::alloc::{AllocError, Global};
use t32_base::letter::{BackRec, Body, Letter, To};
use t32_base::lists::{Bytes, Text};
use t32_base::process::{ClusterNo, End, Pid};
use t32_base::streams::NoMemory;

/// The line of an entry, without the end of the line.
pub fn entry_text(alloc: Global, entry: &Entry) -> Result<Text, NoMemory>
    ensures { IfOk result (λ text. text ≡ line_of entry.now) }
{
    let line = line(alloc, entry)?;
    Ok(Bytes::from_vec(line.into_bytes()))
}

/// Puts the line of an entry at the end, without the end of the line. After want of memory the text is as
/// it was.
pub fn put_entry(alloc: Global, text: &mut Text, entry: &Entry) -> Result<(), NoMemory>
    ensures ok { OnOk result (text.new ≡ text.old ++ line_of entry.now) }
    ensures err { OnErr result (text.new ≡ text.old) }
{
    let line = line(alloc, entry)?;
    text.extend(line.as_bytes())
}

/// How a process ended: `exit`, `trap` or `killed` with its number, or `limit`.
pub fn end_line(alloc: Global, end: End) -> Result<String, AllocError>
    ensures { IfOk result (λ text. string_bytes text ≡ end_text end) }
{
    match end {
        End::Exit(status) => format!(in alloc; "exit {status}"),
        End::Trap(code) => format!(in alloc; "trap {code}"),
        End::Killed(signal) => format!(in alloc; "killed {signal}"),
        End::Limit => String::from_str(alloc, "limit"),
    }
}

fn line(alloc: Global, entry: &Entry) -> Result<String, AllocError>
    ensures { IfOk result (λ text. string_bytes text ≡ line_of entry.now) }
{
    let place = entry.place;
    let by = sender(alloc, entry.post.by)?;
    let what = said(alloc, &entry.post.what)?;
    format!(in alloc; "{place} {by} {what}")
}

fn sender(alloc: Global, by: By) -> Result<String, AllocError>
    ensures { IfOk result (λ text. string_bytes text ≡ by_text by) }
{
    match by {
        By::Cluster(k) => {
            let cluster = k.0;
            format!(in alloc; "{cluster}")
        }
        By::Bus => String::from_str(alloc, "bus"),
    }
}

fn said(alloc: Global, what: &What) -> Result<String, AllocError>
    ensures { IfOk result (λ text. string_bytes text ≡ what_text what.now) }
{
    match what {
        What::Mail { at, letter } => mail(alloc, *at, letter),
        What::Birth {
            parent,
            at,
            child,
            end,
        } => {
            let Pid(parent) = *parent;
            let Pid(child) = *child;
            format!(in alloc; "birth {parent} at {at} child {child} end {end}")
        }
        What::Exit { pid, at, end } => {
            let Pid(pid) = *pid;
            let end = end_line(alloc, *end)?;
            format!(in alloc; "exit {pid} at {at} {end}")
        }
        What::Page { pid, at, index, .. } => {
            let Pid(pid) = *pid;
            format!(in alloc; "page {pid} at {at} {index}")
        }
        What::Sync {
            pid,
            small,
            took,
            ..
        } => {
            let Pid(pid) = *pid;
            let at = small.get().steps;
            let took = signal_taken(alloc, *took)?;
            format!(in alloc; "sync {pid} at {at}{took}")
        }
        What::Fetch { pid, index } => {
            let Pid(pid) = *pid;
            format!(in alloc; "fetch {pid} {index}")
        }
        What::PageIs { pid, index, .. } => {
            let Pid(pid) = *pid;
            format!(in alloc; "pageis {pid} {index}")
        }
        What::Crash { k, cause } => {
            let cluster = k.0;
            let cause = cause_of_loss(alloc, *cause)?;
            format!(in alloc; "crash {cluster}{cause}")
        }
        What::Return { k } => {
            let cluster = k.0;
            format!(in alloc; "return {cluster}")
        }
        What::Rebackup { to, fresh, recs } => new_backup(alloc, *to, *fresh, recs.get().as_slice()),
        What::Done { .. } => String::from_str(alloc, "done"),
        What::Stop => String::from_str(alloc, "stop"),
    }
}

fn mail(alloc: Global, at: u64, letter: &Letter) -> Result<String, AllocError>
    ensures { IfOk result (λ text. string_bytes text ≡ what_text (What.Mail at letter.now)) }
{
    let Pid(from) = letter.from;
    let carried = carried_by(alloc, letter)?;
    format!(in alloc; "mail {from} at {at}{carried}")
}

/// From which end a letter goes, where to, and what it carries.
fn carried_by(alloc: Global, letter: &Letter) -> Result<String, AllocError>
    ensures { IfOk result (λ text. string_bytes text ≡ letter_text letter.now letter.now.to) }
{
    let out = letter.out;
    match letter.to {
        To::Tty(tty) => {
            let digits = hex::encode(alloc, bytes_said(&letter.body))?;
            format!(in alloc; " out {out} tty {tty} {digits}")
        }
        To::Proc(to, end) => body_line(alloc, out, to.0, end, &letter.body),
    }
}

fn bytes_said(body: &Body) -> &[u8]
    ensures { result.now ≡ bytes_said_by body.now }
{
    match body {
        Body::Said(bytes) => bytes.as_slice(),
        Body::EndOf | Body::Signal(_) => &[],
    }
}

/// The same of a letter to an end of a process.
fn body_line(alloc: Global, out: u8, to: u32, end: u8, body: &Body) -> Result<String, AllocError>
    ensures { IfOk result (λ text. string_bytes text ≡ body_text out to end body.now) }
{
    match body {
        Body::Said(bytes) => {
            let digits = hex::encode(alloc, bytes.as_slice())?;
            format!(in alloc; " out {out} to {to} end {end} {digits}")
        }
        Body::EndOf => format!(in alloc; " out {out} to {to} end {end} eof"),
        Body::Signal(signal) => format!(in alloc; " to {to} sig {signal}"),
    }
}

fn signal_taken(alloc: Global, took: Option<u8>) -> Result<String, AllocError>
    ensures { IfOk result (λ text. string_bytes text ≡ took_text took) }
{
    match took {
        Some(signal) => format!(in alloc; " take {signal}"),
        None => String::from_str(alloc, " plain"),
    }
}

fn cause_of_loss(alloc: Global, cause: Cause) -> Result<String, AllocError>
    ensures { IfOk result (λ text. string_bytes text ≡ cause_text cause) }
{
    match cause {
        Cause::Place => String::from_str(alloc, " place"),
        Cause::Step(step) => format!(in alloc; " step {step}"),
        Cause::Disk(call) => format!(in alloc; " disk {call}"),
    }
}

fn new_backup(
    alloc: Global,
    to: ClusterNo,
    fresh: bool,
    recs: &[BackRec],
) -> Result<String, AllocError>
    ensures { IfOk result (λ text. string_bytes text ≡ what_text (What.Rebackup to fresh recs.now)) }
{
    let ClusterNo(to) = to;
    let pids = pids_of(alloc, recs)?;
    if fresh {
        let at = first_steps(recs);
        format!(in alloc; "rebackup{pids} at {at} to {to} fresh")
    } else {
        format!(in alloc; "rebackup{pids} to {to} standing")
    }
}

/// The pids of some records, each after a space.
fn pids_of(alloc: Global, recs: &[BackRec]) -> Result<String, AllocError>
    ensures { IfOk result (λ text. string_bytes text ≡ pids_text recs.now) }
{
    let mut text = String::new(alloc);
    for rec in recs {
        push_pid(alloc, &mut text, rec.pid)?;
    }
    Ok(text)
}

fn push_pid(alloc: Global, text: &mut String, pid: Pid) -> Result<(), AllocError>
    ensures { OnOk result (string_bytes text.new ≡ string_bytes text.old ++ spaced pid.0) }
{
    let Pid(pid) = pid;
    let piece = format!(in alloc; " {pid}")?;
    text.push_str(piece.as_str())
}

/// The steps of the first process, as its record has them.
fn first_steps(recs: &[BackRec]) -> u64
    ensures { result ≡ first_steps_of recs.now }
{
    match recs {
        [first, ..] => steps_of(first),
        [] => 0,
    }
}

fn steps_of(rec: &BackRec) -> u64
    ensures { result ≡ option_map_or (λ (s : SmallState). s.steps) rec.now.state 0 }
{
    match &rec.state {
        Some(state) => state.steps,
        None => 0,
    }
}
