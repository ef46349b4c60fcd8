//! The line that says this.
ghost use Rattle.std.specs.Prelude.{◌≡◌, ◌++◌, IfOk, OnOk, string_bytes};
ghost use Rattle.bus_msg.specs.Text.{cause_text};
ghost use Rattle.entry_lines.specs.Text.{by_text, end_text, letter_text, took_text, pids_text, spaced, what_text, text_of};

use crate::told::{Told, ToldBy, ToldEnd, ToldLetter, ToldWhat};
use bus_msg::entry::Cause;
use std::alloc::{AllocError, Global};
use t32_base::lists::{Bytes, Text};
use t32_base::streams::NoMemory;

/// The line that says this, without its end.
pub fn told_text(alloc: Global, told: &Told) -> Result<Text, NoMemory>
    ensures { IfOk result (λ text. text ≡ text_of told.now) }
{
    let line = line(alloc, told)?;
    Ok(Bytes::from_vec(line.into_bytes()))
}

fn line(alloc: Global, told: &Told) -> Result<String, AllocError>
    ensures { IfOk result (λ text. string_bytes text ≡ text_of told.now) }
{
    let place = told.place;
    let by = sender(alloc, told.by)?;
    let what = said(alloc, &told.what)?;
    format!(in alloc; "{place} {by} {what}")
}

fn sender(alloc: Global, by: ToldBy) -> Result<String, AllocError>
    ensures { IfOk result (λ text. string_bytes text ≡ by_text by) }
{
    match by {
        ToldBy::Cluster(cluster) => format!(in alloc; "{cluster}"),
        ToldBy::Bus => String::from_str(alloc, "bus"),
    }
}

fn said(alloc: Global, what: &ToldWhat) -> Result<String, AllocError>
    ensures { IfOk result (λ text. string_bytes text ≡ what_text what.now) }
{
    match what {
        ToldWhat::Mail { from, at, letter } => {
            let letter = letter_line(alloc, letter)?;
            format!(in alloc; "mail {from} at {at} {letter}")
        }
        ToldWhat::Birth {
            parent,
            at,
            child,
            end,
        } => format!(in alloc; "birth {parent} at {at} child {child} end {end}"),
        ToldWhat::Exit { pid, at, end } => {
            let end = end_line(alloc, *end)?;
            format!(in alloc; "exit {pid} at {at} {end}")
        }
        ToldWhat::Page { pid, at, index } => format!(in alloc; "page {pid} at {at} {index}"),
        ToldWhat::Sync { pid, at, took } => {
            let took = signal_taken(alloc, *took)?;
            format!(in alloc; "sync {pid} at {at}{took}")
        }
        ToldWhat::Fetch { pid, index } => format!(in alloc; "fetch {pid} {index}"),
        ToldWhat::PageIs { pid, index } => format!(in alloc; "pageis {pid} {index}"),
        ToldWhat::Crash { k, cause } => {
            let cause = cause_of_loss(alloc, *cause)?;
            format!(in alloc; "crash {k}{cause}")
        }
        ToldWhat::Return { k } => format!(in alloc; "return {k}"),
        ToldWhat::Fresh { pids, at, to } => {
            let pids = pids_of(alloc, pids.as_slice())?;
            format!(in alloc; "rebackup{pids} at {at} to {to} fresh")
        }
        ToldWhat::Standing { pids, to } => {
            let pids = pids_of(alloc, pids.as_slice())?;
            format!(in alloc; "rebackup{pids} to {to} standing")
        }
        ToldWhat::Done => String::from_str(alloc, "done"),
        ToldWhat::Stop => String::from_str(alloc, "stop"),
    }
}

fn letter_line(alloc: Global, letter: &ToldLetter) -> Result<String, AllocError>
    ensures { IfOk result (λ text. string_bytes text ≡ letter_text letter.now) }
{
    match letter {
        ToldLetter::Shown { out, tty, bytes } => {
            let digits = hex::encode(alloc, bytes.as_slice())?;
            format!(in alloc; "out {out} tty {tty} {digits}")
        }
        ToldLetter::Said {
            out,
            to,
            end,
            bytes,
        } => {
            let digits = hex::encode(alloc, bytes.as_slice())?;
            format!(in alloc; "out {out} to {to} end {end} {digits}")
        }
        ToldLetter::EndOf { out, to, end } => format!(in alloc; "out {out} to {to} end {end} eof"),
        ToldLetter::Signal { to, signal } => format!(in alloc; "to {to} sig {signal}"),
    }
}

fn end_line(alloc: Global, end: ToldEnd) -> Result<String, AllocError>
    ensures { IfOk result (λ text. string_bytes text ≡ end_text end) }
{
    match end {
        ToldEnd::Exit(status) => format!(in alloc; "exit {status}"),
        ToldEnd::Trap(code) => format!(in alloc; "trap {code}"),
        ToldEnd::Killed(signal) => format!(in alloc; "killed {signal}"),
        ToldEnd::Limit => String::from_str(alloc, "limit"),
    }
}

fn signal_taken(alloc: Global, took: Option<u64>) -> Result<String, AllocError>
    ensures { IfOk result (λ text. string_bytes text ≡ took_text took) }
{
    match took {
        Some(signal) => format!(in alloc; " take {signal}"),
        None => String::from_str(alloc, " plain"),
    }
}

fn cause_of_loss(alloc: Global, cause: Cause) -> Result<String, AllocError>
    ensures { IfOk result (λ text. string_bytes text ≡ cause_text cause) }
{
    match cause {
        Cause::Place => String::from_str(alloc, " place"),
        Cause::Step(step) => format!(in alloc; " step {step}"),
        Cause::Disk(call) => format!(in alloc; " disk {call}"),
    }
}

/// Some pids, each after a space.
fn pids_of(alloc: Global, pids: &[u64]) -> Result<String, AllocError>
    ensures { IfOk result (λ text. string_bytes text ≡ pids_text pids.now) }
{
    let mut text = String::new(alloc);
    for pid in pids {
        push_pid(alloc, &mut text, *pid)?;
    }
    Ok(text)
}

fn push_pid(alloc: Global, text: &mut String, pid: u64) -> Result<(), AllocError>
    ensures { OnOk result (string_bytes text.new ≡ string_bytes text.old ++ spaced pid) }
{
    let piece = format!(in alloc; " {pid}")?;
    text.push_str(piece.as_str())
}
