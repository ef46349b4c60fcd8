//! The words of a script that a run did not come to.
ghost use Rattle.std.specs.Prelude.{◌≡◌, ◌++◌, IfOk, OnOk, slice_get, unwrap_or};
ghost use Rattle.std.specs.List.{flat_map};
ghost use Rattle.run_notes.specs.Reached.{call_text, crash_text, has as has_entry_of, is_for as is_for_word, loses as loses_cluster, return_text, returns as returns_cluster, step_text, unreached as unreached_of, unreached_text};

use bus_msg::entry::{Entry, What};
use cert_sched::script::ScriptWord;
use report_text::run::Run;
use std::alloc::Global;
use t32_base::lists::{Bytes, Text};
use t32_base::process::ClusterNo;
use t32_base::streams::NoMemory;

/// A line for each word of a script that the run did not come to, with how far it came.
pub fn unreached_words(alloc: Global, script: &[ScriptWord], run: &Run) -> Result<Text, NoMemory>
    ensures { IfOk result (λ text. text ≡ flat_map (unreached_of run.now) script.now) }
{
    let mut text = Bytes::new(alloc);
    for word in script {
        put_unreached(alloc, &mut text, run, *word)?;
    }
    Ok(text)
}

fn put_unreached(
    alloc: Global,
    text: &mut Text,
    run: &Run,
    word: ScriptWord,
) -> Result<(), NoMemory>
    ensures { OnOk result (text.new ≡ text.old ++ unreached_of run.now word) }
{
    if has(run.log.as_slice(), word) {
        Ok(())
    } else {
        put_word(alloc, text, run, word)
    }
}

// Is there an entry that tells of the word?
fn has(log: &[Entry], word: ScriptWord) -> bool
    ensures { result ≡ has_entry_of log.now word }
{
    log.iter().any(|entry| is_for(&entry.post.what, word))
}

// Does an entry tell that the cluster of the word is lost, or that it returns?
fn is_for(what: &What, word: ScriptWord) -> bool
    ensures { result ≡ is_for_word what.now word }
{
    match word {
        ScriptWord::CrashAt { k, .. }
        | ScriptWord::CrashStep { k, .. }
        | ScriptWord::DiskAt { k, .. } => loses(what, k),
        ScriptWord::ReturnAt { k, .. } => returns(what, k),
    }
}

fn loses(what: &What, cluster: ClusterNo) -> bool
    ensures { result ≡ loses_cluster what.now cluster }
{
    match what {
        What::Crash { k, .. } => k.0 == cluster.0,
        _ => false,
    }
}

fn returns(what: &What, cluster: ClusterNo) -> bool
    ensures { result ≡ returns_cluster what.now cluster }
{
    match what {
        What::Return { k } => k.0 == cluster.0,
        _ => false,
    }
}

fn put_word(alloc: Global, text: &mut Text, run: &Run, word: ScriptWord) -> Result<(), NoMemory>
    ensures { OnOk result (text.new ≡ text.old ++ unreached_text run.now word) }
{
    match word {
        ScriptWord::CrashAt { k, place } => put_crash(alloc, text, k.0, place, run.log.len()),
        ScriptWord::CrashStep { k, step } => {
            put_step(alloc, text, k.0, step, count_of(run.steps.as_slice(), k))
        }
        ScriptWord::DiskAt { k, call } => {
            put_call(
                alloc,
                text,
                k.0,
                call,
                count_of(run.disk_calls.as_slice(), k),
            )
        }
        ScriptWord::ReturnAt { k, place } => put_return(alloc, text, k.0, place, run.log.len()),
    }
}

// The count of a cluster; 0 where none is told.
fn count_of(counts: &[u64], k: ClusterNo) -> u64
    ensures { result ≡ unwrap_or (slice_get counts.now k.0) 0 }
{
    match counts.get(usize::from(k.0)) {
        Some(count) => *count,
        None => 0,
    }
}

fn put_crash(
    alloc: Global,
    text: &mut Text,
    k: u8,
    place: u64,
    entries: usize,
) -> Result<(), NoMemory>
    ensures { OnOk result (text.new ≡ text.old ++ crash_text k place entries) }
{
    let said = format!(in alloc;
        "t32: crash:{k}@bus:{place} was not reached; entries of the log: {entries}\n"
    )?;
    text.extend(said.as_bytes())
}

fn put_return(
    alloc: Global,
    text: &mut Text,
    k: u8,
    place: u64,
    entries: usize,
) -> Result<(), NoMemory>
    ensures { OnOk result (text.new ≡ text.old ++ return_text k place entries) }
{
    let said = format!(in alloc;
        "t32: return:{k}@bus:{place} was not reached; entries of the log: {entries}\n"
    )?;
    text.extend(said.as_bytes())
}

fn put_step(alloc: Global, text: &mut Text, k: u8, step: u64, steps: u64) -> Result<(), NoMemory>
    ensures { OnOk result (text.new ≡ text.old ++ step_text k step steps) }
{
    let said = format!(in alloc;
        "t32: crash:{k}@step:{step} was not reached; kernel steps of the cluster: {steps}\n"
    )?;
    text.extend(said.as_bytes())
}

fn put_call(alloc: Global, text: &mut Text, k: u8, call: u64, calls: u64) -> Result<(), NoMemory>
    ensures { OnOk result (text.new ≡ text.old ++ call_text k call calls) }
{
    let said = format!(in alloc;
        "t32: disk:{k}@{call} was not reached; calls of the page disk: {calls}\n"
    )?;
    text.extend(said.as_bytes())
}
