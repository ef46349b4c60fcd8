//! What is noted of a run that came to its end.
ghost use Rattle.std.specs.Prelude.{◌≡◌, ◌++◌, IfOk, true};
ghost use Rattle.text_parts.specs.Lines.{lines_of};
ghost use Rattle.sys_text.specs.Valid.{is_system};
ghost use Rattle.run_notes.specs.Note.{IsRunNote, TellsTraps, TellsTrapsOf, has_trap as has_trap_in, is_trap as is_trap_of};

use crate::reached::unreached_words;
use crate::traps::traps;
use bus_msg::entry::{Entry, What};
use cert_sched::script::ScriptWord;
use plain_kernel::item::{Item, RunRefused};
use plain_kernel::plain;
use report_text::run::Run;
use std::alloc::Global;
use sys_text::system::System;
use t32_base::lists::{Bytes, Text};
use t32_base::process::End;
use t32_base::streams::NoMemory;

/// A line for each word of the script that the run did not come to, and for each process that ended by a trap. The schedule is
/// run again by the kernel without failures only where the log tells of a trap.
pub fn run_note(
    alloc: Global,
    text: &[u8],
    system: &System,
    script: &[ScriptWord],
    run: &Run,
) -> Result<Text, NoMemory>
    requires { is_system system.now ≡ true }
    ensures { IfOk result (IsRunNote (lines_of text.now) system.now script.now run.now) }
{
    let words = unreached_words(alloc, script, run)?;
    let traps = traps_of_log(alloc, text, system, run)?;
    joined(words, &traps)
}

fn joined(mut words: Text, traps: &Text) -> Result<Text, NoMemory>
    ensures { IfOk result (λ note. note ≡ words ++ traps.now) }
{
    words.extend(traps.as_slice())?;
    Ok(words)
}

fn traps_of_log(alloc: Global, text: &[u8], system: &System, run: &Run) -> Result<Text, NoMemory>
    requires { is_system system.now ≡ true }
    ensures { IfOk result (TellsTrapsOf (lines_of text.now) system.now run.now) }
{
    if has_trap(run.log.as_slice()) {
        traps_again(alloc, text, system, run.items.as_slice())
    } else {
        Ok(Bytes::new(alloc))
    }
}

// The traps of a schedule, which is run again.
fn traps_again(
    alloc: Global,
    text: &[u8],
    system: &System,
    items: &[Item],
) -> Result<Text, NoMemory>
    requires { is_system system.now ≡ true }
    ensures { IfOk result (TellsTraps (lines_of text.now) system.now items.now) }
{
    match plain::run(alloc, system, items) {
        Ok(kernel) => traps(alloc, text, system, items, &kernel),
        Err(RunRefused::BadItem { .. }) => Ok(Bytes::new(alloc)),
        Err(RunRefused::NoMemory) => Err(NoMemory),
    }
}

fn has_trap(log: &[Entry]) -> bool
    ensures { result ≡ has_trap_in log.now }
{
    log.iter().any(|entry| is_trap(&entry.post.what))
}

// Does an entry tell that a process ended by a trap?
fn is_trap(what: &What) -> bool
    ensures { result ≡ is_trap_of what.now }
{
    match what {
        What::Exit {
            end: End::Trap(_),
            ..
        } => true,
        _ => false,
    }
}
