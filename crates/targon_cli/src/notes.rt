//! What is noted for a person beside why the program ended: less where memory is refused.
ghost use Rattle.std.specs.Prelude.{◌≡◌, true};
ghost use Rattle.text_parts.specs.Lines.{lines_of};
ghost use Rattle.sys_text.specs.Valid.{is_system};
ghost use Rattle.hints.specs.Said.{system_hint as system_hint_of};
ghost use Rattle.word_faults.specs.Fault.{word_hint as word_hint_of};
ghost use Rattle.targon_cli.specs.Noted.{MayNote, MayNoteRun, MayNoteTraps};

use cert_sched::script::ScriptWord;
use hints::system::system_hint;
use plain_kernel::item::Item;
use plain_kernel::plain::Plain;
use report_text::run::Run;
use run_notes::note::run_note;
use run_notes::traps::traps;
use std::alloc::Global;
use sys_text::system::System;
use t32_base::lists::Text;
use t32_base::streams::NoMemory;
use word_faults::fault::word_hint;

/// What is noted of a refused line of a system text.
pub fn hint(alloc: Global, text: &[u8], line: u64, rule: u8) -> Option<Text>
    ensures { MayNote (system_hint_of (lines_of text.now) line rule) result }
{
    match system_hint(alloc, text, line, rule) {
        Ok(hint) => hint,
        Err(NoMemory) => None,
    }
}

/// What is noted of words that are no command.
pub fn word_notes(alloc: Global, words: &[Text]) -> Option<Text>
    ensures { MayNote (word_hint_of words.now) result }
{
    match word_hint(alloc, words) {
        Ok(hint) => hint,
        Err(NoMemory) => None,
    }
}

/// What is noted of the kernel to which these items lead: its traps.
pub fn trap_notes(
    alloc: Global,
    text: &[u8],
    system: &System,
    items: &[Item],
    plain: &Plain,
) -> Option<Text>
    ensures { MayNoteTraps (lines_of text.now) system.now items.now plain.now result }
{
    match traps(alloc, text, system, items, plain) {
        Ok(note) => Some(note),
        Err(NoMemory) => None,
    }
}

/// What is noted of a run that came to its end: the words that it did not come to, and its traps.
pub fn run_notes(
    alloc: Global,
    text: &[u8],
    system: &System,
    script: &[ScriptWord],
    run: &Run,
) -> Option<Text>
    requires { is_system system.now ≡ true }
    ensures { MayNoteRun (lines_of text.now) system.now script.now run.now result }
{
    match run_note(alloc, text, system, script, run) {
        Ok(note) => Some(note),
        Err(NoMemory) => None,
    }
}
