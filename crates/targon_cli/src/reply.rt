//! What a command makes of the bytes of its input, and `load` of its size.
ghost use Rattle.std.specs.Prelude.{◌≡◌, IfOk, [], None, Some, false, true};
ghost use Rattle.rv_asm.specs.Program.{reading_of as asm_reading};
ghost use Rattle.sys_text.specs.Reading.{reading_of as system_reading, system_of_lines};
ghost use Rattle.text_parts.specs.Lines.{lines_of};
ghost use Rattle.targon_cli.specs.Sections.{section_part, system_part};
ghost use Rattle.sys_text.specs.Valid.{is_system};
ghost use Rattle.targon_cli.specs.Commands.{keeps_limits, needs_threads};
ghost use Rattle.refusal_text.specs.Why.{asm_why as asm_why_of, item_why as item_why_of, system_why as system_why_of, unreadable_why as unreadable_why_of};
ghost use Rattle.refusal_text.specs.declared.why.ItemFault.TheVariants.{Inapplicable};
ghost use Rattle.hints.specs.Said.{system_hint as system_hint_of};
ghost use Rattle.targon_cli.specs.Noted.{MayNote, Notes, NotesItems, NotesPlain, NotesRunBy, NotesSystem};
ghost use Rattle.refusal_text.specs.declared.why.Why.TheVariants.{NoCluster};
ghost use Rattle.targon_cli.specs.Explained.{Explains, ExplainsAsm, ExplainsItems, ExplainsPlain, ExplainsRunBy, ExplainsSystem, SaysSome};
ghost use Rattle.targon_cli.specs.Reply.{asm_line, Follows, Makes, MakesAsm, MakesCheck, MakesPlain, RunsBy, schedule_line, system_line, usage_line};

use crate::load::print_load;
use crate::notes::{hint, trap_notes};
use crate::runs::simulate;
use crate::sections::split_at_section;
use cert_sched::{ItemsRefused, read_items};
use cluster_run::life::Ran;
use command_words::Command;
use plain_kernel::item::{Item, RunRefused};
use plain_kernel::plain::{default_run, run};
use refusal_text::why::{ItemFault, Why, asm_why, item_why, system_why, unreadable_why};
use report_text::plain::plain_report;
use rv_asm::{AsmRefused, assemble, words_text};
use std::alloc::Global;
use sys_text::printer::system_text;
use sys_text::system::System;
use sys_text::{SystemRefused, read_system};
use t32_base::lists::{Bytes, Text};
use t32_base::streams::NoMemory;

/// The status where all was done.
pub const DONE: u8 = 0;

/// The status where the words are no command, or name a cluster that the system lacks.
pub const USAGE: u8 = 1;

/// The status where the input is refused.
pub const REFUSED: u8 = 2;

/// The status where an item of the schedule cannot be read or applied.
pub const BAD_ITEM: u8 = 3;

/// The status where the run was ended by a loss that is not covered.
pub const LOST: u8 = 7;

/// The status of a command, the text that is to be written, and why, where something is refused; and what is noted beside
/// that for a person.
#[derive(Drop)]
pub struct Reply {
    pub status: u8,
    pub text: Text,
    pub why: Option<Why>,
    pub notes: Option<Text>,
}

/// What a command that needs no threads makes of the bytes of its input, or of its size, and for `sim` the run that
/// the text tells of.
pub fn carry_out(
    alloc: Global,
    command: Command,
    bytes: &[u8],
) -> Result<(Reply, Option<Ran>), NoMemory>
    requires limits { keeps_limits command ≡ true }
    requires alone { needs_threads (Some command) ≡ false }
    ensures makes { IfOk result (λ r. Makes command bytes.now r.0.status r.0.text r.1) }
    ensures why { IfOk result (λ r. Explains command bytes.now r.0.status r.0.why) }
    ensures notes { IfOk result (λ r. Notes command bytes.now r.1 r.0.notes) }
{
    match command {
        Command::Plain => Ok((plain(alloc, bytes)?, None)),
        Command::Check => Ok((check(alloc, bytes)?, None)),
        Command::Asm => Ok((asm(alloc, bytes)?, None)),
        Command::Sim { pick, log, script } => simulate(alloc, bytes, pick, log, &script),
        Command::Load { size, script, .. } => Ok((print_load(alloc, size, &script)?, None)),
        Command::Run { .. } => unreachable!(),
    }
}

// Runs a system by the schedule that stands behind it.
fn plain(alloc: Global, bytes: &[u8]) -> Result<Reply, NoMemory>
    ensures makes { IfOk result (λ r. MakesPlain (system_of_lines (system_part (lines_of bytes.now))) (section_part (lines_of bytes.now)) r.status r.text) }
    ensures why { IfOk result (λ r. ExplainsPlain (system_of_lines (system_part (lines_of bytes.now))) (system_part (lines_of bytes.now)) (section_part (lines_of bytes.now)) r.status r.why) }
    ensures notes { IfOk result (λ r. NotesPlain (system_of_lines (system_part (lines_of bytes.now))) (system_part (lines_of bytes.now)) (section_part (lines_of bytes.now)) r.notes) }
{
    let (text, section) = split_at_section(bytes, b"schedule");
    match read_system(alloc, text) {
        Ok(system) => run_by(alloc, &system, text, section),
        Err(SystemRefused::BadLine { line, rule }) => refused_system(alloc, text, line, rule),
        Err(SystemRefused::NoMemory) => Err(NoMemory),
    }
}

// Runs a system by a schedule section behind its text, or without one by the default schedule.
fn run_by(alloc: Global, system: &System, text: &[u8], section: &[u8]) -> Result<Reply, NoMemory>
    requires { is_system system.now ≡ true }
    ensures makes { IfOk result (λ r. RunsBy system.now (lines_of section.now) r.status r.text) }
    ensures why { IfOk result (λ r. ExplainsRunBy system.now (lines_of text.now) (lines_of section.now) r.status r.why) }
    ensures notes { IfOk result (λ r. NotesRunBy (lines_of text.now) system.now (lines_of section.now) r.notes) }
{
    if section.is_empty() {
        return run_default(alloc, system, text);
    }
    match read_items(alloc, section) {
        Ok(items) => Ok(follow(alloc, system, text, section, items.as_slice())?),
        Err(ItemsRefused::BadItem { index }) => Ok(refused_section(alloc, text, section, index)?),
        Err(ItemsRefused::NoMemory) => Err(NoMemory),
    }
}

// Runs a system by the default schedule.
fn run_default(alloc: Global, system: &System, text: &[u8]) -> Result<Reply, NoMemory>
    requires { is_system system.now ≡ true }
    ensures makes { IfOk result (λ r. RunsBy system.now [] r.status r.text) }
    ensures why { IfOk result (λ r. (r.status ≡ 0) × (r.why ≡ None)) }
    ensures notes { IfOk result (λ r. NotesRunBy (lines_of text.now) system.now [] r.notes) }
{
    let plain = default_run(alloc, system)?;
    Ok(Reply {
        status: DONE,
        text: plain_report(alloc, &plain)?,
        why: None,
        notes: trap_notes(alloc, text, system, &[], &plain),
    })
}

// Runs a system by the items of a schedule section behind its text.
fn follow(
    alloc: Global,
    system: &System,
    text: &[u8],
    section: &[u8],
    items: &[Item],
) -> Result<Reply, NoMemory>
    requires { is_system system.now ≡ true }
    ensures makes { IfOk result (λ r. Follows system.now items.now r.status r.text) }
    ensures why { IfOk result (λ r. ExplainsItems system.now (lines_of section.now) items.now r.status r.why) }
    ensures notes { IfOk result (λ r. NotesItems (lines_of text.now) system.now items.now r.notes) }
{
    match run(alloc, system, items) {
        Ok(plain) => {
            let report = plain_report(alloc, &plain)?;
            Ok(Reply {
                status: DONE,
                text: report,
                why: None,
                notes: trap_notes(alloc, text, system, items, &plain),
            })
        }
        Err(RunRefused::BadItem { index }) => Ok(refused_item(alloc, section, index)?),
        Err(RunRefused::NoMemory) => Err(NoMemory),
    }
}

// Prints a system in canonical form.
fn check(alloc: Global, bytes: &[u8]) -> Result<Reply, NoMemory>
    ensures makes { IfOk result (λ r. MakesCheck (system_reading bytes.now) r.status r.text) }
    ensures why { IfOk result (λ r. ExplainsSystem (system_reading bytes.now) (lines_of bytes.now) r.status r.why) }
    ensures notes { IfOk result (λ r. NotesSystem (system_reading bytes.now) (lines_of bytes.now) r.notes) }
{
    match read_system(alloc, bytes) {
        Ok(system) => {
            let text = system_text(alloc, &system)?;
            Ok(Reply {
                status: DONE,
                text,
                why: None,
                notes: None,
            })
        }
        Err(SystemRefused::BadLine { line, rule }) => refused_system(alloc, bytes, line, rule),
        Err(SystemRefused::NoMemory) => Err(NoMemory),
    }
}

// Assembles a text, and prints its words.
fn asm(alloc: Global, bytes: &[u8]) -> Result<Reply, NoMemory>
    ensures makes { IfOk result (λ r. MakesAsm (asm_reading bytes.now) r.status r.text) }
    ensures why { IfOk result (λ r. ExplainsAsm (asm_reading bytes.now) (lines_of bytes.now) r.status r.why) }
    ensures notes { IfOk result (λ r. r.notes ≡ None) }
{
    match assemble(alloc, bytes) {
        Ok(words) => {
            let text = words_text(alloc, words.as_slice())?;
            Ok(Reply {
                status: DONE,
                text,
                why: None,
                notes: None,
            })
        }
        Err(AsmRefused::Line { line, rule }) => refused_asm(alloc, bytes, line, rule),
        Err(AsmRefused::NoMemory) => Err(NoMemory),
    }
}

/// The reply where a word of the script names a cluster that the system lacks.
pub fn no_cluster(alloc: Global) -> Result<Reply, NoMemory>
    ensures makes { IfOk result (λ r. (r.status ≡ 1) × (r.text ≡ usage_line)) }
    ensures why { IfOk result (λ r. r.why ≡ Some NoCluster) }
    ensures notes { IfOk result (λ r. r.notes ≡ None) }
{
    Ok(Reply {
        status: USAGE,
        text: Bytes::copy_of(alloc, b"t32: usage\n")?,
        why: Some(Why::NoCluster),
        notes: None,
    })
}

/// The reply for a text that is no system.
pub fn refused_system(alloc: Global, text: &[u8], line: u64, rule: u8) -> Result<Reply, NoMemory>
    ensures makes { IfOk result (λ r. (r.status ≡ 2) × (r.text ≡ system_line line rule)) }
    ensures why { IfOk result (λ r. (r.status ≡ 2) × SaysSome (system_why_of (lines_of text.now) line rule) r.why) }
    ensures notes { IfOk result (λ r. MayNote (system_hint_of (lines_of text.now) line rule) r.notes) }
{
    let said = format!(in alloc; "t32: system line {line} rule {rule}\n")?;
    Ok(Reply {
        status: REFUSED,
        text: Bytes::copy_of(alloc, said.as_bytes())?,
        why: Some(system_why(alloc, text, line, rule)),
        notes: hint(alloc, text, line, rule),
    })
}

fn refused_asm(alloc: Global, text: &[u8], line: u64, rule: u8) -> Result<Reply, NoMemory>
    ensures makes { IfOk result (λ r. (r.status ≡ 2) × (r.text ≡ asm_line line rule)) }
    ensures why { IfOk result (λ r. (r.status ≡ 2) × SaysSome (asm_why_of (lines_of text.now) line rule) r.why) }
    ensures notes { IfOk result (λ r. r.notes ≡ None) }
{
    let said = format!(in alloc; "t32: asm line {line} rule {rule}\n")?;
    Ok(Reply {
        status: REFUSED,
        text: Bytes::copy_of(alloc, said.as_bytes())?,
        why: Some(asm_why(alloc, text, line, rule)),
        notes: None,
    })
}

// The reply for a section of which an item cannot be read.
fn refused_section(
    alloc: Global,
    text: &[u8],
    section: &[u8],
    index: u64,
) -> Result<Reply, NoMemory>
    ensures makes { IfOk result (λ r. (r.status ≡ 3) × (r.text ≡ schedule_line index)) }
    ensures why { IfOk result (λ r. (r.status ≡ 3) × SaysSome (unreadable_why_of (lines_of text.now) (lines_of section.now) index) r.why) }
    ensures notes { IfOk result (λ r. r.notes ≡ None) }
{
    let said = format!(in alloc; "t32: schedule item {index}\n")?;
    Ok(Reply {
        status: BAD_ITEM,
        text: Bytes::copy_of(alloc, said.as_bytes())?,
        why: Some(unreadable_why(alloc, text, section, index)),
        notes: None,
    })
}

// The reply for an item that cannot be applied.
fn refused_item(alloc: Global, section: &[u8], index: u64) -> Result<Reply, NoMemory>
    ensures makes { IfOk result (λ r. (r.status ≡ 3) × (r.text ≡ schedule_line index)) }
    ensures why { IfOk result (λ r. (r.status ≡ 3) × SaysSome (item_why_of (lines_of section.now) index Inapplicable) r.why) }
    ensures notes { IfOk result (λ r. r.notes ≡ None) }
{
    let said = format!(in alloc; "t32: schedule item {index}\n")?;
    Ok(Reply {
        status: BAD_ITEM,
        text: Bytes::copy_of(alloc, said.as_bytes())?,
        why: Some(item_why(alloc, section, index, ItemFault::Inapplicable)),
        notes: None,
    })
}
