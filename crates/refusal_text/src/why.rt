//! Why the program ended as it did, and what is said of it.
ghost use Rattle.std.specs.Prelude.{◌≡◌, ◌++◌, IfOk, OnOk, Some};
ghost use Rattle.text_parts.specs.Lines.{lines_of};
ghost use Rattle.refusal_text.specs.Why.{asm_head as asm_head_of, asm_why as asm_why_of, fault_text, headline as headline_of, inner_of as inner_of_line, inner_text as inner_text_of, item_head as item_head_of, item_why as item_why_of, line_text as line_text_of, Says, schedule_head as schedule_head_of, schedule_line_why as schedule_line_why_of, system_head as system_head_of, system_why as system_why_of, text_of, unreadable_why as unreadable_why_of, why_of as why_of_status};

use crate::block::inner_rule;
use crate::lines::{begins_well, item_line, line_after, line_behind};
use crate::shown::shown_where;
use crate::texts::{asm_rule_text, system_rule_text};
use std::alloc::Global;
use t32_base::lists::{Bytes, Text};
use t32_base::streams::NoMemory;

/// Why an item of a schedule is refused.
#[derive(Clone, Copy)]
pub enum ItemFault {
    /// It cannot be read.
    Unreadable,
    /// It cannot be applied after the items before it.
    Inapplicable,
}

/// Why the program ended as it did. A line or an item is shown as it stands, where it is there and memory was not
/// refused; the inner rule is the assembler's, where a line of a system text breaks rule 9.
#[derive(Drop)]
pub enum Why {
    /// The words are no command.
    Usage,
    /// A word of the script names a cluster that the system lacks, or the disk of one that is no page server.
    NoCluster,
    /// A line of a system text breaks a rule.
    SystemLine {
        line: u64,
        rule: u8,
        inner: Option<u8>,
        shown: Option<Text>,
    },
    /// A line of an assembler text breaks a rule.
    AsmLine {
        line: u64,
        rule: u8,
        shown: Option<Text>,
    },
    /// An item of a schedule is refused. Items are counted from 0.
    Item {
        index: u64,
        fault: ItemFault,
        shown: Option<Text>,
    },
    /// The line that begins a schedule is malformed.
    ScheduleLine {
        line: u64,
        shown: Option<Text>,
    },
    /// The input could not be read.
    ReadFault,
    /// The output could not be written.
    WriteFault,
    /// Memory was refused.
    NoMemory,
    /// The input is longer than is read.
    TooLong,
}

/// Why the program ends with this status, where the status says all.
pub fn why_of(status: u8) -> Option<Why>
    ensures { result ≡ why_of_status status }
{
    match status {
        1 => Some(Why::Usage),
        4 => Some(Why::ReadFault),
        5 => Some(Why::WriteFault),
        6 => Some(Why::NoMemory),
        8 => Some(Why::TooLong),
        _ => None,
    }
}

/// Why a system text is refused, by the line and the rule that are named. Where memory is refused, less is said.
pub fn system_why(alloc: Global, text: &[u8], line: u64, rule: u8) -> Why
    ensures { Says (system_why_of (lines_of text.now) line rule) result }
{
    match whole_system_why(alloc, text, line, rule) {
        Ok(why) => why,
        Err(NoMemory) => Why::SystemLine {
            line,
            rule,
            inner: None,
            shown: None,
        },
    }
}

fn whole_system_why(alloc: Global, text: &[u8], line: u64, rule: u8) -> Result<Why, NoMemory>
    ensures { IfOk result (λ why. why ≡ system_why_of (lines_of text.now) line rule) }
{
    let inner = inner_of(alloc, text, line, rule)?;
    let shown = shown_where(alloc, line_after(text, line.saturating_sub(1)))?;
    Ok(Why::SystemLine {
        line,
        rule,
        inner,
        shown,
    })
}

fn inner_of(alloc: Global, text: &[u8], line: u64, rule: u8) -> Result<Option<u8>, NoMemory>
    ensures { IfOk result (λ inner. inner ≡ inner_of_line (lines_of text.now) line rule) }
{
    if rule == 9 {
        inner_rule(alloc, text, line)
    } else {
        Ok(None)
    }
}

/// Why an assembler text is refused. Where memory is refused, less is said.
pub fn asm_why(alloc: Global, text: &[u8], line: u64, rule: u8) -> Why
    ensures { Says (asm_why_of (lines_of text.now) line rule) result }
{
    let shown = match shown_where(alloc, line_after(text, line.saturating_sub(1))) {
        Ok(shown) => shown,
        Err(NoMemory) => None,
    };
    Why::AsmLine { line, rule, shown }
}

/// Why an item of a schedule section is refused. Where memory is refused, less is said.
pub fn item_why(alloc: Global, section: &[u8], index: u64, fault: ItemFault) -> Why
    ensures { Says (item_why_of (lines_of section.now) index fault) result }
{
    let shown = match shown_where(alloc, item_line(section, index)) {
        Ok(shown) => shown,
        Err(NoMemory) => None,
    };
    Why::Item {
        index,
        fault,
        shown,
    }
}

/// Why a schedule section behind a system text cannot be read, where its item with this index is named: its first line is
/// malformed, or that item. Where memory is refused, less is said.
pub fn unreadable_why(alloc: Global, text: &[u8], section: &[u8], index: u64) -> Why
    ensures { Says (unreadable_why_of (lines_of text.now) (lines_of section.now) index) result }
{
    if begins_well(section) {
        item_why(alloc, section, index, ItemFault::Unreadable)
    } else {
        schedule_line_why(alloc, text, section)
    }
}

fn schedule_line_why(alloc: Global, text: &[u8], section: &[u8]) -> Why
    ensures { Says (schedule_line_why_of (lines_of text.now) (lines_of section.now)) result }
{
    let shown = match shown_where(alloc, line_after(section, 0)) {
        Ok(shown) => shown,
        Err(NoMemory) => None,
    };
    Why::ScheduleLine {
        line: line_behind(text),
        shown,
    }
}

impl Why {
    /// What is said, whole lines.
    pub fn text(&self, alloc: Global) -> Result<Text, NoMemory>
        ensures { IfOk result (λ text. text ≡ text_of self.now) }
    {
        match self {
            Why::SystemLine {
                line,
                rule,
                inner,
                shown,
            } => system_said(alloc, *line, *rule, *inner, shown),
            Why::AsmLine { line, rule, shown } => asm_said(alloc, *line, *rule, shown),
            Why::Item {
                index,
                fault,
                shown,
            } => item_said(alloc, *index, *fault, shown),
            Why::ScheduleLine { line, shown } => schedule_said(alloc, *line, shown),
            why => Bytes::copy_of(alloc, why.headline().as_bytes()),
        }
    }

    /// What is said where no memory is left for more.
    pub fn headline(&self) -> &'static str
        ensures { result.now ≡ headline_of self.now }
    {
        match self {
            Why::Usage => {
                "t32: the words are no command\n\n    t32 WORD [OPTION]..\n\nplain                            runs a system without clusters, by the schedule behind its text or by the default one\nsim [--log] [--pick N] [LOSS]..  runs its clusters in turns on one thread; N, 0 to 2147483647, is another order\nrun [--log] [LOSS]..             runs its clusters, each on a thread of its own\ncheck                            prints a system text in canonical form\nasm                              assembles a program and prints its words\nload N [LOSS]..                  runs, as run does, a ring of processes round which a token goes N times, 1 to 1000\n                                 and writes a line that counts what came of it; with --text it prints its text alone\n\nLOSS is crash:K@bus:N, by which cluster K is lost at place N of the log; crash:K@step:N, by which it is lost directly\nbefore its kernel step N; disk:K@N, by which it is lost since call N of its page disk fails, where it is one of the two\npage servers; or return:K@bus:N, by which it comes back at place N. All of these are counted from 0.\nThere are 32 such words at most. A loss is not covered where a process loses both its clusters, or no page server is left.\n\nThe text is read from standard input, as in: t32 sim --log < examples/hi.t32\nThe status is 0 done, 1 no such command or cluster, 2 the text is refused, 3 an item of the schedule is refused, 4 the\ninput failed, 5 the output failed, 6 memory was refused, 7 a loss was not covered, 8 the input is too long.\n"
            }
            Why::NoCluster => {
                "t32: a word names a cluster that the system does not have, or the disk of one that is no page server\n"
            }
            Why::SystemLine { .. } => "t32: a line of the system text breaks a rule\n",
            Why::AsmLine { .. } => "t32: a line of the assembler text breaks a rule\n",
            Why::Item { .. } => "t32: an item of the schedule is refused\n",
            Why::ScheduleLine { .. } => "t32: the line that begins the schedule is malformed\n",
            Why::ReadFault => "t32: standard input could not be read\n",
            Why::WriteFault => "t32: standard output could not be written\n",
            Why::NoMemory => "t32: memory was refused\n",
            Why::TooLong => "t32: the input is longer than 4194304 bytes\n",
        }
    }
}

fn system_said(
    alloc: Global,
    line: u64,
    rule: u8,
    inner: Option<u8>,
    shown: &Option<Text>,
) -> Result<Text, NoMemory>
    ensures { IfOk result (λ text. text ≡ (system_head_of line rule ++ inner_text_of inner) ++ line_text_of line shown.now) }
{
    let mut text = system_head(alloc, line, rule)?;
    put_inner(alloc, &mut text, inner)?;
    put_line(alloc, &mut text, line, shown)?;
    Ok(text)
}

fn asm_said(alloc: Global, line: u64, rule: u8, shown: &Option<Text>) -> Result<Text, NoMemory>
    ensures { IfOk result (λ text. text ≡ asm_head_of line rule ++ line_text_of line shown.now) }
{
    let mut text = asm_head(alloc, line, rule)?;
    put_line(alloc, &mut text, line, shown)?;
    Ok(text)
}

fn item_said(
    alloc: Global,
    index: u64,
    fault: ItemFault,
    shown: &Option<Text>,
) -> Result<Text, NoMemory>
    ensures { IfOk result (λ text. text ≡ item_head_of index fault ++ line_text_of index shown.now) }
{
    let mut text = item_head(alloc, index, fault)?;
    put_line(alloc, &mut text, index, shown)?;
    Ok(text)
}

fn schedule_said(alloc: Global, line: u64, shown: &Option<Text>) -> Result<Text, NoMemory>
    ensures { IfOk result (λ text. text ≡ schedule_head_of line ++ line_text_of line shown.now) }
{
    let mut text = schedule_head(alloc, line)?;
    put_line(alloc, &mut text, line, shown)?;
    Ok(text)
}

fn schedule_head(alloc: Global, line: u64) -> Result<Text, NoMemory>
    ensures { IfOk result (λ text. text ≡ schedule_head_of line) }
{
    let head = format!(in alloc;
        "t32: line {line} begins the schedule, and has to be: schedule N, with N below 4294967296\n"
    )?;
    Bytes::copy_of(alloc, head.as_bytes())
}

fn system_head(alloc: Global, line: u64, rule: u8) -> Result<Text, NoMemory>
    ensures { IfOk result (λ text. text ≡ system_head_of line rule) }
{
    let broken = system_rule_text(rule);
    let head = format!(in alloc;
        "t32: line {line} of the system text breaks rule {rule}: {broken}"
    )?;
    Bytes::copy_of(alloc, head.as_bytes())
}

fn asm_head(alloc: Global, line: u64, rule: u8) -> Result<Text, NoMemory>
    ensures { IfOk result (λ text. text ≡ asm_head_of line rule) }
{
    let broken = asm_rule_text(rule);
    let head = format!(in alloc;
        "t32: line {line} of the assembler text breaks rule {rule}: {broken}\n"
    )?;
    Bytes::copy_of(alloc, head.as_bytes())
}

fn item_head(alloc: Global, index: u64, fault: ItemFault) -> Result<Text, NoMemory>
    ensures { IfOk result (λ text. text ≡ item_head_of index fault) }
{
    let how = fault.text();
    let head = format!(in alloc; "t32: item {index} of the schedule cannot be {how}\n")?;
    Bytes::copy_of(alloc, head.as_bytes())
}

impl ItemFault {
    fn text(self) -> &'static str
        ensures { result.now ≡ fault_text self }
    {
        match self {
            ItemFault::Unreadable => {
                "read: its line or the first line is malformed or missing, or its line is one too many"
            }
            ItemFault::Inapplicable => "applied: its process cannot do that here",
        }
    }
}

// Puts the rule of the assembler behind the rule, and ends the line.
fn put_inner(alloc: Global, text: &mut Text, inner: Option<u8>) -> Result<(), NoMemory>
    ensures { OnOk result (text.new ≡ text.old ++ inner_text_of inner) }
{
    match inner {
        Some(rule) => put_asm_rule(alloc, text, rule),
        None => text.extend(b"\n"),
    }
}

fn put_asm_rule(alloc: Global, text: &mut Text, rule: u8) -> Result<(), NoMemory>
    ensures { OnOk result (text.new ≡ text.old ++ inner_text_of (Some rule)) }
{
    let broken = asm_rule_text(rule);
    let part = format!(in alloc; ", by its rule {rule}: {broken}\n")?;
    text.extend(part.as_bytes())
}

// Puts a line that is shown behind its number.
fn put_line(
    alloc: Global,
    text: &mut Text,
    number: u64,
    shown: &Option<Text>,
) -> Result<(), NoMemory>
    ensures { OnOk result (text.new ≡ text.old ++ line_text_of number shown.now) }
{
    match shown {
        Some(shown) => put_shown(alloc, text, number, shown.as_slice()),
        None => Ok(()),
    }
}

fn put_shown(alloc: Global, text: &mut Text, number: u64, shown: &[u8]) -> Result<(), NoMemory>
    ensures { OnOk result (text.new ≡ text.old ++ line_text_of number (Some shown.now)) }
{
    let front = format!(in alloc; "{number} | ")?;
    text.extend(front.as_bytes())?;
    text.extend(shown)?;
    text.extend(b"\n")
}
