//! How a run ended, read from its log: what each terminal was sent, and how each process stands.
ghost use Rattle.std.specs.Prelude.{◌≡◌, ◌++◌, OnOk, IfOk, Some, count_by, length, map, not, string_bytes, true};
ghost use Rattle.std.specs.Option.{option_map_or};
ghost use Rattle.std.specs.List.{flat_map, range_with_len};
ghost use Rattle.std.specs.FinMap.{find};
ghost use Rattle.std.specs.Ordering.{nat_cmp};
ghost use Rattle.sys_text.specs.Boot.{roots_of};
ghost use Rattle.sys_text.specs.Valid.{is_system};
ghost use Rattle.bus_msg.specs.PlacedAfter.{what as says};
ghost use Rattle.report_text.specs.Load.{is_exit_0 as is_exit_0_of, load_line as load_line_of, outcome_load};
ghost use Rattle.report_text.specs.Report.{tty_part};
ghost use Rattle.report_text.specs.Outcome.{end_part, ends_of as ends_of_roots, none_told, outcome_of as outcome_of_log, outcome_report, standing_text, told_after, ttys_with};

use crate::plain::put_tty;
use bus_msg::entry::{Entry, What};
use bus_msg::text::end_line;
use plain_kernel::booting::{pid_after, ttys_of};
use plain_kernel::sending::{append, said};
use std::alloc::{AllocError, Global};
use std::collections::BTreeMap;
use std::marker::Model;
use sys_text::system::System;
use t32_base::letter::{Letter, To};
use t32_base::lists::{Bytes, Text};
use t32_base::process::End;
use t32_base::streams::NoMemory;

/// What a log tells of its end: the bytes that each terminal was sent, and the end of each process, where it has
/// ended.
#[derive(Drop)]
pub struct Outcome {
    ttys: BTreeMap<u8, Bytes>,
    ends: BTreeMap<u32, Option<End>>,
}

impl Model for Outcome {
    ghost use Rattle.report_text.specs.Outcome.{Outcome as AnOutcome};

    ghost Value = { AnOutcome };

    ghost view = { λ o. record { ttys = o.ttys.entries; ends = o.ends.entries } };
}

impl Outcome {
    /// What the log of a run of a system tells.
    pub fn of(alloc: Global, system: &System, log: &[Entry]) -> Result<Outcome, NoMemory>
        requires { is_system system.now ≡ true }
        ensures { IfOk result (λ o. o ≡ outcome_of_log system.now log.now) }
    {
        let mut outcome = Outcome::none(alloc, system)?;
        for entry in log {
            outcome.take_in(entry)?;
        }
        Ok(outcome)
    }

    // What no entry tells: the roots run, and nothing was sent to their terminals.
    fn none(alloc: Global, system: &System) -> Result<Outcome, NoMemory>
        requires { is_system system.now ≡ true }
        ensures { IfOk result (λ o. o ≡ none_told system.now) }
    {
        Ok(Outcome {
            ttys: ttys_of(alloc, system.roots.as_slice())?,
            ends: ends_of(alloc, system)?,
        })
    }

    // Takes in one more entry. After want of memory nothing is said.
    fn take_in(&mut self, entry: &Entry) -> Result<(), NoMemory>
        ensures { OnOk result (self.new ≡ told_after (says entry.now) self.old) }
    {
        match &entry.post.what {
            What::Mail { letter, .. } => put_letter(&mut self.ttys, letter),
            What::Birth { child, .. } => {
                self.ends.insert(child.0, None)?;
                Ok(())
            }
            What::Exit { pid, end, .. } => {
                self.ends.insert(pid.0, Some(*end))?;
                Ok(())
            }
            What::Page { .. }
            | What::Sync { .. }
            | What::Fetch { .. }
            | What::PageIs { .. }
            | What::Crash { .. }
            | What::Return { .. }
            | What::Rebackup { .. }
            | What::Done { .. }
            | What::Stop => Ok(()),
        }
    }

    /// The terminals, and how each process stands where nothing can move.
    pub fn report(&self, alloc: Global) -> Result<Text, NoMemory>
        ensures { IfOk result (λ text. text ≡ outcome_report self.now) }
    {
        let mut text = Bytes::new(alloc);
        put_ttys(alloc, &mut text, &self.ttys)?;
        put_ends(alloc, &mut text, &self.ends)?;
        Ok(text)
    }

    /// The line of a workload of this size: the bytes of terminal 0, the processes that ended with exit 0, and all
    /// others.
    pub fn load_line(&self, alloc: Global, size: u32) -> Result<Text, NoMemory>
        ensures { IfOk result (λ text. text ≡ outcome_load size self.now) }
    {
        let tty = bytes_sent(&self.ttys, 0);
        let (exits, others) = exits_and_others(&self.ends);
        load_text(alloc, size, tty, exits, others)
    }
}

// How many bytes a terminal was sent.
fn bytes_sent(ttys: &BTreeMap<u8, Bytes>, tty: u8) -> usize
    ensures { result ≡ option_map_or length (find nat_cmp tty ttys.now.entries) 0 }
{
    match ttys.get(&tty) {
        Some(bytes) => bytes.len(),
        None => 0,
    }
}

// How many processes ended with exit 0, and how many did not.
fn exits_and_others(ends: &BTreeMap<u32, Option<End>>) -> (u64, u64)
    ensures exits { result.0 ≡ count_by is_exit_0_of (map (λ e. e.1) ends.now.entries) }
    ensures others { result.1 ≡ count_by (λ end. not (is_exit_0_of end)) (map (λ e. e.1) ends.now.entries) }
{
    let mut exits = 0;
    let mut others = 0;
    for (_, end) in ends.iter() {
        if is_exit_0(*end) {
            exits += 1;
        } else {
            others += 1;
        }
    }
    (exits, others)
}

fn load_text(alloc: Global, size: u32, tty: usize, exits: u64, other: u64) -> Result<Text, NoMemory>
    ensures { IfOk result (λ text. text ≡ load_line_of size tty exits other) }
{
    let line = format!(in alloc; "load {size} tty {tty} exits {exits} other {other}\n")?;
    Ok(Bytes::copy_of(alloc, line.as_bytes())?)
}

// Whether a process exited with status 0.
fn is_exit_0(end: Option<End>) -> bool
    ensures { result ≡ is_exit_0_of end }
{
    matches!(end, Some(End::Exit(0)))
}

// The roots of a system, none of which has ended.
fn ends_of(alloc: Global, system: &System) -> Result<BTreeMap<u32, Option<End>>, NoMemory>
    requires { is_system system.now ≡ true }
    ensures { IfOk result (λ ends. ends.entries ≡ ends_of_roots (roots_of system.now)) }
{
    let mut ends = BTreeMap::new(alloc);
    let roots = system.roots.as_slice();
    for (number, root) in roots.iter().enumerate() {
        let pid = pid_after(&roots[..number], *root);
        ends.insert(pid.0, None)?;
    }
    Ok(ends)
}

// Puts what a letter says after what its terminal was sent, if it goes to one that a root names.
fn put_letter(ttys: &mut BTreeMap<u8, Bytes>, letter: &Letter) -> Result<(), NoMemory>
    ensures { OnOk result (ttys.new.entries ≡ ttys_with letter.now letter.now.to ttys.old.entries) }
{
    match letter.to {
        To::Tty(tty) => append(ttys, tty, said(&letter.body)),
        To::Proc(_, _) => Ok(()),
    }
}

fn put_ttys(alloc: Global, text: &mut Text, ttys: &BTreeMap<u8, Bytes>) -> Result<(), NoMemory>
    ensures { OnOk result (text.new ≡ text.old ++ flat_map (λ t. tty_part t (find nat_cmp t ttys.now.entries)) (range_with_len 0 16)) }
{
    for tty in 0..16u8 {
        put_tty_of(alloc, text, ttys, tty)?;
    }
    Ok(())
}

fn put_tty_of(
    alloc: Global,
    text: &mut Text,
    ttys: &BTreeMap<u8, Bytes>,
    tty: u8,
) -> Result<(), NoMemory>
    ensures { OnOk result (text.new ≡ text.old ++ tty_part tty (find nat_cmp tty ttys.now.entries)) }
{
    match ttys.get(&tty) {
        Some(bytes) => put_tty(alloc, text, tty, bytes.as_slice()),
        None => Ok(()),
    }
}

fn put_ends(
    alloc: Global,
    text: &mut Text,
    ends: &BTreeMap<u32, Option<End>>,
) -> Result<(), NoMemory>
    ensures { OnOk result (text.new ≡ text.old ++ flat_map end_part ends.now.entries) }
{
    for (pid, end) in ends {
        put_end(alloc, text, *pid, *end)?;
    }
    Ok(())
}

fn put_end(alloc: Global, text: &mut Text, pid: u32, end: Option<End>) -> Result<(), NoMemory>
    ensures { OnOk result (text.new ≡ text.old ++ end_part (pid, end)) }
{
    let stands = standing(alloc, end)?;
    let line = format!(in alloc; "pid {pid} {stands}\n")?;
    text.extend(line.as_bytes())
}

fn standing(alloc: Global, end: Option<End>) -> Result<String, AllocError>
    ensures { IfOk result (λ text. string_bytes text ≡ standing_text end) }
{
    match end {
        Some(end) => end_line(alloc, end),
        None => String::from_str(alloc, "waiting"),
    }
}
