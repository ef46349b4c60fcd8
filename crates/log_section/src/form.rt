//! The parts of a section in front of its log, in their order.
ghost use Rattle.std.specs.Prelude.{◌≡◌, drop, option_map};
ghost use Rattle.log_section.specs.Form.{behind_feed, behind_tty, behind_ttys, behind_processes, behind_some_losses, behind_losses, behind_lost, behind_bus, behind_items, log_part};

use crate::lines::{behind_all, behind_count, behind_line, behind_one};

const PROCESSES: [&[u8]; 6] = [
    b"pid # exit #\n",
    b"pid # trap #\n",
    b"pid # killed #\n",
    b"pid # limit\n",
    b"pid # waiting\n",
    b"pid # running\n",
];

const LOSSES: [&[u8]; 2] = [b"crash # at #\n", b"return # at #\n"];

const ITEMS: [&[u8]; 3] = [b"run # #\n", b"fork # #\n", b"take #\n"];

// The text behind a line feed.
fn feed(text: &[u8]) -> Option<&[u8]>
    ensures { option_map (λ s. s.now) result ≡ behind_feed text.now }
{
    match text {
        [b'\n', rest @ ..] => Some(rest),
        _ => None,
    }
}

// The text without so many bytes at its front.
fn without(text: &[u8], count: u64) -> &[u8]
    ensures { result.now ≡ drop count text.now }
{
    if count < text.len() as u64 {
        text.split_at(count as usize).1
    } else {
        &[]
    }
}

// A terminal: its line, as many bytes as that tells, whatever they are, and a line feed.
fn tty(text: &[u8]) -> Option<&[u8]>
    ensures { option_map (λ s. s.now) result ≡ behind_tty text.now }
{
    let (count, rest) = behind_line(b"tty # #\n", text)?;
    feed(without(rest, count))
}

fn ttys(text: &[u8]) -> &[u8]
    ensures { result.now ≡ behind_ttys text.now }
{
    let mut rest = text;
    for _ in 0..text.len() {
        match tty(rest) {
            Some(after) => rest = after,
            None => return rest,
        }
    }
    rest
}

fn processes(text: &[u8]) -> &[u8]
    ensures { result.now ≡ behind_processes text.now }
{
    behind_all(&PROCESSES, text)
}

// One loss, and all that follow it.
fn some_losses(text: &[u8]) -> Option<&[u8]>
    ensures { option_map (λ s. s.now) result ≡ behind_some_losses text.now }
{
    let rest = behind_one(&LOSSES, text)?;
    Some(behind_all(&LOSSES, rest))
}

// The losses, or that there was no crash.
fn losses(text: &[u8]) -> Option<&[u8]>
    ensures { option_map (λ s. s.now) result ≡ behind_losses text.now }
{
    match behind_line(b"crash none\n", text) {
        Some((_, rest)) => Some(rest),
        None => some_losses(text),
    }
}

// The loss that ended the run, if one did.
fn lost(text: &[u8]) -> &[u8]
    ensures { result.now ≡ behind_lost text.now }
{
    match behind_line(b"lost # at #\n", text) {
        Some((_, rest)) => rest,
        None => text,
    }
}

fn bus(text: &[u8]) -> Option<&[u8]>
    ensures { option_map (λ s. s.now) result ≡ behind_bus text.now }
{
    let (_, rest) = behind_line(b"bus # syncs # withheld #\n", text)?;
    Some(rest)
}

// As many items as the line `schedule` tells.
fn items(text: &[u8]) -> Option<&[u8]>
    ensures { option_map (λ s. s.now) result ≡ behind_items text.now }
{
    let (count, rest) = behind_line(b"schedule #\n", text)?;
    behind_count(&ITEMS, count, rest)
}

/// The number of entries that the line `log` tells, and the text behind it, where all parts in front of it are there.
pub fn log_part(section: &[u8]) -> Option<(u64, &[u8])>
    ensures { option_map (λ x. (x.0, x.1.now)) result ≡ log_part section.now }
{
    let rest = lost(losses(processes(ttys(section)))?);
    behind_line(b"log #\n", items(bus(rest)?)?)
}
