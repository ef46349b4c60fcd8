//! Whether a line tells of what a process sent.
ghost use Rattle.std.specs.Prelude.{◌≡◌};
ghost use Rattle.bus_msg.specs.Text.{bytes_said};
ghost use Rattle.log_processes.specs.Telling.{is_at_end, is_at_process, is_at_tty, is_end_told, is_letter_told, says, says_end, says_signal};

use entry_lines::{ToldEnd, ToldLetter};
use t32_base::letter::{Body, Letter, To};
use t32_base::process::End;

/// Whether a line tells of this end of a process. Takes no memory.
pub fn is_end_told(told: ToldEnd, end: End) -> bool
    ensures { result ≡ is_end_told told end }
{
    match (told, end) {
        (ToldEnd::Exit(told), End::Exit(status)) => told == u64::from(status),
        (ToldEnd::Trap(told), End::Trap(code)) => told == u64::from(code),
        (ToldEnd::Killed(told), End::Killed(signal)) => told == u64::from(signal),
        (ToldEnd::Limit, End::Limit) => true,
        _ => false,
    }
}

/// Whether a line tells of this letter. Takes no memory.
pub fn is_letter_told(told: &ToldLetter, letter: &Letter) -> bool
    ensures { result ≡ is_letter_told told.now letter.now }
{
    match told {
        ToldLetter::Shown { out, tty, bytes } => {
            *out == u64::from(letter.out)
                && is_at_tty(*tty, letter.to)
                && bytes.as_slice() == bytes_said(&letter.body)
        }
        ToldLetter::Said {
            out,
            to,
            end,
            bytes,
        } => {
            *out == u64::from(letter.out)
                && is_at_end(*to, *end, letter.to)
                && says(bytes.as_slice(), &letter.body)
        }
        ToldLetter::EndOf { out, to, end } => {
            *out == u64::from(letter.out)
                && is_at_end(*to, *end, letter.to)
                && says_end(&letter.body)
        }
        ToldLetter::Signal { to, signal } => {
            is_at_process(*to, letter.to) && says_signal(*signal, &letter.body)
        }
    }
}

// Whether a letter goes to this terminal.
fn is_at_tty(tty: u64, to: To) -> bool
    ensures { result ≡ is_at_tty tty to }
{
    match to {
        To::Tty(at) => tty == u64::from(at),
        To::Proc(_, _) => false,
    }
}

// Whether it goes to this end of this process.
fn is_at_end(pid: u64, end: u64, to: To) -> bool
    ensures { result ≡ is_at_end pid end to }
{
    match to {
        To::Proc(at, at_end) => pid == u64::from(at.0) && end == u64::from(at_end),
        To::Tty(_) => false,
    }
}

// Whether it goes to this process.
fn is_at_process(pid: u64, to: To) -> bool
    ensures { result ≡ is_at_process pid to }
{
    match to {
        To::Proc(at, _) => pid == u64::from(at.0),
        To::Tty(_) => false,
    }
}

// The bytes that are said.
fn bytes_said(body: &Body) -> &[u8]
    ensures { result.now ≡ bytes_said body.now }
{
    match body {
        Body::Said(bytes) => bytes.as_slice(),
        Body::EndOf | Body::Signal(_) => &[],
    }
}

// Whether a letter says these bytes.
fn says(bytes: &[u8], body: &Body) -> bool
    ensures { result ≡ says bytes.now body.now }
{
    match body {
        Body::Said(said) => bytes == said.as_slice(),
        Body::EndOf | Body::Signal(_) => false,
    }
}

// Whether it says that its sender's end is shut.
fn says_end(body: &Body) -> bool
    ensures { result ≡ says_end body.now }
{
    match body {
        Body::EndOf => true,
        Body::Said(_) | Body::Signal(_) => false,
    }
}

// Whether it is this signal.
fn says_signal(signal: u64, body: &Body) -> bool
    ensures { result ≡ says_signal signal body.now }
{
    match body {
        Body::Signal(number) => signal == u64::from(*number),
        Body::Said(_) | Body::EndOf => false,
    }
}
