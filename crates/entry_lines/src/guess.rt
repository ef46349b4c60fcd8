//! What a line would say if it were the line of an entry. Where it is none, it is anything.
ghost use Rattle.std.specs.Prelude.{◌≡◌, IfOk};
ghost use Rattle.entry_lines.specs.Guess.{by_named, end_in, took_in, cause_in, body_in, sent_in, letter_in, mail_in, birth_in, exit_in, page_in, sync_in, fetch_in, answer_in, crash_in, backup_in, rebackup_in, loss_in, pages_in, what_in, guess_of};

use crate::numbers::{after, bytes, cut, number, number_in, numbers, past};
use crate::told::{Told, ToldBy, ToldEnd, ToldLetter, ToldWhat};
use bus_msg::entry::Cause;
use std::alloc::Global;
use t32_base::lists::List;
use t32_base::streams::NoMemory;
use text_parts::cut_at;

fn sender(name: &[u8]) -> ToldBy
    ensures { result ≡ by_named name.now }
{
    if name == b"bus".as_slice() {
        ToldBy::Bus
    } else {
        ToldBy::Cluster(number_in(name))
    }
}

fn ending(text: &[u8]) -> ToldEnd
    ensures { result ≡ end_in text.now }
{
    let (word, rest) = cut(text);
    if word == b"exit".as_slice() {
        ToldEnd::Exit(number(rest))
    } else if word == b"trap".as_slice() {
        ToldEnd::Trap(number(rest))
    } else if word == b"killed".as_slice() {
        ToldEnd::Killed(number(rest))
    } else {
        ToldEnd::Limit
    }
}

fn taken(text: &[u8]) -> Option<u64>
    ensures { result ≡ took_in text.now }
{
    let (word, rest) = cut(text);
    if word == b"take".as_slice() {
        Some(number(rest))
    } else {
        None
    }
}

fn cause(text: &[u8]) -> Cause
    ensures { result ≡ cause_in text.now }
{
    let (word, rest) = cut(text);
    if word == b"step".as_slice() {
        Cause::Step(number(rest))
    } else if word == b"disk".as_slice() {
        Cause::Disk(number(rest))
    } else {
        Cause::Place
    }
}

/// A letter from this end to one of a process, behind its word `to`.
fn body(alloc: Global, out: u64, text: &[u8]) -> Result<ToldLetter, NoMemory>
    ensures { IfOk result (λ letter. letter ≡ body_in out text.now) }
{
    let to = number(text);
    let end = number(past(text));
    let carried = after(past(text));
    if carried == b"eof".as_slice() {
        Ok(ToldLetter::EndOf { out, to, end })
    } else {
        let bytes = bytes(alloc, carried)?;
        Ok(ToldLetter::Said {
            out,
            to,
            end,
            bytes,
        })
    }
}

/// A letter, behind its word `out`.
fn sent(alloc: Global, text: &[u8]) -> Result<ToldLetter, NoMemory>
    ensures { IfOk result (λ letter. letter ≡ sent_in text.now) }
{
    let out = number(text);
    let (word, rest) = cut(after(text));
    if word == b"tty".as_slice() {
        let tty = number(rest);
        let bytes = bytes(alloc, after(rest))?;
        Ok(ToldLetter::Shown { out, tty, bytes })
    } else {
        body(alloc, out, rest)
    }
}

fn letter(alloc: Global, text: &[u8]) -> Result<ToldLetter, NoMemory>
    ensures { IfOk result (λ letter. letter ≡ letter_in text.now) }
{
    let (word, rest) = cut(text);
    if word == b"out".as_slice() {
        sent(alloc, rest)
    } else {
        Ok(ToldLetter::Signal {
            to: number(rest),
            signal: number(past(rest)),
        })
    }
}

fn mail(alloc: Global, text: &[u8]) -> Result<ToldWhat, NoMemory>
    ensures { IfOk result (λ what. what ≡ mail_in text.now) }
{
    let rest = past(text);
    let letter = letter(alloc, after(rest))?;
    Ok(ToldWhat::Mail {
        from: number(text),
        at: number(rest),
        letter,
    })
}

fn birth(text: &[u8]) -> ToldWhat
    ensures { result ≡ birth_in text.now }
{
    let second = past(text);
    let third = past(second);
    ToldWhat::Birth {
        parent: number(text),
        at: number(second),
        child: number(third),
        end: number(past(third)),
    }
}

fn exit(text: &[u8]) -> ToldWhat
    ensures { result ≡ exit_in text.now }
{
    let rest = past(text);
    ToldWhat::Exit {
        pid: number(text),
        at: number(rest),
        end: ending(after(rest)),
    }
}

fn page(text: &[u8]) -> ToldWhat
    ensures { result ≡ page_in text.now }
{
    let rest = past(text);
    ToldWhat::Page {
        pid: number(text),
        at: number(rest),
        index: number(after(rest)),
    }
}

fn sync(text: &[u8]) -> ToldWhat
    ensures { result ≡ sync_in text.now }
{
    let rest = past(text);
    ToldWhat::Sync {
        pid: number(text),
        at: number(rest),
        took: taken(after(rest)),
    }
}

fn fetch(text: &[u8]) -> ToldWhat
    ensures { result ≡ fetch_in text.now }
{
    ToldWhat::Fetch {
        pid: number(text),
        index: number(after(text)),
    }
}

fn answer(text: &[u8]) -> ToldWhat
    ensures { result ≡ answer_in text.now }
{
    ToldWhat::PageIs {
        pid: number(text),
        index: number(after(text)),
    }
}

fn crash(text: &[u8]) -> ToldWhat
    ensures { result ≡ crash_in text.now }
{
    ToldWhat::Crash {
        k: number(text),
        cause: cause(after(text)),
    }
}

/// A new backup of these processes, from the `t` of `to` or of `at` on.
fn backup(pids: List<u64>, text: &[u8]) -> ToldWhat
    ensures { result ≡ backup_in pids text.now }
{
    let (word, rest) = cut(text);
    if word == b"to".as_slice() {
        ToldWhat::Standing {
            pids,
            to: number(rest),
        }
    } else {
        ToldWhat::Fresh {
            pids,
            at: number(rest),
            to: number(past(rest)),
        }
    }
}

fn rebackup(alloc: Global, text: &[u8]) -> Result<ToldWhat, NoMemory>
    ensures { IfOk result (λ what. what ≡ rebackup_in text.now) }
{
    let (front, rest) = cut_at(text, b't');
    let pids = numbers(alloc, front)?;
    Ok(backup(pids, rest))
}

fn loss(alloc: Global, kind: &[u8], text: &[u8]) -> Result<ToldWhat, NoMemory>
    ensures { IfOk result (λ what. what ≡ loss_in kind.now text.now) }
{
    if kind == b"crash".as_slice() {
        Ok(crash(text))
    } else if kind == b"return".as_slice() {
        Ok(ToldWhat::Return { k: number(text) })
    } else if kind == b"rebackup".as_slice() {
        rebackup(alloc, text)
    } else if kind == b"done".as_slice() {
        Ok(ToldWhat::Done)
    } else {
        Ok(ToldWhat::Stop)
    }
}

fn pages(alloc: Global, kind: &[u8], text: &[u8]) -> Result<ToldWhat, NoMemory>
    ensures { IfOk result (λ what. what ≡ pages_in kind.now text.now) }
{
    if kind == b"page".as_slice() {
        Ok(page(text))
    } else if kind == b"sync".as_slice() {
        Ok(sync(text))
    } else if kind == b"fetch".as_slice() {
        Ok(fetch(text))
    } else if kind == b"pageis".as_slice() {
        Ok(answer(text))
    } else {
        loss(alloc, kind, text)
    }
}

fn what(alloc: Global, kind: &[u8], text: &[u8]) -> Result<ToldWhat, NoMemory>
    ensures { IfOk result (λ what. what ≡ what_in kind.now text.now) }
{
    if kind == b"mail".as_slice() {
        mail(alloc, text)
    } else if kind == b"birth".as_slice() {
        Ok(birth(text))
    } else if kind == b"exit".as_slice() {
        Ok(exit(text))
    } else {
        pages(alloc, kind, text)
    }
}

/// What a line would say.
pub fn guess(alloc: Global, line: &[u8]) -> Result<Told, NoMemory>
    ensures { IfOk result (λ told. told ≡ guess_of line.now) }
{
    let (by, rest) = cut(after(line));
    let (kind, rest) = cut(rest);
    let what = what(alloc, kind, rest)?;
    Ok(Told {
        place: number(line),
        by: sender(by),
        what,
    })
}
