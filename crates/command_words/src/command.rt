//! The commands, by their words.
ghost use Rattle.std.specs.Prelude.{◌≡◌, IfOk, MatchOption, false, option_and_then, option_map, true};
ghost use Rattle.std.specs.List.{list_all, list_any, position};
ghost use Rattle.std.specs.Str.{is_utf8};
ghost use Rattle.clap.specs.Walk.{texts as texts_of};
ghost use Rattle.command_words.specs.Options.{given_of, is_end};
ghost use Rattle.command_words.specs.Parts.{given_by};
ghost use Rattle.command_words.specs.Command.{alone as alone_by, before_end, behind_end, command_by as command_by_words, command_of as command_of_words, load_by, load_with as load_with_words, pick_of as pick_of_text, run_by, sim_by, size_of as size_of_text};

use crate::options::{Form, Parts, parts_of};
use crate::script::{number_below, script_of};
use cert_sched::script::Script;
use std::alloc::Global;
use t32_base::lists::Text;
use t32_base::streams::NoMemory;

/// What the program is told to do: to run a system without failures, to print a system text in canonical
/// form, to assemble a text, to run the clusters of a system on one thread or each on its own, or to run a
/// workload of a size. `pick` says where each round begins. A script says which clusters are lost and return;
/// that the system has these clusters is another question, `allowed`.
#[derive(Drop)]
pub enum Command {
    Plain,
    Check,
    Asm,
    Sim {
        pick: u32,
        log: bool,
        script: Script,
    },
    Run {
        log: bool,
        script: Script,
    },
    Load {
        size: u32,
        text: bool,
        script: Script,
    },
}

const PICKS: u64 = 0x8000_0000;

const SIZES: u64 = 1001;

/// The command that the words are, or `None` where they are none. The first word names the command, and its
/// options and script words follow in any order. `plain`, `check` and `asm` take no words. `sim` takes `--log`,
/// `--pick N` or `--pick=N` with a number of 31 bits, and script words; `run` takes `--log` and script words;
/// `load` takes its size, 1 to 1000, as the first word that is no option, and `--text` and script words. Each
/// option stands once at most, and behind `--` every word is a script word. The only error is want of memory.
pub fn command_of(alloc: Global, words: &[Text]) -> Result<Option<Command>, NoMemory>
    ensures { IfOk result (λ c. c ≡ command_of_words words.now) }
{
    let Some(texts) = texts(alloc, words)? else {
        return Ok(None);
    };
    match texts.as_slice() {
        [] => Ok(None),
        [first, words @ ..] => command_by(alloc, first, words),
    }
}

// The words as texts, where each is one.
fn texts<'a>(alloc: Global, words: &'a [Text]) -> Result<Option<Vec<&'a str>>, NoMemory>
    ensures { IfOk result (λ r. MatchOption r (list_all is_utf8 words.now ≡ false)
        (λ t. (texts_of t.items ≡ words.now) × (list_all is_utf8 words.now ≡ true))) }
{
    let mut texts = Vec::new(alloc);
    for word in words {
        let Ok(text) = str::from_utf8(word.as_slice()) else {
            return Ok(None);
        };
        texts.push(text)?;
    }
    Ok(Some(texts))
}

// The command of a first word and the words after it.
fn command_by(alloc: Global, first: &str, words: &[&str]) -> Result<Option<Command>, NoMemory>
    requires { list_all is_utf8 (texts_of words.now) ≡ true }
    ensures { IfOk result (λ c. c ≡ command_by_words first.now (texts_of words.now)) }
{
    match first {
        "plain" => Ok(alone(Command::Plain, words)),
        "check" => Ok(alone(Command::Check, words)),
        "asm" => Ok(alone(Command::Asm, words)),
        "sim" => sim(alloc, words),
        "run" => run(alloc, words),
        "load" => load(alloc, words),
        _ => Ok(None),
    }
}

fn alone(command: Command, words: &[&str]) -> Option<Command>
    ensures { result ≡ alone_by command (texts_of words.now) }
{
    match words {
        [] => Some(command),
        _ => None,
    }
}

fn sim(alloc: Global, words: &[&str]) -> Result<Option<Command>, NoMemory>
    requires { list_all is_utf8 (texts_of words.now) ≡ true }
    ensures { IfOk result (λ c. c ≡ option_and_then (sim_by (behind_end (texts_of words.now)))
        (given_of Form.Sim (before_end (texts_of words.now)))) }
{
    let (before, behind) = cut_at_end(words);
    let Some(parts) = parts_of(alloc, Form::Sim, before)? else {
        return Ok(None);
    };
    sim_with(alloc, &parts, behind)
}

fn sim_with(alloc: Global, parts: &Parts<'_>, behind: &[&str]) -> Result<Option<Command>, NoMemory>
    ensures { IfOk result (λ c. c ≡ sim_by (texts_of behind.now) (given_by parts.now)) }
{
    let Some(pick) = pick_of(parts.pick) else {
        return Ok(None);
    };
    let Some(script) = script_of(alloc, parts.plain.as_slice(), behind)? else {
        return Ok(None);
    };
    Ok(Some(Command::Sim {
        pick,
        log: parts.flag,
        script,
    }))
}

fn pick_of(text: Option<&str>) -> Option<u32>
    ensures { result ≡ pick_of_text (option_map (λ s. s.now) text.entry) }
{
    let Some(text) = text else {
        return Some(0);
    };
    let pick = number_below(PICKS, text.as_bytes())?;
    Some(pick as u32)
}

fn run(alloc: Global, words: &[&str]) -> Result<Option<Command>, NoMemory>
    requires { list_all is_utf8 (texts_of words.now) ≡ true }
    ensures { IfOk result (λ c. c ≡ option_and_then (run_by (behind_end (texts_of words.now)))
        (given_of Form.Run (before_end (texts_of words.now)))) }
{
    let (before, behind) = cut_at_end(words);
    let Some(parts) = parts_of(alloc, Form::Run, before)? else {
        return Ok(None);
    };
    run_with(alloc, &parts, behind)
}

fn run_with(alloc: Global, parts: &Parts<'_>, behind: &[&str]) -> Result<Option<Command>, NoMemory>
    ensures { IfOk result (λ c. c ≡ run_by (texts_of behind.now) (given_by parts.now)) }
{
    let Some(script) = script_of(alloc, parts.plain.as_slice(), behind)? else {
        return Ok(None);
    };
    Ok(Some(Command::Run {
        log: parts.flag,
        script,
    }))
}

fn load(alloc: Global, words: &[&str]) -> Result<Option<Command>, NoMemory>
    requires { list_all is_utf8 (texts_of words.now) ≡ true }
    ensures { IfOk result (λ c. c ≡ option_and_then (load_by (behind_end (texts_of words.now)))
        (given_of Form.Load (before_end (texts_of words.now)))) }
{
    let (before, behind) = cut_at_end(words);
    let Some(parts) = parts_of(alloc, Form::Load, before)? else {
        return Ok(None);
    };
    load_with(alloc, parts.flag, parts.plain.as_slice(), behind)
}

fn load_with(
    alloc: Global,
    text: bool,
    plain: &[&str],
    behind: &[&str],
) -> Result<Option<Command>, NoMemory>
    ensures { IfOk result (λ c. c ≡ load_with_words text (texts_of behind.now) (texts_of plain.now)) }
{
    let [size, words @ ..] = plain else {
        return Ok(None);
    };
    let Some(size) = size_of(size.as_bytes()) else {
        return Ok(None);
    };
    let Some(script) = script_of(alloc, words, behind)? else {
        return Ok(None);
    };
    Ok(Some(Command::Load { size, text, script }))
}

fn size_of(text: &[u8]) -> Option<u32>
    ensures { result ≡ size_of_text text.now }
{
    let size = number_below(SIZES, text)?;
    if size == 0 {
        return None;
    }
    Some(size as u32)
}

// The words before the first `--`, and those behind it.
fn cut_at_end<'a, 'w>(words: &'a [&'w str]) -> (&'a [&'w str], &'a [&'w str])
    requires { list_all is_utf8 (texts_of words.now) ≡ true }
    ensures before { texts_of result.0.now ≡ before_end (texts_of words.now) }
    ensures behind { texts_of result.1.now ≡ behind_end (texts_of words.now) }
    ensures text { list_all is_utf8 (texts_of result.0.now) ≡ true }
    ensures no_end { list_any is_end (texts_of result.0.now) ≡ false }
{
    match first_end(words) {
        Some(end) => (&words[..end], &words[end + 1..]),
        None => words.split_at(words.len()),
    }
}

// Where the first `--` stands.
fn first_end(words: &[&str]) -> Option<usize>
    ensures { result ≡ position (λ word. is_end word.now) words.now }
{
    words.iter().position(|word| *word == "--")
}
