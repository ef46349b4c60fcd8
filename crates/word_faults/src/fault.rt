//! The first word that is wrong.
ghost use Rattle.std.specs.Prelude.{◌≡◌, IfOk};
ghost use Rattle.std.specs.Str.{is_utf8};
ghost use Rattle.text_parts.specs.Table.{lookup as lookup_in};
ghost use Rattle.word_faults.specs.Fault.{fault_by as fault_by_name, fault_from, fault_of as fault_of_words, missing_at, names_by_text, nothing_behind as nothing_behind_of, word_after as word_after_of, word_hint as word_hint_of};
ghost use Rattle.word_faults.specs.Seen.{nothing_of};

use crate::said::fault_text;
use crate::seen::{Form, Reason, Seen};
use std::alloc::Global;
use t32_base::lists::Text;
use t32_base::streams::NoMemory;
use text_parts::lookup;

/// The first word that is wrong: its place among the words, counted from 1, and why.
#[derive(Clone, Copy, PartialEq, Eq, Debug)]
pub struct WordFault {
    pub place: u64,
    pub reason: Reason,
}

/// What a first word names: a command, or the wish for help.
#[derive(Clone, Copy, PartialEq, Eq, Debug)]
pub enum Name {
    Alone,
    Sim,
    Run,
    Load,
    Help,
}

const NAMES: [(&[u8], Name); 9] = [
    (b"plain", Name::Alone),
    (b"check", Name::Alone),
    (b"asm", Name::Alone),
    (b"sim", Name::Sim),
    (b"run", Name::Run),
    (b"load", Name::Load),
    (b"help", Name::Help),
    (b"--help", Name::Help),
    (b"-h", Name::Help),
];

/// What is said of the first word that is wrong, in one line; `None` where none is, or where there is no word or help is asked for.
pub fn word_hint(alloc: Global, words: &[Text]) -> Result<Option<Text>, NoMemory>
    ensures { IfOk result (λ hint. hint ≡ word_hint_of words.now) }
{
    match fault_of(words) {
        Some(fault) => Ok(Some(fault_text(alloc, words, fault)?)),
        None => Ok(None),
    }
}

/// The first word that is wrong.
pub fn fault_of(words: &[Text]) -> Option<WordFault>
    ensures { result ≡ fault_of_words words.now }
{
    match words.split_first() {
        Some((first, rest)) => fault_by(first.as_slice(), rest),
        None => None,
    }
}

fn fault_by(first: &[u8], words: &[Text]) -> Option<WordFault>
    ensures { result ≡ fault_by_name first.now words.now }
{
    match lookup(&NAMES, first) {
        Some(Name::Alone) => nothing_behind(words),
        Some(Name::Sim) => fault_in(Form::Sim, words),
        Some(Name::Run) => fault_in(Form::Run, words),
        Some(Name::Load) => fault_in(Form::Load, words),
        Some(Name::Help) => None,
        None => Some(WordFault {
            place: 1,
            reason: Reason::NoCommand,
        }),
    }
}

fn nothing_behind(words: &[Text]) -> Option<WordFault>
    ensures { result ≡ nothing_behind_of words.now }
{
    match words.split_first() {
        Some(_) => Some(WordFault {
            place: 2,
            reason: Reason::TakesNone,
        }),
        None => None,
    }
}

// The first of the words behind that of their command that is wrong.
fn fault_in(form: Form, words: &[Text]) -> Option<WordFault>
    ensures { result ≡ fault_from (nothing_of form) 2 words.now }
{
    let mut seen = Seen::nothing(form);
    let mut rest = words;
    let mut place = 2u64;
    'words: while let Some((word, after)) = rest.split_first() {
        match word_after(seen, word.as_slice()) {
            Ok(more) => seen = more,
            Err(reason) => return Some(WordFault { place, reason }),
        }
        place += 1;
        rest = after;
    }
    missing_behind(seen, place)
}

fn word_after(seen: Seen, word: &[u8]) -> Result<Seen, Reason>
    ensures { result ≡ word_after_of seen word.now }
{
    if is_text(word) {
        seen.with(word)
    } else {
        Err(Reason::NoText)
    }
}

fn is_text(word: &[u8]) -> bool
    ensures { result ≡ is_utf8 word.now }
{
    match str::from_utf8(word) {
        Ok(_) => true,
        Err(_) => false,
    }
}

// What is missing behind the last word, which stands before this place.
fn missing_behind(seen: Seen, place: u64) -> Option<WordFault>
    ensures { result ≡ missing_at seen place }
{
    match seen.missing() {
        Some(Reason::LacksSize) => Some(WordFault {
            place: 1,
            reason: Reason::LacksSize,
        }),
        Some(reason) => Some(WordFault {
            place: place.saturating_sub(1),
            reason,
        }),
        None => None,
    }
}
