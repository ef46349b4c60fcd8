//! The words of a script that are left.
ghost use Rattle.std.specs.Prelude.{◌≡◌, ◌<◌, None, find, length, remove, IfNone, IfOk, IfSome};
ghost use Rattle.cert_sched.specs.Looked.{is_reached};
ghost use Rattle.bus_order.specs.Left.{has_counted, is_counted_word, is_due, least_place, lesser_place, place_named};
ghost use Rattle.bus_order.specs.Script.{IsFirst, has_unused, is_word_for};

use crate::script::{first_for, first_reached, has_unused};
use bus_msg::entry::Cause;
use cert_sched::script::ScriptWord;
use std::alloc::Global;
use std::marker::Model;
use t32_base::process::ClusterNo;
use t32_base::streams::NoMemory;

/// The words of a script that are left, in their order. It keeps what is asked of them most, since mostly none is due: the least
/// place of those for a place of the log, and whether one for a step or a disk call is left.
#[derive(Drop)]
pub struct WordsLeft {
    words: Vec<ScriptWord>,
    due: Option<u64>,
    counted: bool,
}

impl Model for WordsLeft {
    ghost use Rattle.std.specs.Prelude.{List};
    ghost use Rattle.cert_sched.specs.declared.script.ScriptWord.{ScriptWord};
    ghost use Rattle.bus_order.specs.Left.{IsKnown};

    ghost Value = { List ScriptWord };

    ghost view = { λ left. left.words.items };

    ghost invariant = { λ left. IsKnown left.words.items left.due left.counted };
}

impl WordsLeft {
    /// All words of a script.
    pub fn of(alloc: Global, script: &[ScriptWord]) -> Result<WordsLeft, NoMemory>
        ensures { IfOk result (λ left. left ≡ script.now) }
    {
        let words = script.to_vec(alloc)?;
        Ok(WordsLeft {
            words,
            due: least_place(script),
            counted: has_counted(script),
        })
    }

    /// How many there are. Takes no memory.
    pub fn len(&self) -> usize
        ensures { result ≡ length self.now }
    {
        self.words.len()
    }

    /// Takes out the word with this number. Takes no memory.
    pub fn remove(&mut self, number: usize)
        requires { number < length self.old }
        ensures { self.new ≡ remove self.old number }
    {
        self.words.remove(number);
        self.due = least_place(&self.words);
        self.counted = has_counted(&self.words);
    }

    /// The first word whose place a log of this length has reached, with its number among the words: at once where there is
    /// none. Takes no memory.
    pub fn first_reached(&self, length: u64) -> Option<(usize, ScriptWord)>
        ensures none { IfNone result (find (is_reached length) self.now ≡ None) }
        ensures some { IfSome result (λ f. IsFirst (is_reached length) self.now f.0 f.1) }
    {
        if !is_due(self.due, length) {
            return None;
        }
        first_reached(&self.words, length)
    }

    /// The first word for this loss of this cluster, with its number among the words. Takes no memory.
    pub fn first_for(&self, k: ClusterNo, cause: Cause) -> Option<(usize, ScriptWord)>
        ensures none { IfNone result (find (is_word_for k cause) self.now ≡ None) }
        ensures some { IfSome result (λ f. IsFirst (is_word_for k cause) self.now f.0 f.1) }
    {
        first_for(&self.words, k, cause)
    }

    /// Whether a word for this loss of this cluster is left: at once where none for any step or disk call is. Takes no memory.
    pub fn has_unused(&self, k: ClusterNo, cause: Cause) -> bool
        ensures { result ≡ has_unused self.now k cause }
    {
        self.counted && has_unused(&self.words, k, cause)
    }
}

// The least place that one of the words names.
fn least_place(words: &[ScriptWord]) -> Option<u64>
    ensures { result ≡ least_place words.now }
{
    let mut least = None;
    for word in words {
        least = lesser_place(least, place_named(*word));
    }
    least
}

// The place of the log that a word names.
fn place_named(word: ScriptWord) -> Option<u64>
    ensures { result ≡ place_named word }
{
    match word {
        ScriptWord::CrashAt { place, .. } | ScriptWord::ReturnAt { place, .. } => Some(place),
        ScriptWord::CrashStep { .. } | ScriptWord::DiskAt { .. } => None,
    }
}

// The lesser of two places, as far as there are any.
fn lesser_place(least: Option<u64>, other: Option<u64>) -> Option<u64>
    ensures { result ≡ lesser_place least other }
{
    match (least, other) {
        (Some(place), Some(other)) => Some(place.min(other)),
        (Some(place), None) => Some(place),
        (None, other) => other,
    }
}

// Whether a log of this length has reached the place.
fn is_due(due: Option<u64>, length: u64) -> bool
    ensures { result ≡ is_due length due }
{
    match due {
        Some(place) => place <= length,
        None => false,
    }
}

// Whether a word for a step or a disk call is left.
fn has_counted(words: &[ScriptWord]) -> bool
    ensures { result ≡ has_counted words.now }
{
    words.iter().any(|word| is_counted_word(*word))
}

fn is_counted_word(word: ScriptWord) -> bool
    ensures { result ≡ is_counted_word word }
{
    match word {
        ScriptWord::CrashStep { .. } | ScriptWord::DiskAt { .. } => true,
        ScriptWord::CrashAt { .. } | ScriptWord::ReturnAt { .. } => false,
    }
}
