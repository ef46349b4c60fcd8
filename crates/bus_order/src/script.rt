//! Words of a script: the first of several that is for something, and what one does.
ghost use Rattle.std.specs.Prelude.{◌≡◌, None, find, length, position, IfNone, IfSome};
ghost use Rattle.std.specs.Option.{option_map};
ghost use Rattle.bus_msg.specs.Places.{is_lost_in};
ghost use Rattle.cert_sched.specs.Looked.{given_by, is_reached};
ghost use Rattle.cert_sched.specs.Losses.{is_disk_word, is_step_word};
ghost use Rattle.bus_order.specs.Script.{IsFirst, has_unused, is_word_for, told_by};

use bus_msg::entry::Cause;
use cert_sched::script::ScriptWord;
use channel_table::placement::Placement;
use t32_base::process::ClusterNo;

/// The first word whose place a log of this length has reached, with its number among the words. Takes no memory.
pub fn first_reached(words: &[ScriptWord], length: u64) -> Option<(usize, ScriptWord)>
    ensures none { IfNone result (find (is_reached length) words.now ≡ None) }
    ensures some { IfSome result (λ f. IsFirst (is_reached length) words.now f.0 f.1) }
{
    let number = reached(words, length)?;
    Some((number, words[number]))
}

/// The number of the first word for this loss of this cluster. Takes no memory.
pub fn first_for(words: &[ScriptWord], k: ClusterNo, cause: Cause) -> Option<(usize, ScriptWord)>
    ensures none { IfNone result (find (is_word_for k cause) words.now ≡ None) }
    ensures some { IfSome result (λ f. IsFirst (is_word_for k cause) words.now f.0 f.1) }
{
    let number = meant(words, k, cause)?;
    Some((number, words[number]))
}

/// Whether a word for this loss of this cluster is left. Takes no memory.
pub fn has_unused(words: &[ScriptWord], k: ClusterNo, cause: Cause) -> bool
    ensures { result ≡ has_unused words.now k cause }
{
    words.iter().any(|word| is_word_for(*word, k, cause))
}

/// What a word does to a cluster when it is looked at.
#[derive(Clone, Copy)]
pub enum Turn {
    Lost(ClusterNo),
    Back(ClusterNo),
}

/// What this word does when it is looked at: None where it has no effect. Takes no memory.
pub fn turn_by(places: &Placement, word: ScriptWord) -> Option<Turn>
    ensures { given_by places.now word ≡ option_map told_by result }
{
    match word {
        ScriptWord::CrashAt { k, .. } => {
            if places.living(k) {
                Some(Turn::Lost(k))
            } else {
                None
            }
        }
        ScriptWord::ReturnAt { k, .. } => {
            if is_lost(places, k) {
                Some(Turn::Back(k))
            } else {
                None
            }
        }
        ScriptWord::CrashStep { .. } | ScriptWord::DiskAt { .. } => None,
    }
}

// Whether a cluster of the system does not live.
fn is_lost(places: &Placement, k: ClusterNo) -> bool
    ensures { result ≡ is_lost_in places.now k }
{
    k.0 < places.clusters() && !places.living(k)
}

// Where the first word stands whose place was reached.
fn reached(words: &[ScriptWord], length: u64) -> Option<usize>
    ensures { result ≡ position (is_reached length) words.now }
{
    words.iter().position(|word| is_reached(*word, length))
}

// Where the first word for this loss stands.
fn meant(words: &[ScriptWord], k: ClusterNo, cause: Cause) -> Option<usize>
    ensures { result ≡ position (is_word_for k cause) words.now }
{
    words.iter().position(|word| is_word_for(*word, k, cause))
}

fn is_reached(word: ScriptWord, length: u64) -> bool
    ensures { result ≡ is_reached length word }
{
    match word {
        ScriptWord::CrashAt { place, .. } | ScriptWord::ReturnAt { place, .. } => place <= length,
        ScriptWord::CrashStep { .. } | ScriptWord::DiskAt { .. } => false,
    }
}

fn is_word_for(word: ScriptWord, k: ClusterNo, cause: Cause) -> bool
    ensures { result ≡ is_word_for k cause word }
{
    match cause {
        Cause::Step(number) => is_step_word(word, k, number),
        Cause::Disk(number) => is_disk_word(word, k, number),
        Cause::Place => false,
    }
}

fn is_step_word(word: ScriptWord, k: ClusterNo, number: u64) -> bool
    ensures { result ≡ is_step_word k number word }
{
    match word {
        ScriptWord::CrashStep { k: other, step } => other == k && step == number,
        _ => false,
    }
}

fn is_disk_word(word: ScriptWord, k: ClusterNo, number: u64) -> bool
    ensures { result ≡ is_disk_word k number word }
{
    match word {
        ScriptWord::DiskAt { k: other, call } => other == k && call == number,
        _ => false,
    }
}
