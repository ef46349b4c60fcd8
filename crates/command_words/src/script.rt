//! The words of a script, by their texts.
ghost use Rattle.std.specs.Prelude.{◌≡◌, ◌++◌, IfOk, drop, option_and_then, option_map};
ghost use Rattle.clap.specs.Walk.{texts as texts_of};
ghost use Rattle.command_words.specs.Script.{are_allowed, behind as behind_of, checked as checked_of, cluster_and_place as cluster_and_place_of, cluster_of as cluster_of_text, is_allowed as is_allowed_in, is_script as is_script_of, number_below as number_below_of, place_of as place_of_text, script_of as script_of_texts, script_word as script_word_of, script_words as script_words_of};

use cert_sched::script::{Script, ScriptWord};
use std::alloc::Global;
use t32_base::lists::List;
use t32_base::process::ClusterNo;
use t32_base::streams::NoMemory;
use text_parts::{cut_at, number};

/// A number of a cluster above this is held as this: no system has either.
const NO_CLUSTER: u64 = 255;

const PLACES: u64 = 0x1_0000_0000;

/// The most words of a script.
const MOST_WORDS: usize = 32;

/// A number below the limit, of 1 to 10 decimal digits.
pub fn number_below(limit: u64, text: &[u8]) -> Option<u64>
    ensures { result ≡ number_below_of limit text.now }
{
    let n = number(text)?;
    if n < limit { Some(n) } else { None }
}

fn cluster_of(text: &[u8]) -> Option<ClusterNo>
    ensures { result ≡ cluster_of_text text.now }
{
    let n = number(text)?.min(NO_CLUSTER);
    Some(ClusterNo(n as u8))
}

fn place_of(text: &[u8]) -> Option<u64>
    ensures { result ≡ place_of_text text.now }
{
    number_below(PLACES, text)
}

// The cluster and the place of a word that is the front, the cluster, `@`, the unit and the place.
fn cluster_and_place(front: &[u8], unit: &[u8], text: &[u8]) -> Option<(ClusterNo, u64)>
    ensures { result ≡ cluster_and_place_of front.now unit.now text.now }
{
    let (cluster, at) = cut_at(behind(front, text)?, b'@');
    let k = cluster_of(cluster)?;
    let place = place_behind(unit, without_first(at))?;
    Some((k, place))
}

fn place_behind(unit: &[u8], text: &[u8]) -> Option<u64>
    ensures { result ≡ option_and_then place_of_text (behind_of unit.now text.now) }
{
    place_of(behind(unit, text)?)
}

fn behind<'a>(front: &[u8], text: &'a [u8]) -> Option<&'a [u8]>
    ensures { option_map (λ s. s.now) result ≡ behind_of front.now text.now }
{
    text.strip_prefix(front)
}

fn without_first(text: &[u8]) -> &[u8]
    ensures { result.now ≡ drop 1 text.now }
{
    match text {
        [] => text,
        [_, rest @ ..] => rest,
    }
}

/// The script word that a text is.
pub fn script_word(text: &[u8]) -> Option<ScriptWord>
    ensures { result ≡ script_word_of text.now }
{
    if let Some((k, place)) = cluster_and_place(b"crash:", b"bus:", text) {
        return Some(ScriptWord::CrashAt { k, place });
    }
    if let Some((k, step)) = cluster_and_place(b"crash:", b"step:", text) {
        return Some(ScriptWord::CrashStep { k, step });
    }
    if let Some((k, call)) = cluster_and_place(b"disk:", b"", text) {
        return Some(ScriptWord::DiskAt { k, call });
    }
    let (k, place) = cluster_and_place(b"return:", b"bus:", text)?;
    Some(ScriptWord::ReturnAt { k, place })
}

fn is_script(words: &[ScriptWord]) -> bool
    ensures { result ≡ is_script_of words.now }
{
    words.len() <= MOST_WORDS
}

fn script_words(alloc: Global, texts: &[&str]) -> Result<Option<Script>, NoMemory>
    ensures { IfOk result (λ r. r ≡ script_words_of (texts_of texts.now)) }
{
    let mut words = List::new(alloc);
    for text in texts {
        let Some(word) = script_word(text.as_bytes()) else {
            return Ok(None);
        };
        words.push(word)?;
    }
    Ok(Some(words))
}

// The words, and behind them more.
fn joined(words: Script, more: &Script) -> Result<Script, NoMemory>
    ensures { IfOk result (λ script. script ≡ words ++ more.now) }
{
    let mut items = words.into_vec();
    items.extend_from_slice(more.as_slice())?;
    Ok(List::from_vec(items))
}

/// The script that the texts are: each is a script word, and they are 32 at most.
pub fn script_of(alloc: Global, texts: &[&str], more: &[&str]) -> Result<Option<Script>, NoMemory>
    ensures { IfOk result (λ r. r ≡ script_of_texts (texts_of texts.now ++ texts_of more.now)) }
{
    let Some(front) = script_words(alloc, texts)? else {
        return Ok(None);
    };
    let Some(back) = script_words(alloc, more)? else {
        return Ok(None);
    };
    Ok(checked(joined(front, &back)?))
}

fn checked(words: Script) -> Option<Script>
    ensures { result ≡ checked_of words }
{
    if is_script(words.as_slice()) {
        Some(words)
    } else {
        None
    }
}

fn is_allowed(word: &ScriptWord, clusters: u8, pager: (ClusterNo, ClusterNo)) -> bool
    ensures { result ≡ is_allowed_in clusters pager word.now }
{
    match word {
        ScriptWord::CrashAt { k, .. }
        | ScriptWord::CrashStep { k, .. }
        | ScriptWord::ReturnAt { k, .. } => k.0 < clusters,
        ScriptWord::DiskAt { k, .. } => k.0 == pager.0.0 || k.0 == pager.1.0,
    }
}

/// Does a system with so many clusters, of which two are page servers, have the cluster of each word? Of a
/// word for a page disk it has to be one of the two.
pub fn allowed(script: &Script, clusters: u8, pager: (ClusterNo, ClusterNo)) -> bool
    ensures { result ≡ are_allowed clusters pager script.now }
{
    script
        .as_slice()
        .iter()
        .all(|word| is_allowed(word, clusters, pager))
}
