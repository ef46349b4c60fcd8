//! What is said of a word that is wrong.
ghost use Rattle.std.specs.Prelude.{◌≡◌, ◌-◌, ◌++◌, [], IfOk, OnOk, codes, slice_get, unwrap_or};
ghost use Rattle.std.specs.Fmt.{decimal};
ghost use Rattle.word_faults.specs.Fault.{fault_text as fault_text_of, reason_text};

use crate::fault::WordFault;
use crate::seen::Reason;
use refusal_text::shown::shown;
use std::alloc::Global;
use t32_base::lists::{Bytes, Text};
use t32_base::streams::NoMemory;

/// The line of a word that is wrong, with the word as it stands.
pub fn fault_text(alloc: Global, words: &[Text], fault: WordFault) -> Result<Text, NoMemory>
    ensures { IfOk result (λ text. text ≡ fault_text_of words.now fault) }
{
    let mut text = front(alloc, fault.place)?;
    text.extend(shown(alloc, word_at(words, fault.place))?.as_slice())?;
    text.extend(b": ")?;
    text.extend(reason_said(fault.reason).as_bytes())?;
    Ok(text)
}

fn front(alloc: Global, place: u64) -> Result<Text, NoMemory>
    ensures { IfOk result (λ text. text ≡ (codes "t32: word " ++ decimal place) ++ codes ": ") }
{
    let mut text = Bytes::copy_of(alloc, b"t32: word ")?;
    put_number(alloc, &mut text, place)?;
    text.extend(b": ")?;
    Ok(text)
}

fn put_number(alloc: Global, text: &mut Text, number: u64) -> Result<(), NoMemory>
    ensures { OnOk result (text.new ≡ text.old ++ decimal number) }
{
    let said = format!(in alloc; "{number}")?;
    text.extend(said.as_bytes())
}

// The word with this place; nothing where there is none.
fn word_at(words: &[Text], place: u64) -> &[u8]
    ensures { result.now ≡ unwrap_or (slice_get words.now (place - 1)) [] }
{
    match words.get(place.saturating_sub(1) as usize) {
        Some(word) => word.as_slice(),
        None => &[],
    }
}

fn reason_said(reason: Reason) -> &'static str
    ensures { result.now ≡ reason_text reason }
{
    match reason {
        Reason::NoText => "it is no UTF-8\n",
        Reason::NoCommand => "no command has this name\n",
        Reason::TakesNone => "this command takes no words\n",
        Reason::NoOption => "this command has no such option\n",
        Reason::Twice => "this option stands twice\n",
        Reason::NoPick => "--pick takes a number, 0 to 2147483647\n",
        Reason::LacksSize => {
            "load takes its size, 1 to 1000, before any other word that is no option\n"
        }
        Reason::NoSize => "the size of load is a number, 1 to 1000\n",
        Reason::NoScriptWord => {
            "it is none of crash:K@bus:N, crash:K@step:N, disk:K@N and return:K@bus:N, where K and N are 1 to 10 digits and N is at most 4294967295\n"
        }
        Reason::TooMany => "a script has 32 words at most\n",
    }
}
