//! Words as a text.
ghost use Rattle.std.specs.Prelude.{◌≡◌, ◌++◌, ◌<◌, length, IfOk, OnOk};
ghost use Rattle.rv_asm.specs.Printing.{line_of, words_text_of};

use std::alloc::Global;
use t32_base::lists::{Bytes, Text};
use t32_base::streams::NoMemory;
use text_parts::push_words;

/// Puts a line of words at the end.
fn push_line(text: &mut Text, words: &[u32]) -> Result<(), NoMemory>
    ensures { OnOk result (text.new ≡ text.old ++ line_of words.now) }
{
    text.extend(b"words")?;
    push_words(text, words)?;
    text.extend(b"\n")?;
    Ok(())
}

/// Puts a last line of words at the end, if there are any.
fn push_last_line(text: &mut Text, words: &[u32]) -> Result<(), NoMemory>
    requires { length words.now < 8 }
    ensures { OnOk result (text.new ≡ text.old ++ words_text_of words.now) }
{
    match words {
        [] => Ok(()),
        [_, ..] => push_line(text, words),
    }
}

/// The words as lines `words W W ..` of eight words, in lower case.
pub fn words_text(alloc: Global, words: &[u32]) -> Result<Text, NoMemory>
    ensures { IfOk result (λ text. text ≡ words_text_of words.now) }
{
    let mut text = Bytes::new(alloc);
    let mut rest = words;
    while rest.len() >= 8 {
        let (line, after) = rest.split_at(8);
        push_line(&mut text, line)?;
        rest = after;
    }
    push_last_line(&mut text, rest)?;
    Ok(text)
}
