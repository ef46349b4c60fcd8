//! Items as a schedule section.
ghost use Rattle.std.specs.Prelude.{◌≡◌, ◌++◌, OnOk, IfOk};
ghost use Rattle.cert_sched.specs.Printing.{spaced, item_line, ended, first_line_of, item_lines, items_text_of};

use itoa::Buffer;
use plain_kernel::item::Item;
use std::alloc::Global;
use t32_base::lists::{Bytes, Text};
use t32_base::streams::NoMemory;

/// Puts a space and a number at the end.
fn push_number(text: &mut Text, number: u64) -> Result<(), NoMemory>
    ensures { OnOk result (text.new ≡ text.old ++ spaced number) }
{
    let mut buffer = Buffer::new();
    text.extend(b" ")?;
    text.extend(buffer.format(number).as_bytes())
}

/// Puts a word and a number at the end.
fn push_word(text: &mut Text, word: &[u8], number: u64) -> Result<(), NoMemory>
    ensures { OnOk result (text.new ≡ text.old ++ (word.now ++ spaced number)) }
{
    text.extend(word)?;
    push_number(text, number)
}

/// Puts the line of an item at the end, without the end of the line.
fn push_item(text: &mut Text, item: Item) -> Result<(), NoMemory>
    ensures { OnOk result (text.new ≡ text.old ++ item_line item) }
{
    match item {
        Item::Run(pid, steps) => {
            push_word(text, b"run", u64::from(pid.0))?;
            push_number(text, steps)
        }
        Item::Fork(pid, child) => {
            push_word(text, b"fork", u64::from(pid.0))?;
            push_number(text, u64::from(child.0))
        }
        Item::Take(pid) => push_word(text, b"take", u64::from(pid.0)),
    }
}

/// Puts the line of an item at the end.
fn push_line(text: &mut Text, item: Item) -> Result<(), NoMemory>
    ensures { OnOk result (text.new ≡ text.old ++ ended (item_line item)) }
{
    push_item(text, item)?;
    text.extend(b"\n")
}

/// Puts the first line at the end.
fn push_first_line(text: &mut Text, count: u64) -> Result<(), NoMemory>
    ensures { OnOk result (text.new ≡ text.old ++ ended (first_line_of count)) }
{
    push_word(text, b"schedule", count)?;
    text.extend(b"\n")
}

/// The items as a schedule section: `schedule N`, and a line for each item.
pub fn items_text(alloc: Global, items: &[Item]) -> Result<Text, NoMemory>
    ensures { IfOk result (λ text. text ≡ items_text_of items.now) }
{
    let mut text = Bytes::new(alloc);
    push_first_line(&mut text, items.len() as u64)?;
    for item in items {
        push_line(&mut text, *item)?;
    }
    Ok(text)
}
