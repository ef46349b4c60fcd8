//! The items of a schedule section, or the first of them that cannot be read.
ghost use Rattle.std.specs.Prelude.{◌≡◌, ◌<◌, ◌^◌, List as Items, length, Some, None, Ok, All, MatchOption, IfOk, IfErr};
ghost use Rattle.plain_kernel.specs.declared.item.Item.{Item as AnItem};
ghost use Rattle.cert_sched.specs.Lines.{kept_lines};
ghost use Rattle.cert_sched.specs.Reading.{HasItems, HasCause, Answers, header_of, next_item, reading_of, reading_after};
ghost use Rattle.cert_sched.specs.Printing.{items_text_of, IsCarried};

use crate::item_line::{read_count, read_item};
use crate::lines::next_line;
use crate::refusal::ItemsRefused;
use plain_kernel::item::Item;
use std::alloc::Global;
use t32_base::lists::List;

/// The number of items that the first line tells, and the text after it.
fn read_header(text: &[u8]) -> Option<(u32, &[u8])>
    ensures { MatchOption result (header_of (kept_lines text.now) ≡ None) (λ x. header_of (kept_lines text.now) ≡ Some (x.0, kept_lines x.1.now)) }
{
    let (line, rest) = next_line(text)?;
    let count = read_count(line)?;
    Some((count, rest))
}

/// The item of the next line, and the text after it.
fn read_next(text: &[u8]) -> Option<(Item, &[u8])>
    ensures { MatchOption result (next_item (kept_lines text.now) ≡ None) (λ x. next_item (kept_lines text.now) ≡ Some (x.0, kept_lines x.1.now)) }
{
    let (line, rest) = next_line(text)?;
    let item = read_item(line)?;
    Some((item, rest))
}

/// So many items, and no line behind them.
fn read_lines(alloc: Global, count: u32, text: &[u8]) -> Result<List<Item>, ItemsRefused>
    ensures { Answers result (reading_after (Some (count, kept_lines text.now))) }
{
    let mut items = List::new(alloc);
    let mut rest = text;
    for index in 0..count {
        let Some((item, after)) = read_next(rest) else {
            return Err(ItemsRefused::BadItem {
                index: u64::from(index),
            });
        };
        items.push(item)?;
        rest = after;
    }
    match next_line(rest) {
        None => Ok(items),
        Some(_) => Err(ItemsRefused::BadItem {
            index: u64::from(count),
        }),
    }
}

/// The items that the first line and the lines after it tell.
fn read_section(alloc: Global, text: &[u8]) -> Result<List<Item>, ItemsRefused>
    ensures { Answers result (reading_of text.now) }
{
    match read_header(text) {
        None => Err(ItemsRefused::BadItem { index: 0 }),
        Some((count, rest)) => read_lines(alloc, count, rest),
    }
}

/// The items of a schedule section, or the index of the first item that cannot be read.
pub fn read_items(alloc: Global, text: &[u8]) -> Result<List<Item>, ItemsRefused>
    // The first line tells their number, and each line after it is one of them.
    ensures items { IfOk result (HasItems text.now) }
    // The item is the first that cannot be read.
    ensures refused { IfErr result (HasCause text.now) }
    // Which of the two it is.
    ensures exact { Answers result (reading_of text.now) }
{
    read_section(alloc, text)
}

/// A law and no code: items are read again as they are printed.
pub fn items_read_back()
    ensures { (items : Items AnItem) → All IsCarried items → length items < 2 ^ 32 → reading_of (items_text_of items) ≡ Ok items }
{}
