//! The lines of a schedule section: the first one, and those of the items.
ghost use Rattle.std.specs.Prelude.{◌≡◌};
ghost use Rattle.text_parts.specs.Lines.{fields_of};
ghost use Rattle.cert_sched.specs.ItemLine.{small_number, one_number, two_numbers, item_of, count_of};

use plain_kernel::item::Item;
use t32_base::process::Pid;
use text_parts::{first_field, number};

/// A number below 2^32.
fn small_number(field: &[u8]) -> Option<u32>
    ensures { result ≡ small_number field.now }
{
    let value = number(field)?;
    if value <= 4294967295 {
        Some(value as u32)
    } else {
        None
    }
}

/// The one field of a line, if it is such a number.
fn one_number(line: &[u8]) -> Option<u32>
    ensures { result ≡ one_number (fields_of line.now) }
{
    let (field, rest) = first_field(line)?;
    match first_field(rest) {
        None => small_number(field),
        Some(_) => None,
    }
}

/// The two fields of a line, if they are such numbers.
fn two_numbers(line: &[u8]) -> Option<(u32, u32)>
    ensures { result ≡ two_numbers (fields_of line.now) }
{
    let (first, rest) = first_field(line)?;
    let (second, rest) = first_field(rest)?;
    match first_field(rest) {
        None => {
            let first = small_number(first)?;
            let second = small_number(second)?;
            Some((first, second))
        }
        Some(_) => None,
    }
}

/// The number of items that the first line tells.
pub fn read_count(line: &[u8]) -> Option<u32>
    ensures { result ≡ count_of (fields_of line.now) }
{
    let (word, rest) = first_field(line)?;
    if word == b"schedule".as_slice() {
        one_number(rest)
    } else {
        None
    }
}

/// The item that a line is.
pub fn read_item(line: &[u8]) -> Option<Item>
    ensures { result ≡ item_of (fields_of line.now) }
{
    let (word, rest) = first_field(line)?;
    if word == b"run".as_slice() {
        let (pid, steps) = two_numbers(rest)?;
        if steps == 0 {
            None
        } else {
            Some(Item::Run(Pid(pid), u64::from(steps)))
        }
    } else if word == b"fork".as_slice() {
        let (pid, child) = two_numbers(rest)?;
        Some(Item::Fork(Pid(pid), Pid(child)))
    } else if word == b"take".as_slice() {
        let pid = one_number(rest)?;
        Some(Item::Take(Pid(pid)))
    } else {
        None
    }
}
