//! What the line of an entry says, read from the line.
ghost use Rattle.std.specs.Prelude.{◌≡◌, Some, IfOk, IfSome};
ghost use Rattle.bus_msg.specs.declared.entry.Entry.{Entry};
ghost use Rattle.bus_msg.specs.Text.{line_of};
ghost use Rattle.entry_lines.specs.declared.told.Told.{Told as ATold};
ghost use Rattle.entry_lines.specs.Told.{told_of, Fits};
ghost use Rattle.entry_lines.specs.Text.{text_of};
ghost use Rattle.entry_lines.specs.Reading.{told_in};

use crate::guess::guess;
use crate::text::told_text;
use crate::told::Told;
use std::alloc::Global;
use t32_base::streams::NoMemory;

/// What a line says, if it is the line of an entry. Its end is no part of it.
pub fn read_told(alloc: Global, line: &[u8]) -> Result<Option<Told>, NoMemory>
    // The line says this and nothing else.
    ensures said { IfOk result (λ told. IfSome told (λ t. line.now ≡ text_of t)) }
    // Each line that says something in numbers of 64 bits is read.
    ensures read { (t : ATold) → Fits t → line.now ≡ text_of t → IfOk result (λ told. told ≡ Some t) }
    // The same as one definition.
    ensures exact { IfOk result (λ told. told ≡ told_in line.now) }
{
    let told = guess(alloc, line)?;
    let text = told_text(alloc, &told)?;
    if text.as_slice() == line {
        Ok(Some(told))
    } else {
        Ok(None)
    }
}

/// A law and no code: the line of an entry in a printed log says the printed part of the entry.
pub fn lines_are_told()
    ensures { (e : Entry) → line_of e ≡ text_of (told_of e) }
{}

/// A law and no code: two lines that say different things differ.
pub fn texts_differ()
    ensures { (t u : ATold) → Fits t → Fits u → text_of t ≡ text_of u → t ≡ u }
{}
