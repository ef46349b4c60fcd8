//! A label as it stands among the others.
ghost use Rattle.std.specs.Prelude.{◌≡◌};
ghost use Rattle.text_parts.specs.Table.{front_of as front_of_name};

use crate::labels::Place;
use text_parts::front_of;

/// A label with its place, and the first eight bytes of its name as a number: most names differ in these.
#[derive(Clone, Copy)]
pub struct Row<'a> {
    pub front: u64,
    pub name: &'a [u8],
    pub place: Place,
    pub ghost front_is: { front ≡ front_of_name name.now },
}

impl<'a> Row<'a> {
    pub fn new(name: &'a [u8], place: Place) -> Self
        ensures name { result.name ≡ name.entry }
        ensures place { result.place ≡ place }
    {
        Row {
            front: front_of(name),
            name,
            place,
        }
    }
}
