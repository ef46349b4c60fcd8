//! Values that are found by their names.
ghost use Rattle.std.specs.Prelude.{◌≡◌, [], ◌∷◌, ◌++◌, OnOk};
ghost use Rattle.text_parts.specs.Table.{lookup, FindSame, end_of as end_of_name, front_of as front_of_name};

use std::alloc::{AllocError, Global};
use std::collections::BTreeMap;
use std::marker::Model;

/// The last eight bytes of a name as a number. Most names differ in it, and numbers are compared fast.
fn end_of(name: &[u8]) -> u64
    ensures { result ≡ end_of_name name.now }
{
    let mut end = 0u64;
    for byte in name {
        end = end % 0x0100_0000_0000_0000 * 256 + u64::from(*byte);
    }
    end
}

/// The first eight bytes of a name as a number, which is compared fast.
pub fn front_of(name: &[u8]) -> u64
    ensures { result ≡ front_of_name name.now }
{
    if name.len() <= 8 {
        end_of(name)
    } else {
        end_of(name.split_at(8).0)
    }
}

/// Values by their names, seen as a table that is only looked up. It takes a map's time.
#[derive(Drop)]
pub struct Names<'a, V> {
    values: BTreeMap<(u64, &'a [u8]), V>,
}

impl<'a, V> Model for Names<'a, V> {
    ghost use Rattle.std.specs.Prelude.{List, ℕ};
    ghost use Rattle.std.specs.Coded.{coded_list, coded×, coded_ℕ};
    ghost use Rattle.text_parts.specs.Table.{rows_in};

    ghost Value = { List (List ℕ × V) };

    ghost coded = { coded_list (coded× (coded_list coded_ℕ) V.code) };

    ghost view = { λ n. rows_in n.values.entries };
}

impl<'a, V: Copy> Names<'a, V> {
    /// No names. Takes no memory.
    pub fn new(alloc: Global) -> Self
        ensures { result ≡ [] }
    {
        Names {
            values: BTreeMap::new(alloc),
        }
    }

    /// The value of a name.
    pub fn value(&self, name: &'a [u8]) -> Option<V>
        ensures { result ≡ lookup self.now name.now }
    {
        self.values.get(&(end_of(name), name)).copied()
    }

    /// Adds a name with its value. A name that is there keeps its first value. After want of memory nothing is said
    /// of the value of this name.
    pub fn define(&mut self, name: &'a [u8], value: V) -> Result<(), AllocError>
        ensures { OnOk result (FindSame self.new (self.old ++ (name.now, value) ∷ [])) }
    {
        let end = end_of(name);
        if let Some(first) = self.values.insert((end, name), value)? {
            self.values.insert((end, name), first)?;
        }
        Ok(())
    }
}
