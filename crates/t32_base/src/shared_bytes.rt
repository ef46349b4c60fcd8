//! Bytes that are copied without taking memory, which contracts see as a list.
ghost use Rattle.std.specs.Prelude.{◌≡◌, ◌≤◌, ◌↔◌, IsTrue, length, take, IfOk};

use crate::streams::NoMemory;
use std::alloc::Global;
use std::marker::Model;
use std::sync::ArcSlice;

/// A list of bytes of which each copy takes no memory: a short one stands in place, and the copies of a longer
/// one share it.
#[derive(Drop)]
pub struct SharedBytes {
    kept: Kept,
}

// At most so many bytes stand in place: the type then takes two words.
const SHORT: usize = 14;

const _: () = prove!(std::mem::size_of::<SharedBytes>() == 16);

#[derive(Drop)]
enum Kept {
    Short { len: u8, bytes: [u8; SHORT] },
    Long(ArcSlice<u8>),
}

impl Model for SharedBytes {
    ghost use Rattle.std.specs.Prelude.{List, ℕ};
    ghost use Rattle.t32_base.specs.Kept.{bytes_kept, IsKept};

    ghost Value = { List ℕ };

    ghost view = { λ b. bytes_kept b.kept };

    ghost invariant = { λ b. IsKept b.kept };
}

impl SharedBytes {
    /// A list of the same bytes. Takes memory only for more than 14.
    pub fn copy_of(alloc: Global, bytes: &[u8]) -> Result<Self, NoMemory>
        ensures { IfOk result (λ copy. copy ≡ bytes.now) }
    {
        if bytes.len() > SHORT {
            return Ok(SharedBytes {
                kept: Kept::Long(ArcSlice::from_slice(alloc, bytes)?),
            });
        }
        Ok(SharedBytes {
            kept: Kept::Short {
                len: bytes.len() as u8,
                bytes: in_place(bytes),
            },
        })
    }

    /// An equal list. Takes no memory.
    pub fn copy(&self) -> Result<Self, NoMemory>
        ensures { IfOk result (λ copy. copy ≡ self.now) }
    {
        match &self.kept {
            Kept::Short { len, bytes } => Ok(SharedBytes {
                kept: Kept::Short {
                    len: *len,
                    bytes: *bytes,
                },
            }),
            Kept::Long(bytes) => Ok(SharedBytes {
                kept: Kept::Long(bytes.clone()?),
            }),
        }
    }

    pub fn len(&self) -> usize
        ensures { result ≡ length self.now }
    {
        self.as_slice().len()
    }

    pub fn is_empty(&self) -> bool
        ensures { IsTrue result ↔ (length self.now ≡ 0) }
    {
        self.len() == 0
    }

    pub fn as_slice(&self) -> &[u8]
        ensures { result.now ≡ self.now }
    {
        match &self.kept {
            Kept::Short { len, bytes } => &bytes[..usize::from(*len)],
            Kept::Long(bytes) => bytes.as_slice(),
        }
    }
}

// A few bytes at the start of a place for them.
fn in_place(bytes: &[u8]) -> [u8; SHORT]
    requires { length bytes.now ≤ 14 }
    ensures { take (length bytes.now) result ≡ bytes.now }
{
    let mut place = [0; SHORT];
    place[..bytes.len()].copy_from_slice(bytes);
    place
}
