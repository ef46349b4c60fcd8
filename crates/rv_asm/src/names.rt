//! Names by their first bytes, which part the tables of names.
ghost use Rattle.std.specs.Prelude.{◌≡◌};
ghost use Rattle.rv_asm.specs.FirstByte.{first_byte as first_byte_of};

/// The first byte of a name, and 0 where there is none.
pub fn first_byte(name: &[u8]) -> u8
    ensures { result ≡ first_byte_of name.now }
{
    match name {
        [] => 0,
        [first, ..] => *first,
    }
}
