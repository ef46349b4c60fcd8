//! A look-up in a table of names.
ghost use Rattle.std.specs.Prelude.{◌≡◌};
ghost use Rattle.std.specs.Str.{bytes_eq};
ghost use Rattle.text_parts.specs.Table.{lookup, rows_of};

/// Are the names the same? Most differ in their length or their first bytes: the `==` of slices is made for long ones.
#[inline(always)]
fn are_same(first: &[u8], second: &[u8]) -> bool
    ensures { result ≡ bytes_eq first.now second.now }
{
    if first.len() != second.len() {
        return false;
    }
    for (i, byte) in first.iter().enumerate() {
        if *byte != second[i] {
            return false;
        }
    }
    true
}

/// The value of the first row with this name.
pub fn lookup<T: Copy>(table: &[(&[u8], T)], name: &[u8]) -> Option<T>
    ensures { result ≡ lookup (rows_of table.now) name.now }
{
    for row in table {
        if are_same(row.0, name) {
            return Some(row.1);
        }
    }
    None
}
