//! What the tests ask: that a value is the one that is wanted. It stands here once, since each comparison in the code of a
//! test costs more proof than a call.
#![tactic(auto)]

ghost use Rattle.std.specs.Prelude.{◌≡◌, ◌↔◌, IsOk, true};

use std::fmt;
use std::fmt::{Debug, Display};
use std::test::Fail;

// Two values that are to be the same and are not.
#[derive(Drop)]
struct Differ<'a, T: Debug> {
    what: &'a str,
    shown: &'a T,
    wanted: &'a T,
}

impl<T: Debug> Display for Differ<'_, T> {
    fn fmt<W: fmt::Write>(&self, f: &mut fmt::Formatter<W>) -> fmt::Result {
        write!(
            f,
            "{}: {:?} is not {:?}",
            self.what, self.shown, self.wanted
        )
    }
}

/// What is shown is what is wanted, or the test fails and says so with these words.
pub fn same<T: PartialEq + Debug>(what: &str, shown: &T, wanted: &T) -> Result<(), Fail>
    ensures { IsOk result ↔ (T.eq shown.now wanted.now ≡ true) }
{
    if *shown == *wanted {
        return Ok(());
    }
    Err(Fail::new(Differ {
        what,
        shown,
        wanted,
    }))
}
