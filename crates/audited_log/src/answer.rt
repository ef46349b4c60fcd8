//! An entry that may stand next.
ghost use Rattle.std.specs.Prelude.{◌≡◌};
ghost use Rattle.std.specs.Option.{IfSome};
ghost use Rattle.audited_log.specs.Answers.{IsChildless, entry_of};

use bus_msg::entry::Entry;
use proc_state::process::Process;

/// An entry that may stand next, and the child that it bears as that is born.
#[derive(Drop)]
pub struct Answer {
    pub entry: Entry,
    pub child: Option<Process>,
}

/// Of an entry that bears no child, if there is one.
pub(crate) fn childless(entry: Option<Entry>) -> Option<Answer>
    ensures entry { entry_of result ≡ entry }
    ensures child { IfSome result IsChildless }
{
    match entry {
        Some(entry) => Some(Answer { entry, child: None }),
        None => None,
    }
}
