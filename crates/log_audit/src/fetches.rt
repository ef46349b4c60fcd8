//! Lines of pages that are asked for.
ghost use Rattle.std.specs.Prelude.{◌≡◌, ◌<◌};
ghost use Rattle.log_audit.specs.Fetches.{AnswersFetch, ask_may};

use crate::front::Front;
use bus_msg::entry::{By, Entry, Post, What};
use entry_lines::ToldBy;
use t32_base::process::Pid;

/// What is kept of a page of a process: how many pages the process has, whether the last loss that moved it found a state
/// in its record, and whether the page was asked for since.
#[derive(Clone, Copy, PartialEq, Eq, Debug)]
pub struct Asked {
    pub pages: u16,
    pub moved: bool,
    pub asked: bool,
}

/// The entry of a line by which page `index` of a process is asked for, where the front and what is kept of the page are
/// those of the log before it. None where no such entry may follow. Takes no memory.
pub fn next_fetch(
    front: &Front,
    place: u64,
    by: ToldBy,
    pid: Pid,
    index: u64,
    kept: Asked,
) -> Option<Entry>
    ensures { AnswersFetch front.now place by pid index kept result }
{
    let home = match front.home(by, pid) {
        Some(home) => home,
        None => return None,
    };
    if !ask_may(front, place, index, kept) {
        return None;
    }
    let index = page_no(index, kept.pages);
    let what = What::Fetch { pid, index };
    let by = By::Cluster(home);
    Some(front.entry_at(place, Post { by, what }))
}

// Whether the page may be asked for next.
fn ask_may(front: &Front, place: u64, index: u64, kept: Asked) -> bool
    ensures { result ≡ ask_may front.now place index kept }
{
    front.is_next(place) && index < u64::from(kept.pages) && kept.moved && !kept.asked
}

// A page number, of so many pages.
fn page_no(index: u64, pages: u16) -> u16
    requires { index < pages }
    ensures { result ≡ index }
{
    index as u16
}
