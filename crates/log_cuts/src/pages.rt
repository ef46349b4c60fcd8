//! Lines of pages that are sent.
ghost use Rattle.std.specs.Prelude.{◌≡◌, ◌*◌, ◌<◌, length, IfOk};
ghost use Rattle.proc_state.specs.State.{state_of};
ghost use Rattle.log_cuts.specs.Ahead.{IsAhead};
ghost use Rattle.log_cuts.specs.Pages.{AnswersPage, page_entry, page_may};

use crate::ahead::Ahead;
use crate::sent_pages::SentPages;
use bus_msg::entry::{By, Entry, Post, What};
use bus_msg::shared::Shared;
use log_audit::front::Front;
use log_processes::sender::{Head, Sender, home_may};
use proc_state::process::Process;
use std::alloc::Global;
use t32_base::process::ClusterNo;
use t32_base::streams::NoMemory;

/// The entry of a line by which page `index` of a process is sent, where the front, what is kept of the process, and which of
/// its pages were sent are those of the log before it. None where no such entry may follow. The process stays where it is: the
/// copy is led to the step count of the line, where the process may send a page.
pub fn next_page(
    alloc: Global,
    front: &Front,
    head: Head,
    index: u64,
    kept: Sender,
    sent: &SentPages,
    process: &Process,
    ahead: &mut Ahead,
) -> Result<Option<Entry>, NoMemory>
    requires { IsAhead (state_of process.now) ahead.old }
    ensures decides { IfOk result (AnswersPage front.now head index kept (state_of process.now) sent.now) }
    ensures ahead { IsAhead (state_of process.now) ahead.new }
{
    let Some(home) = home_may(front, head, kept) else {
        return Ok(None);
    };
    if !page_may(process, head.at, index, sent) {
        return Ok(None);
    }
    ahead.lead(alloc, process, head.at)?;
    let index = page_no(process, index);
    match ahead.page(index) {
        Some(bytes) => {
            let entry = page_entry(alloc, front, head, home, index, bytes)?;
            Ok(Some(entry))
        }
        None => Ok(None),
    }
}

// Whether the process has this page, stands no further than this step count, and has not sent the page as it is there.
fn page_may(process: &Process, at: u64, index: u64, sent: &SentPages) -> bool
    ensures { result ≡ page_may (state_of process.now) at index sent.now }
{
    index < u64::from(process.ram.pages()) && process.small.steps <= at && !sent.has(index, at)
}

// A page number of the process.
fn page_no(process: &Process, index: u64) -> u16
    requires { 256 * index < length process.now.ram.bytes }
    ensures { result ≡ index }
{
    let _pages = process.ram.pages();
    index as u16
}

// The entry by which its home sends the page.
fn page_entry(
    alloc: Global,
    front: &Front,
    head: Head,
    home: ClusterNo,
    index: u16,
    bytes: [u8; 256],
) -> Result<Entry, NoMemory>
    ensures { IfOk result (λ entry. entry ≡ page_entry front.now head home index bytes) }
{
    let what = What::Page {
        pid: head.pid,
        at: head.at,
        index,
        bytes: Shared::new(alloc, bytes)?,
    };
    let by = By::Cluster(home);
    Ok(front.entry_at(head.place, Post { by, what }))
}
