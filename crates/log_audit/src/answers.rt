//! Lines of pages that come from a page server.
ghost use Rattle.std.specs.Prelude.{◌≡◌, IfOk, slice_get};
ghost use Rattle.std.specs.Option.{IfSome};
ghost use Rattle.bus_msg.specs.Places.{servers_in};
ghost use Rattle.page_server.specs.Account.{SameAccounts};
ghost use Rattle.page_accounts.specs.Answering.{IsKept, earliest};
ghost use Rattle.log_audit.specs.Answers.{AnswersPage, is_sender, page_entry, page_may};

use crate::front::Front;
use bus_msg::entry::{By, Entry, Post, What};
use bus_msg::shared::Shared;
use entry_lines::ToldBy;
use page_accounts::answering::{Answer, next_answer};
use page_server::disk::{DiskRefused, PageDisk};
use page_server::pager::Pager;
use std::alloc::Global;
use t32_base::process::ClusterNo;

/// The entry of a line that tells of page `index` of the process `pid` from a page server, where the front and the page
/// server are those of the log before it. None where no such entry may follow. It takes one call of the disk at most.
pub fn next_page<D: PageDisk>(
    alloc: Global,
    front: &Front,
    pager: &mut Pager<D>,
    place: u64,
    by: ToldBy,
    pid: u64,
    index: u64,
) -> Result<Option<Entry>, DiskRefused>
    requires { IfSome (earliest pager.old) (IsKept pager.old) }
    ensures decides { IfOk result (AnswersPage front.now pager.old place by pid index) }
    ensures accounts { SameAccounts pager.old pager.new }
    ensures fetches { pager.new.fetches ≡ pager.old.fetches }
{
    if !page_may(front, pager, place, by, pid, index) {
        return Ok(None);
    }
    let Some(server) = front.first_server() else {
        return Ok(None);
    };
    match next_answer(pager) {
        Ok(Some(answer)) => {
            let entry = told(alloc, front, place, server, answer)?;
            Ok(Some(entry))
        }
        Ok(None) => Ok(None),
        Err(fault) => Err(DiskRefused::Fault(fault)),
    }
}

// Whether the first page server may send this page next.
fn page_may<D: PageDisk>(
    front: &Front,
    pager: &Pager<D>,
    place: u64,
    by: ToldBy,
    pid: u64,
    index: u64,
) -> bool
    ensures { result ≡ page_may front.now place by pid index (slice_get (servers_in front.now.places) 0) (earliest pager.now) }
{
    let Some(server) = front.first_server() else {
        return false;
    };
    let Some((asker, page)) = pager.waiting() else {
        return false;
    };
    front.is_next(place)
        && is_sender(by, server)
        && pid == u64::from(asker.0)
        && index == u64::from(page)
}

// Whether a line says that this cluster sent it.
fn is_sender(by: ToldBy, server: ClusterNo) -> bool
    ensures { result ≡ is_sender by server }
{
    match by {
        ToldBy::Cluster(k) => k == u64::from(server.0),
        ToldBy::Bus => false,
    }
}

// The entry by which a page server answers.
fn told(
    alloc: Global,
    front: &Front,
    place: u64,
    server: ClusterNo,
    answer: Answer,
) -> Result<Entry, DiskRefused>
    ensures { IfOk result (λ entry. entry ≡ page_entry front.now place server answer) }
{
    let Ok(bytes) = Shared::new(alloc, answer.bytes) else {
        return Err(DiskRefused::NoMemory);
    };
    let what = What::PageIs {
        pid: answer.pid,
        index: answer.index,
        bytes,
    };
    let by = By::Cluster(server);
    Ok(front.entry_at(place, Post { by, what }))
}
