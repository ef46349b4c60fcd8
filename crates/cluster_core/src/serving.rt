//! What a cluster does as a page server: one call a kind of entry, and the pages of the roots at boot.
ghost use Rattle.std.specs.Prelude.{◌≡◌, IfErr, IfOk, IfSome, None, OnOk, is_some, option_map, true};
ghost use Rattle.sys_text.specs.declared.system.System.{System};
ghost use Rattle.sys_text.specs.Valid.{is_system};
ghost use Rattle.plain_kernel.specs.Maps.{linked_processes};
ghost use Rattle.plain_kernel.specs.Starts.{starts_in};
ghost use Rattle.page_accounts.specs.Booting.{IsAhead};
ghost use Rattle.cluster_core.specs.Serving.{BeginsToServe, CanAnswer, HurtsNoting, HurtsServer, IsAheadThere, IsFailing, Serves, answer_post};
ghost use Rattle.cluster_core.specs.View.{failing_in};
ghost use Rattle.cluster_core.specs.Work.{AnswersNext, is_first_server, owes_answer};

use crate::hurt::Hurt;
use bus_msg::entry::{By, Entry, Post, What};
use bus_msg::shared::Shared;
use channel_table::placement::Placement;
use page_accounts::answering::{Answer, next_answer};
use page_accounts::booting::put_roots;
use page_accounts::noting::note;
use page_server::disk::{DiskRefused, PageDisk};
use page_server::pager::Pager;
use plain_kernel::start::Start;
use std::alloc::Global;
use std::collections::BTreeMap;
use t32_base::process::ClusterNo;
use t32_base::streams::NoMemory;

/// What a cluster keeps as a page server at its start: with a disk the pages of all roots, which are these;
/// without one nothing. Beside it the number of the call of the disk that failed, if one did: what is kept is of no
/// use then.
pub fn serve_roots<D: PageDisk + Drop>(
    alloc: Global,
    disk: Option<D>,
    starts: &BTreeMap<u32, Start>,
) -> Result<(Option<Pager<D>>, Option<u64>), NoMemory>
    ensures begins { IfOk result (λ r. r.1 ≡ None → (system : System) → is_system system ≡ true → starts_in starts.now.entries ≡ linked_processes system → BeginsToServe system r.0) }
    ensures there { IfOk result (λ r. is_some r.0 ≡ is_some disk) }
    ensures told { IfOk result (λ r. failing_in r.0 ≡ option_map (λ d. (D.counts d).failing) disk) }
    ensures ahead { IfOk result (λ r. r.1 ≡ None → IfSome disk (λ d. IsAhead (D.counts d)) → IsAheadThere r.0) }
    ensures fails { IfOk result (λ r. IfSome r.1 (IsFailing r.0)) }
{
    let Some(disk) = disk else {
        return Ok((None, None));
    };
    let mut pager = Pager::new(alloc, disk);
    match put_roots(&mut pager, starts) {
        Ok(()) => Ok((Some(pager), None)),
        Err(DiskRefused::Fault(fault)) => Ok((Some(pager), Some(fault.call))),
        Err(DiskRefused::NoMemory) => Err(NoMemory),
    }
}

/// The answer to the earliest fetch that waits, where the cluster with a number is the first of the page servers that were
/// never lost: the page of the committed account, by one call of the disk. None where no answer is owed, with no call. Where
/// that call fails the error has its number. After an error nothing is said but that the value can be dropped.
pub fn answer_next<D: PageDisk>(
    alloc: Global,
    number: ClusterNo,
    places: &Placement,
    server: &mut Option<Pager<D>>,
) -> Result<Option<Post>, Hurt>
    requires { CanAnswer server.old }
    ensures owed { IfOk result (λ post. is_some post ≡ owes_answer places.now number server.old) }
    ensures none { IfOk result (λ post. post ≡ None → server.new ≡ server.old) }
    ensures answers { IfOk result (λ post. IfSome post (AnswersNext number server.old server.new)) }
    ensures hurts { IfErr result (HurtsServer server.old) }
{
    if !is_first(places, number) {
        return Ok(None);
    }
    let Some(pager) = server else {
        return Ok(None);
    };
    if pager.waiting().is_none() {
        return Ok(None);
    }
    match next_answer(pager) {
        Ok(Some(answer)) => Ok(Some(post_of(alloc, number, answer)?)),
        Ok(None) => unreachable!(),
        Err(fault) => Err(Hurt::Disk(fault)),
    }
}

// Whether the cluster with a number is the first of the page servers that were never lost. Takes no memory.
fn is_first(places: &Placement, number: ClusterNo) -> bool
    ensures { result ≡ is_first_server places.now number }
{
    match places.first_server() {
        Some(first) => first.0 == number.0,
        None => false,
    }
}

// The post of an answer by the cluster with a number.
fn post_of(alloc: Global, number: ClusterNo, answer: Answer) -> Result<Post, NoMemory>
    ensures { IfOk result (λ post. post ≡ answer_post number answer) }
{
    Ok(Post {
        by: By::Cluster(number),
        what: What::PageIs {
            pid: answer.pid,
            index: answer.index,
            bytes: Shared::new(alloc, answer.bytes)?,
        },
    })
}

/// Takes in an entry; the placement is the one before it. A page is one call of the disk, and no other entry is any: where
/// that call fails the error has its number. After an error nothing is said but that the value can be dropped.
#[inline(always)]
pub fn serve<D: PageDisk>(
    server: &mut Option<Pager<D>>,
    before: &Placement,
    entry: &Entry,
) -> Result<(), Hurt>
    ensures ok { OnOk result (Serves before.now entry.now server.old server.new) }
    ensures hurts { IfErr result (HurtsNoting entry.now server.old) }
{
    let Some(pager) = server else {
        return Ok(());
    };
    match note(pager, before, entry) {
        Ok(()) => Ok(()),
        Err(DiskRefused::Fault(fault)) => Err(Hurt::Disk(fault)),
        Err(DiskRefused::NoMemory) => Err(Hurt::NoMemory),
    }
}
