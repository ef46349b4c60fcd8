//! The pages of the roots, which a page server puts at boot.
ghost use Rattle.std.specs.Prelude.{◌≡◌, [], true, OnOk};
ghost use Rattle.sys_text.specs.declared.system.System.{System};
ghost use Rattle.sys_text.specs.Valid.{is_system};
ghost use Rattle.plain_kernel.specs.Maps.{linked_processes};
ghost use Rattle.plain_kernel.specs.Starts.{starts_in};
ghost use Rattle.cert_sched.specs.Losses.{root_pages};
ghost use Rattle.page_server.specs.Account.{Changes, account, no_pages};
ghost use Rattle.page_accounts.specs.Booting.{CallsMade, CountsAfterPuts, memory_put, pages_of, whole_memory};
ghost use Rattle.page_accounts.specs.Keeps.{KeepsAccounts};

use page_server::disk::{DiskRefused, PageDisk};
use page_server::pager::Pager;
use plain_kernel::start::Start;
use std::collections::BTreeMap;
use t32_base::process::Pid;

/// Puts each page of each root, by one call of the disk, and commits it, by rising pid and page. The roots are
/// those of a system at their start, and the page server has no page and no fetch yet. After it the page server keeps the
/// accounts of the log with no entry. A fault has the number of the calls made before it. After a fault or want of
/// memory some pages may have been put, and the page server is of no use.
pub fn put_roots<D: PageDisk>(
    pager: &mut Pager<D>,
    starts: &BTreeMap<u32, Start>,
) -> Result<(), DiskRefused>
    requires accounts { pager.old.accounts ≡ [] }
    requires fetches { pager.old.fetches ≡ [] }
    ensures keeps { OnOk result ((system : System) → starts_in starts.now.entries ≡ linked_processes system → KeepsAccounts system [] pager.new) }
    ensures calls { OnOk result ((system : System) → is_system system ≡ true → starts_in starts.now.entries ≡ linked_processes system → CallsMade (root_pages system) pager.old.counts pager.new.counts) }
    ensures counts { CountsAfterPuts (pages_of starts.now.entries) pager.old.counts pager.new.counts result }
{
    for (pid, start) in starts {
        put_memory(pager, Pid(*pid), start)?;
    }
    Ok(())
}

// Puts each page of the memory of a root, of which there is none, and commits them.
fn put_memory<D: PageDisk>(pager: &mut Pager<D>, pid: Pid, start: &Start) -> Result<(), DiskRefused>
    requires { account pager.old pid ≡ no_pages }
    ensures accounts { OnOk result (Changes pager.old pager.new pid (λ _. whole_memory start.now.memory)) }
    ensures fetches { pager.new.fetches ≡ pager.old.fetches }
    ensures counts { CountsAfterPuts start.now.small.pages pager.old.counts pager.new.counts result }
{
    put_pages(pager, pid, start)?;
    pager.commit(pid);
    Ok(())
}

// Puts each page of the memory of a root, of which there is none.
fn put_pages<D: PageDisk>(pager: &mut Pager<D>, pid: Pid, start: &Start) -> Result<(), DiskRefused>
    requires { account pager.old pid ≡ no_pages }
    ensures accounts { OnOk result (Changes pager.old pager.new pid (λ _. memory_put start.now.memory)) }
    ensures fetches { pager.new.fetches ≡ pager.old.fetches }
    ensures counts { CountsAfterPuts start.now.small.pages pager.old.counts pager.new.counts result }
{
    for i in 0..start.pages() {
        let page = start.page(i);
        pager.put_page(pid, i, &page)?;
    }
    Ok(())
}
