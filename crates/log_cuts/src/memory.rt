//! Whether the account that a page server keeps of a process is its memory.
ghost use Rattle.std.specs.Prelude.{◌≡◌, ◌+◌, ◌*◌, ◌<◌, ◌≤◌, length, take, IfOk};
ghost use Rattle.std.specs.List.{list_all, range_with_len};
ghost use Rattle.page_server.specs.Account.{SameAccounts, account};
ghost use Rattle.log_cuts.specs.Memory.{is_memory, is_put};

use page_server::disk::{DiskFault, PageDisk};
use page_server::pager::Pager;
use rv_mem::Ram;
use t32_base::process::Pid;

/// Whether the uncommitted account of a process has each page of a memory as it is, by a call of the disk for each page. No
/// account and no fetch changes. Takes no memory.
pub fn is_memory<D: PageDisk>(pager: &mut Pager<D>, pid: Pid, ram: &Ram) -> Result<bool, DiskFault>
    ensures is { IfOk result (λ is. is ≡ is_memory (account pager.old pid).now ram.now.bytes) }
    ensures accounts { SameAccounts pager.old pager.new }
    ensures fetches { pager.new.fetches ≡ pager.old.fetches }
{
    for index in 0..ram.pages() {
        if !is_put(pager, pid, ram, index)? {
            return Ok(false);
        }
    }
    Ok(true)
}

// Whether it has this page so.
fn is_put<D: PageDisk>(
    pager: &mut Pager<D>,
    pid: Pid,
    ram: &Ram,
    index: u16,
) -> Result<bool, DiskFault>
    requires { index < length ram.now.dirty }
    ensures is { IfOk result (λ is. is ≡ is_put (account pager.old pid).now ram.now.bytes index) }
    ensures accounts { SameAccounts pager.old pager.new }
    ensures fetches { pager.new.fetches ≡ pager.old.fetches }
{
    if !pager.has_uncommitted(pid, index) {
        return Ok(false);
    }
    let page = pager.uncommitted(pid, index)?;
    let wanted = ram.page(index);
    Ok(page.as_slice() == wanted.as_slice())
}
