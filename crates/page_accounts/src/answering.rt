//! The answer that a page server owes.
ghost use Rattle.std.specs.Prelude.{◌≡◌, IfOk, IfSome};
ghost use Rattle.page_server.specs.Account.{SameAccounts};
ghost use Rattle.page_accounts.specs.Answering.{Answers, CountsAfterAnswer, HoldsNext, IsKept, earliest};

use page_server::disk::{DiskFault, PageDisk};
use page_server::pager::Pager;
use t32_base::process::Pid;

/// A page of 256 bytes that a process asked for, by its page number.
#[derive(Clone, Copy, PartialEq, Eq, Debug)]
pub struct Answer {
    pub pid: Pid,
    pub index: u16,
    pub bytes: [u8; 256],
}

/// The answer to the earliest fetch that waits, by one call of the disk: the page that the committed account of its
/// process has. None where no fetch waits, with no call. The fetch waits on until the entry with its page is
/// noted. No account and no fetch changes, also after a fault. Takes no memory.
pub fn next_answer<D: PageDisk>(pager: &mut Pager<D>) -> Result<Option<Answer>, DiskFault>
    requires { IfSome (earliest pager.old) (IsKept pager.old) }
    ensures answers { Answers pager.old (earliest pager.old) result }
    ensures holds { IfOk result (HoldsNext pager.old) }
    ensures accounts { SameAccounts pager.old pager.new }
    ensures fetches { pager.new.fetches ≡ pager.old.fetches }
    ensures counts { CountsAfterAnswer (earliest pager.old) pager.old.counts pager.new.counts result }
{
    let Some((pid, index)) = pager.waiting() else {
        return Ok(None);
    };
    match pager.committed(pid, index) {
        Ok(bytes) => Ok(Some(Answer { pid, index, bytes })),
        Err(fault) => Err(fault),
    }
}
