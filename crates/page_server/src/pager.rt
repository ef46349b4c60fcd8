//! The page server: for each process an account that takes pages as they come, and one of its last commit.
ghost use Rattle.std.specs.Prelude.{◌≡◌, [], ◌∷◌, ◌++◌, OnOk, OnErr, IfOk, IsSome, Some, is_some, slice_get};
ghost use Rattle.page_server.specs.Disk.{CountsAfterPut, CountsAfterGet};
ghost use Rattle.page_server.specs.Account.{account, page_in, committed, reverted, no_pages, Changes, SameAccounts, AccountsAfterPut, fetches_without, fetches_but};

use crate::disk::{DiskFault, DiskRefused, PageDisk};
use crate::fetches::Fetches;
use crate::pages::Pages;
use crate::processes::{admit, commit_at, kept_at, leave, now_at, put_if_there, revert_at};
use std::alloc::Global;
use std::collections::BTreeMap;
use std::marker::Model;
use t32_base::process::Pid;
use t32_base::streams::NoMemory;

/// The accounts of each process, whose pages lie on a page disk, and the fetches that wait for an answer.
/// An account is a finite map from page numbers to pages of 256 bytes. A process that was never put a page
/// of, or that was forgotten, has none in either account.
#[derive(Drop)]
pub struct Pager<D: PageDisk> {
    alloc: Global,
    disk: D,
    processes: BTreeMap<u32, Pages>,
    owners: Vec<Option<u32>>,
    fetches: Fetches,
}

impl<D: PageDisk> Model for Pager<D> {
    ghost use Rattle.page_server.specs.Account.{PagerState};

    ghost Value = { PagerState };

    ghost use Rattle.page_server.specs.Places.{accounts_of, Owned, EachThere};

    ghost view = { λ p. record {
      accounts = accounts_of (D.slots p.disk) p.processes.entries;
      fetches = p.fetches;
      counts = D.counts p.disk;
    } };

    ghost invariant = { λ p. Owned p.processes p.owners.items × EachThere (D.slots p.disk) p.processes };
}

impl<D: PageDisk> Pager<D> {
    /// No pages in any account, and no fetch. Takes no memory.
    pub fn new(alloc: Global, disk: D) -> Self
        ensures accounts { result.accounts ≡ [] }
        ensures fetches { result.fetches ≡ [] }
        ensures counts { result.counts ≡ D.counts disk }
    {
        Pager {
            alloc,
            disk,
            processes: BTreeMap::new(alloc),
            owners: Vec::new(alloc),
            fetches: Fetches::none(alloc),
        }
    }

    /// Puts a page into the uncommitted account of a process, by one call of the disk. Room for both
    /// accounts is made here. After a fault or want of memory every account is as it was. There is room for
    /// page numbers below 256, and for 4194304 processes that have pages at one time.
    pub fn put_page(&mut self, pid: Pid, i: u16, page: &[u8; 256]) -> Result<(), DiskRefused>
        ensures accounts { AccountsAfterPut self.old self.new pid i page.now result }
        ensures fetches { self.new.fetches ≡ self.old.fetches }
        ensures counts { CountsAfterPut self.old.counts self.new.counts result }
    {
        match put_if_there(&mut self.processes, &mut self.disk, pid.0, i, page) {
            Some(done) => done,
            None => self.put_first(pid, i, page),
        }
    }

    // Puts a page of a process that may not be there.
    fn put_first(&mut self, pid: Pid, i: u16, page: &[u8; 256]) -> Result<(), DiskRefused>
        ensures accounts { AccountsAfterPut self.old self.new pid i page.now result }
        ensures fetches { self.new.fetches ≡ self.old.fetches }
        ensures counts { CountsAfterPut self.old.counts self.new.counts result }
    {
        if admit(self.alloc, &mut self.processes, &mut self.owners, pid.0).is_err() {
            return Err(DiskRefused::NoMemory);
        }
        match put_if_there(&mut self.processes, &mut self.disk, pid.0, i, page) {
            Some(done) => done,
            None => unreachable!(),
        }
    }

    /// The committed account of a process becomes equal to its uncommitted one. No memory, no disk call; its
    /// time is that of the pages put since the last commit or revert.
    pub fn commit(&mut self, pid: Pid)
        ensures accounts { Changes self.old self.new pid committed }
        ensures fetches { self.new.fetches ≡ self.old.fetches }
        ensures counts { self.new.counts ≡ self.old.counts }
    {
        commit_at(&mut self.processes, pid.0);
    }

    /// The uncommitted account of a process becomes equal to its committed one, and its fetches wait no
    /// longer: a crash has moved it. No memory, no disk call; its time is that of the pages put since the
    /// last commit or revert, and of the fetches.
    pub fn revert(&mut self, pid: Pid)
        ensures accounts { Changes self.old self.new pid reverted }
        ensures fetches { self.new.fetches ≡ fetches_without pid self.old.fetches }
        ensures counts { self.new.counts ≡ self.old.counts }
    {
        revert_at(&mut self.processes, pid.0);
        self.fetches.drop_process(pid);
    }

    /// Both accounts of a process become empty, and its fetches wait no longer: it has ended. No memory, no
    /// disk call.
    pub fn forget(&mut self, pid: Pid)
        ensures accounts { Changes self.old self.new pid (λ _. no_pages) }
        ensures fetches { self.new.fetches ≡ fetches_without pid self.old.fetches }
        ensures counts { self.new.counts ≡ self.old.counts }
    {
        leave(&mut self.processes, &mut self.owners, pid.0);
        self.fetches.drop_process(pid);
    }

    /// A fetch of a page of a process waits, behind the others. After want of memory nothing has changed.
    pub fn ask(&mut self, pid: Pid, i: u16) -> Result<(), NoMemory>
        ensures ok { OnOk result (self.new.fetches ≡ self.old.fetches ++ (pid, i) ∷ []) }
        ensures err { OnErr result (self.new.fetches ≡ self.old.fetches) }
        ensures accounts { SameAccounts self.old self.new }
        ensures counts { self.new.counts ≡ self.old.counts }
    {
        self.fetches.push(pid, i)
    }

    /// The earliest fetch that waits: none exactly where no fetch waits. Takes no memory.
    pub fn waiting(&self) -> Option<(Pid, u16)>
        ensures { result ≡ slice_get self.now.fetches 0 }
    {
        self.fetches.first()
    }

    /// The fetch of a page of a process was answered and waits no longer. Takes no memory.
    pub fn answered(&mut self, pid: Pid, i: u16)
        ensures fetches { self.new.fetches ≡ fetches_but pid i self.old.fetches }
        ensures accounts { SameAccounts self.old self.new }
        ensures counts { self.new.counts ≡ self.old.counts }
    {
        self.fetches.drop_page(pid, i);
    }

    /// Whether the committed account of a process has a page. No memory, no disk call.
    pub fn has_committed(&self, pid: Pid, i: u16) -> bool
        ensures { result ≡ is_some (page_in (account self.now pid).kept i) }
    {
        kept_at(&self.processes, pid.0, i).is_some()
    }

    /// A page of the committed account of a process, which has it, by one call of the disk. No account and
    /// no fetch changes. Takes no memory.
    pub fn committed(&mut self, pid: Pid, i: u16) -> Result<[u8; 256], DiskFault>
        requires { IsSome (page_in (account self.old pid).kept i) }
        ensures page { IfOk result (λ page. page_in (account self.old pid).kept i ≡ Some page) }
        ensures accounts { SameAccounts self.old self.new }
        ensures fetches { self.new.fetches ≡ self.old.fetches }
        ensures counts { CountsAfterGet self.old.counts self.new.counts result }
    {
        match kept_at(&self.processes, pid.0, i) {
            Some(slot) => self.disk.get(slot),
            None => unreachable!(),
        }
    }

    /// Whether the uncommitted account of a process has a page. No memory, no disk call.
    pub fn has_uncommitted(&self, pid: Pid, i: u16) -> bool
        ensures { result ≡ is_some (page_in (account self.now pid).now i) }
    {
        now_at(&self.processes, pid.0, i).is_some()
    }

    /// A page of the uncommitted account of a process, which has it, by one call of the disk. No account and
    /// no fetch changes. Takes no memory.
    pub fn uncommitted(&mut self, pid: Pid, i: u16) -> Result<[u8; 256], DiskFault>
        requires { IsSome (page_in (account self.old pid).now i) }
        ensures page { IfOk result (λ page. page_in (account self.old pid).now i ≡ Some page) }
        ensures accounts { SameAccounts self.old self.new }
        ensures fetches { self.new.fetches ≡ self.old.fetches }
        ensures counts { CountsAfterGet self.old.counts self.new.counts result }
    {
        match now_at(&self.processes, pid.0, i) {
            Some(slot) => self.disk.get(slot),
            None => unreachable!(),
        }
    }

    /// How many calls of the disk were carried out.
    pub fn disk_calls(&self) -> u64
        ensures { result ≡ self.now.counts.calls }
    {
        self.disk.calls()
    }
}
