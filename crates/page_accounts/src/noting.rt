//! What an entry of the log changes in the accounts and the fetches of a page server.
ghost use Rattle.std.specs.Prelude.{◌≡◌, ◌∷◌, [], ◌++◌, ◌&&◌, OnOk, OnErr, IfErr, List};
ghost use Rattle.sys_text.specs.declared.system.System.{System};
ghost use Rattle.bus_msg.specs.declared.entry.Entry.{Entry};
ghost use Rattle.bus_msg.specs.Places.{is_moved_by};
ghost use Rattle.bus_msg.specs.PlacedAfter.{what};
ghost use Rattle.cert_sched.specs.Deeds.{is_first};
ghost use Rattle.cert_sched.specs.Schedule.{placement};
ghost use Rattle.page_server.specs.declared.disk.DiskRefused.TheVariants.{NoMemory};
ghost use Rattle.page_server.specs.Account.{SameAccounts, committed};
ghost use Rattle.page_accounts.specs.Keeps.{KeepsAccounts, SamePages};
ghost use Rattle.page_accounts.specs.Noting.{ChangesOnly, CountsAfterNote, Makes, MayBeRefused, Reverts};

use bus_msg::entry::{Entry, What};
use bus_msg::placed::Placed;
use channel_table::placement::Placement;
use page_server::disk::{DiskRefused, PageDisk};
use page_server::pager::Pager;
use t32_base::letter::BackRec;
use t32_base::process::{ClusterNo, Pid};

/// Takes in an entry of the log; the placement is the one before it. A page is put, by one call of the disk; a cut
/// of a process commits its pages; a fetch waits until its page has come; the pages of a process that ended go; and
/// those of a process that a crash moves go back to its last cut, and its fetches wait no longer. Only a page may be
/// refused by the disk, and only a page and a fetch for want of memory: every account and every fetch is then as it was.
pub fn note<D: PageDisk>(
    pager: &mut Pager<D>,
    before: &Placement,
    entry: &Entry,
) -> Result<(), DiskRefused>
    ensures keeps { OnOk result ((system : System) (log : List Entry) → placement system log ≡ before.now → KeepsAccounts system log pager.old → KeepsAccounts system (log ++ entry.now ∷ []) pager.new) }
    ensures same { OnErr result (SamePages pager.old pager.new) }
    ensures counts { CountsAfterNote (what entry.now) pager.old.counts pager.new.counts result }
    ensures refused { MayBeRefused (what entry.now) result }
{
    take_in(pager, before, &entry.post.what)
}

// Takes in what an entry says.
fn take_in<D: PageDisk>(
    pager: &mut Pager<D>,
    before: &Placement,
    what: &What,
) -> Result<(), DiskRefused>
    ensures makes { OnOk result (Makes before.now what.now pager.old pager.new) }
    ensures same { OnErr result (SamePages pager.old pager.new) }
    ensures counts { CountsAfterNote what.now pager.old.counts pager.new.counts result }
    ensures refused { MayBeRefused what.now result }
{
    match what {
        What::Page {
            pid,
            index,
            bytes,
            ..
        } => pager.put_page(*pid, *index, bytes.get()),
        What::Fetch { pid, index } => ask(pager, *pid, *index),
        What::Sync { pid, .. } => {
            pager.commit(*pid);
            Ok(())
        }
        What::Rebackup { fresh, recs, .. } => {
            commit_first(pager, *fresh, recs.get().as_slice());
            Ok(())
        }
        What::PageIs { pid, index, .. } => {
            pager.answered(*pid, *index);
            Ok(())
        }
        What::Exit { pid, .. } => {
            pager.forget(*pid);
            Ok(())
        }
        What::Crash { k, .. } => {
            revert_moved(pager, before, *k);
            Ok(())
        }
        What::Mail { .. } => Ok(()),
        What::Birth { .. } => Ok(()),
        What::Return { .. } => Ok(()),
        What::Done { .. } => Ok(()),
        What::Stop => Ok(()),
    }
}

// A fetch waits, behind the others.
fn ask<D: PageDisk>(pager: &mut Pager<D>, pid: Pid, index: u16) -> Result<(), DiskRefused>
    ensures ok { OnOk result (pager.new.fetches ≡ pager.old.fetches ++ (pid, index) ∷ []) }
    ensures err { OnErr result (pager.new.fetches ≡ pager.old.fetches) }
    ensures accounts { SameAccounts pager.old pager.new }
    ensures counts { pager.new.counts ≡ pager.old.counts }
    ensures refused { IfErr result (λ refused. refused ≡ NoMemory) }
{
    match pager.ask(pid, index) {
        Ok(()) => Ok(()),
        Err(_) => Err(DiskRefused::NoMemory),
    }
}

// A new backup for a process that has run commits the pages of the first process that it names.
fn commit_first<D: PageDisk>(pager: &mut Pager<D>, fresh: bool, recs: &[BackRec])
    ensures commits { ChangesOnly pager.old pager.new (λ p. fresh && is_first p recs.now) committed }
    ensures counts { pager.new.counts ≡ pager.old.counts }
{
    if fresh {
        if let Some(first) = recs.first() {
            pager.commit(first.pid);
        }
    }
}

// Each process that a crash of `k` moves goes back to its last cut, and its fetches wait no longer.
fn revert_moved<D: PageDisk>(pager: &mut Pager<D>, before: &Placement, k: ClusterNo)
    ensures { Reverts before.now.placed k pager.old pager.new }
{
    for index in 0..before.len() {
        if let Some(placed) = before.at(index) {
            revert_if_moved(pager, &placed, k);
        }
    }
}

// So does one process, if the crash moves it.
fn revert_if_moved<D: PageDisk>(pager: &mut Pager<D>, placed: &Placed, k: ClusterNo)
    ensures { Reverts (placed.now ∷ []) k pager.old pager.new }
{
    if is_moved(placed, k) {
        pager.revert(placed.pid);
    }
}

// Whether a crash of `k` moves a process: it is at home there, has not ended, and has a backup.
fn is_moved(placed: &Placed, k: ClusterNo) -> bool
    ensures { result ≡ is_moved_by k placed.now }
{
    placed.home == k && !placed.ended && placed.backup.is_some()
}
