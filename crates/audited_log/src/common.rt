//! What is kept of all processes of a log together.
ghost use Rattle.std.specs.Prelude.{◌≡◌, ◌<◌, ◌-◌, ◌^◌, [], true, IfOk, OnOk};
ghost use Rattle.sys_text.specs.declared.system.System.{System as ASystem};
ghost use Rattle.sys_text.specs.Valid.{is_system};
ghost use Rattle.bus_msg.specs.PlacedAfter.{what};
ghost use Rattle.channel_table.specs.Changes.{CanBeAbsorbed};
ghost use Rattle.page_accounts.specs.Keeps.{KeepsAccounts};
ghost use Rattle.log_processes.specs.Families.{CanBear};
ghost use Rattle.log_records.specs.Records.{CanTake};
ghost use Rattle.audited_log.specs.Common.{IsCommonOf, KeepsCommon};

use birth_notice::family::Family;
use bus_msg::entry::Entry;
use log_audit::front::Front;
use log_fetches::fetches::Fetches;
use log_processes::families::follow;
use log_processes::sender::Limits;
use log_processes::starting::limits_of;
use log_records::records::LogRecords;
use page_accounts::booting::put_roots;
use page_accounts::noting::note;
use page_server::mem_disk::MemDisk;
use page_server::pager::Pager;
use plain_kernel::booting::starts_of;
use std::alloc::Global;
use sys_text::system::System;
use t32_base::lists::List;
use t32_base::streams::NoMemory;

/// The front of a log, the limits of its system, a page server with a disk that fails at no call, the pages that were asked for, the
/// children that never synchronised, and the records of all processes that have not ended.
#[derive(Drop)]
pub struct Common {
    pub front: Front,
    pub limits: Limits,
    pub pager: Pager<MemDisk>,
    pub fetches: Fetches,
    pub family: Family,
    pub records: LogRecords,
}

impl Common {
    /// Of the log with no entry.
    pub fn start(alloc: Global, system: &System) -> Result<Common, NoMemory>
        requires valid { is_system system.now ≡ true }
        ensures { IfOk result (IsCommonOf system.now []) }
    {
        Ok(Common {
            front: Front::start(alloc, system)?,
            limits: limits_of(system),
            pager: pager_at_boot(alloc, system)?,
            fetches: Fetches::start(alloc, system)?,
            family: Family::none(alloc),
            records: LogRecords::start(alloc, system)?,
        })
    }

    /// Takes in the next entry. After want of memory nothing is said.
    pub fn take(&mut self, entry: &Entry) -> Result<(), NoMemory>
        requires next { CanBeAbsorbed self.old.front.places (what entry.now) }
        requires room { self.old.front.length < 2 ^ 64 - 1 }
        requires births { CanBear self.old.family (what entry.now) }
        requires records { CanTake (what entry.now) self.old.records }
        ensures { OnOk result (KeepsCommon self.old self.new entry.now) }
    {
        self.fetches.take(self.front.places(), entry)?;
        match note(&mut self.pager, self.front.places(), entry) {
            Ok(()) => {}
            Err(_) => return Err(NoMemory),
        }
        follow(&mut self.family, entry)?;
        self.records.take(entry)?;
        self.front.take(entry)?;
        Ok(())
    }
}

// A page server with the pages of the roots at boot.
fn pager_at_boot(alloc: Global, system: &System) -> Result<Pager<MemDisk>, NoMemory>
    requires valid { is_system system.now ≡ true }
    ensures { IfOk result (KeepsAccounts system.now []) }
{
    let mut pager = Pager::new(alloc, MemDisk::new(alloc, List::new(alloc)));
    let starts = starts_of(alloc, system)?;
    match put_roots(&mut pager, &starts) {
        Ok(()) => Ok(pager),
        Err(_) => Err(NoMemory),
    }
}
