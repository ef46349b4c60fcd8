//! A page disk: slots with a page each, and a count of the calls that failed.
ghost use Rattle.std.specs.Prelude.{◌≡◌, IsSome, Some, IfOk, Bool, List, ℕ};
ghost use Rattle.page_server.specs.Disk.{Slots, Counts, SlotsAfterPut, CountsAfterPut, CountsAfterGet};

use thiserror::Error;

/// A call of a page disk that failed, by its number from 0.
#[derive(Clone, Copy, PartialEq, Eq, Debug, Error)]
#[error("call {call} of the page disk failed")]
pub struct DiskFault {
    pub call: u64,
}

/// Why a page was not put.
#[derive(Clone, Copy, PartialEq, Eq, Debug, Error)]
pub enum DiskRefused {
    #[error("{0}")]
    Fault(DiskFault),
    #[error("memory was refused")]
    NoMemory,
}

/// A disk of pages of 256 bytes, by slot.
pub trait PageDisk {
    /// The pages that it holds.
    ghost slots: { Self → Slots };

    /// Its calls and faults, and which calls fail, where it tells them. No call changes the last.
    ghost counts: { Self → Counts };

    /// How often a call has failed. It stays at the greatest u64 once it is there.
    fn faults(&self) -> u64
        ensures { result ≡ (counts self.now).faults };

    /// How many calls of `put` and `get` were carried out, without those of `put` that want of memory
    /// refused. It stays at the greatest u64 once it is there.
    fn calls(&self) -> u64
        ensures { result ≡ (counts self.now).calls };

    /// Puts a page into a slot. A refused call changes no slot. A fault comes only where the count of
    /// faults rose in this call; where the failing calls are told, exactly at one of them.
    fn put(&mut self, slot: u32, page: &[u8; 256]) -> Result<(), DiskRefused>
        ensures slots { SlotsAfterPut (slots self.old) (slots self.new) slot page.now result }
        ensures counts { CountsAfterPut (counts self.old) (counts self.new) result };

    /// The page of a slot that holds one. Changes no slot, and fails as `put` does.
    fn get(&mut self, slot: u32) -> Result<[u8; 256], DiskFault>
        requires { IsSome (slots self.old slot) }
        ensures slots { slots self.new ≡ slots self.old }
        ensures page { IfOk result (λ page. slots self.old slot ≡ Some page) }
        ensures counts { CountsAfterGet (counts self.old) (counts self.new) result };
}
