//! Why a schedule section is refused.
ghost use Rattle.std.specs.Prelude.{◌≡◌};
ghost use Rattle.cert_sched.specs.declared.refusal.ItemsRefused.TheVariants.{NoMemory as WantOfMemory};

use std::alloc::AllocError;
use thiserror::Error;

/// Why no items were read.
#[derive(Clone, Copy, PartialEq, Eq, Debug, Error)]
pub enum ItemsRefused {
    /// The first item, counted from 0, that cannot be read: it is malformed or missing, or a line stands
    /// behind the last item and this is their number. It is 0 where the first line is malformed.
    #[error("item {index} of the schedule cannot be read")]
    BadItem { index: u64 },
    #[error("memory was refused")]
    NoMemory,
}

impl From<AllocError> for ItemsRefused {
    ghost from_gives = { λ _ e. e ≡ WantOfMemory };

    fn from(_: AllocError) -> ItemsRefused {
        ItemsRefused::NoMemory
    }
}
