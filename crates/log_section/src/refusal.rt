//! Why a section was not read.
ghost use Rattle.std.specs.Prelude.{◌≡◌};
ghost use Rattle.log_section.specs.declared.refusal.SectionRefused.TheVariants.{NoMemory as WantOfMemory};

use std::alloc::AllocError;
use t32_base::streams::NoMemory;
use thiserror::Error;

/// Why the log of a section was not read.
#[derive(Clone, Copy, PartialEq, Eq, Debug, Error)]
pub enum SectionRefused {
    #[error("the section is not of the form of a report with its log")]
    Form,
    #[error("memory was refused")]
    NoMemory,
}

impl From<NoMemory> for SectionRefused {
    ghost from_gives = { λ _ e. e ≡ WantOfMemory };

    fn from(_: NoMemory) -> SectionRefused {
        SectionRefused::NoMemory
    }
}

impl From<AllocError> for SectionRefused {
    ghost from_gives = { λ _ e. e ≡ WantOfMemory };

    fn from(_: AllocError) -> SectionRefused {
        SectionRefused::NoMemory
    }
}
