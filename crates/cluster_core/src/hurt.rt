//! Why a cluster did not do its work.
use page_server::disk::DiskFault;
use t32_base::streams::NoMemory;
use thiserror::Error;

/// Why a cluster did not do its work: a call of its page disk failed, or memory was refused.
#[derive(Clone, Copy, PartialEq, Eq, Debug, Error)]
pub enum Hurt {
    #[error("{0}")]
    Disk(DiskFault),
    #[error("memory was refused")]
    NoMemory,
}

impl From<NoMemory> for Hurt {
    ghost use Rattle.std.specs.Prelude.{◌≡◌};
    ghost use Rattle.cluster_core.specs.declared.hurt.Hurt.TheVariants.{NoMemory as WantOfMemory};

    ghost from_gives = { λ _ e. e ≡ WantOfMemory };

    fn from(_: NoMemory) -> Hurt {
        Hurt::NoMemory
    }
}
