//! What a cluster knows of the log beside its own processes, as it goes on: one that was lost comes back with that.
ghost use Rattle.std.specs.Prelude.{OnOk};
ghost use Rattle.cluster_core.specs.Known.{CanKnow, KnowsNext};

use crate::families::join;
use birth_notice::family::Family;
use bus_msg::entry::Entry;
use channel_table::placement::Placement;
use t32_base::streams::NoMemory;

/// The placement, and the children that never synchronised, after some entries of a log.
#[derive(Drop)]
pub struct Known {
    pub places: Placement,
    pub family: Family,
}

impl Known {
    /// Takes in the next entry of the log. After want of memory nothing is said of it.
    pub fn take(&mut self, entry: &Entry) -> Result<(), NoMemory>
        requires { CanKnow entry.now self.old.places self.old.family }
        ensures { OnOk result (KnowsNext entry.now self.old.places self.old.family self.new.places self.new.family) }
    {
        join(&mut self.family, entry)?;
        self.places.absorb(entry)?;
        Ok(())
    }
}
