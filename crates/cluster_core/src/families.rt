//! The children that never synchronised, as an entry changes them.
ghost use Rattle.std.specs.Prelude.{◌≡◌, OnErr, OnOk, if◌then◌else◌};
ghost use Rattle.bus_msg.specs.PlacedAfter.{what};
ghost use Rattle.cluster_core.specs.Families.{CanJoin, family_after, without_renewed};

use birth_notice::family::Family;
use bus_msg::entry::{Entry, What};
use t32_base::letter::BackRec;
use t32_base::streams::NoMemory;

/// Tells the family of an entry: a child that is born joins it, and one that synchronised, got a new backup after it
/// has run, or ended leaves it. After want of memory it is as it was.
#[inline(always)]
pub fn join(family: &mut Family, entry: &Entry) -> Result<(), NoMemory>
    requires { CanJoin (what entry.now) family.old }
    ensures ok { OnOk result (family.new ≡ family_after (what entry.now) family.old) }
    ensures err { OnErr result (family.new ≡ family.old) }
{
    match &entry.post.what {
        What::Birth { parent, child, .. } => family.born(*parent, *child),
        What::Exit { pid, .. } => {
            family.gone(*pid);
            Ok(())
        }
        What::Sync { pid, .. } => {
            family.gone(*pid);
            Ok(())
        }
        What::Mail { .. } => Ok(()),
        What::Page { .. } => Ok(()),
        What::Fetch { .. } => Ok(()),
        What::PageIs { .. } => Ok(()),
        What::Crash { .. } => Ok(()),
        What::Return { .. } => Ok(()),
        What::Rebackup { fresh, recs, .. } => {
            leave_if_fresh(family, *fresh, recs.get().as_slice());
            Ok(())
        }
        What::Done { .. } => Ok(()),
        What::Stop => Ok(()),
    }
}

// At a new backup a process that has run leaves the family; one of a family that was moved takes none out.
fn leave_if_fresh(family: &mut Family, fresh: bool, recs: &[BackRec])
    ensures { family.new ≡ (if fresh then without_renewed recs.now family.old else family.old) }
{
    if fresh {
        leave_renewed(family, recs);
    }
}

// The process of the first record leaves the family.
fn leave_renewed(family: &mut Family, recs: &[BackRec])
    ensures { family.new ≡ without_renewed recs.now family.old }
{
    match recs {
        [first, ..] => family.gone(first.pid),
        [] => {}
    }
}
