//! The children that never synchronised, of the processes of a log.
ghost use Rattle.std.specs.Prelude.{◌≡◌, true, List, OnOk, OnErr};
ghost use Rattle.sys_text.specs.declared.system.System.{System};
ghost use Rattle.sys_text.specs.Valid.{is_system};
ghost use Rattle.bus_msg.specs.declared.entry.Entry.{Entry as AnEntry};
ghost use Rattle.bus_msg.specs.PlacedAfter.{what};
ghost use Rattle.cert_sched.specs.Legal.{IsLegalBy, MayStand};
ghost use Rattle.log_laws.specs.births.Unsynced.{unsynced_births};
ghost use Rattle.log_processes.specs.Families.{CanBear, KeepsFamily, SaysParent, family_after, without_first};

use birth_notice::family::Family;
use bus_msg::entry::{Entry, What};
use t32_base::letter::BackRec;
use t32_base::process::Pid;
use t32_base::streams::NoMemory;

/// Takes in an entry: a child that is born never synchronised yet, and one that synchronises, gets a new backup of its own or
/// ends is none of these any more. After want of memory nothing has changed.
pub fn follow(family: &mut Family, entry: &Entry) -> Result<(), NoMemory>
    requires { CanBear family.old (what entry.now) }
    ensures exact { OnOk result (family.new ≡ family_after (what entry.now) family.old) }
    ensures keeps { OnOk result (KeepsFamily family.old family.new entry.now) }
    ensures err { OnErr result (family.new ≡ family.old) }
{
    take(family, &entry.post.what)
}

fn take(family: &mut Family, what: &What) -> Result<(), NoMemory>
    requires { CanBear family.old what.now }
    ensures ok { OnOk result (family.new ≡ family_after what.now family.old) }
    ensures err { OnErr result (family.new ≡ family.old) }
{
    match what {
        What::Birth { parent, child, .. } => family.born(*parent, *child),
        What::Exit { pid, .. } | What::Sync { pid, .. } => {
            family.gone(*pid);
            Ok(())
        }
        What::Rebackup {
            fresh: true,
            recs,
            ..
        } => {
            renew(family, recs.get().as_slice());
            Ok(())
        }
        _ => Ok(()),
    }
}

// The process of the first record got a new backup after it has run.
fn renew(family: &mut Family, recs: &[BackRec])
    ensures { family.new ≡ without_first recs.now family.old }
{
    if let Some(rec) = recs.first() {
        family.gone(rec.pid);
    }
}

/// Whether a child of a process never synchronised. Takes no memory.
pub fn is_parent(family: &Family, pid: Pid) -> bool
    ensures { SaysParent family.now pid result }
{
    family.first_unsynced(pid).is_some()
}

/// A law and no code: an entry that may follow a log can be taken in by the children of the log.
pub fn births_can_follow()
    ensures { (system : System) (log : List AnEntry) (e : AnEntry) → is_system system ≡ true → IsLegalBy MayStand system log → MayStand system log e → CanBear (unsynced_births system log) (what e) }
{}
