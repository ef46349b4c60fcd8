//! What an entry changes in a cluster, by its kind.
ghost use Rattle.std.specs.Prelude.{◌≡◌, ◌⊎◌, ◌<◌, [], OnErr, OnOk};
ghost use Rattle.bus_msg.specs.PlacedAfter.{what};
ghost use Rattle.backup_records.specs.Records.{CanNote, records_after};
ghost use Rattle.cluster_core.specs.Absorbing.{CanBeBorn, CanCome, ComesHere, IsNotedHere, goes_to};
ghost use Rattle.cluster_core.specs.Calls.{here_after};
ghost use Rattle.residents.specs.Residents.{HasRoom};

use backup_records::records::Records;
use bus_msg::entry::{Dests, Entry, What};
use residents::residents::Residents;
use std::alloc::Global;
use t32_base::process::ClusterNo;
use t32_base::streams::NoMemory;

/// Tells the parts of the cluster with a number what an entry changes in them; the placement is still the one
/// before the entry. A letter goes to some clusters only, and a process here gets one only where this is one
/// of them. A page comes to its process. A parent that runs here forks. After want of memory either all are here as
/// they were, or none is.
pub fn tell(
    alloc: Global,
    number: ClusterNo,
    here: &mut Residents,
    entry: &Entry,
) -> Result<(), NoMemory>
    requires number { number.0 < 16 }
    requires room { HasRoom here.old.here }
    requires comes { ComesHere number entry.now here.old.here }
    requires page { CanCome (what entry.now) here.old.here }
    requires birth { CanBeBorn (what entry.now) here.old.here }
    ensures ok { OnOk result (here.new.here ≡ here_after (what entry.now) here.old.here) }
    ensures err { OnErr result ((here.new.here ≡ here.old.here) ⊎ (here.new.here ≡ [])) }
    ensures duty { here.new.duty ≡ here.old.duty }
{
    match &entry.post.what {
        What::Mail { letter, .. } => {
            if goes_to(&entry.dests, number) {
                here.deliver(letter)
            } else {
                Ok(())
            }
        }
        What::Exit { pid, .. } => {
            here.let_go(*pid);
            Ok(())
        }
        What::Birth { parent, child, .. } => here.bear(alloc, *parent, *child),
        What::Page { .. } => Ok(()),
        What::Sync { .. } => Ok(()),
        What::Fetch { .. } => Ok(()),
        What::PageIs { pid, index, bytes } => here.come(alloc, *pid, *index, bytes.get()),
        What::Crash { .. } => Ok(()),
        What::Return { .. } => Ok(()),
        What::Rebackup { .. } => Ok(()),
        What::Done { .. } => Ok(()),
        What::Stop => Ok(()),
    }
}

/// Notes an entry in the records that the cluster with a number keeps of other clusters' processes. An entry
/// that changes one of them goes to this cluster, so any other is not looked at. After want of memory no record
/// has changed.
pub fn note(number: ClusterNo, records: &mut Records, entry: &Entry) -> Result<(), NoMemory>
    requires number { number.0 < 16 }
    requires can { CanNote (what entry.now) records.old }
    requires here { IsNotedHere number entry.now records.old }
    ensures ok { OnOk result (records.new ≡ records_after number (what entry.now) records.old) }
    ensures err { OnErr result (records.new ≡ records.old) }
{
    if goes_to(&entry.dests, number) {
        records.note(number, &entry.post.what)
    } else {
        Ok(())
    }
}

/// Whether the cluster with a number is one of those that an entry goes to. Takes no memory.
pub fn goes_to(dests: &Dests, number: ClusterNo) -> bool
    requires { number.0 < 16 }
    ensures { result ≡ goes_to dests.now number }
{
    (dests.clusters >> number.0) & 1 == 1
}
