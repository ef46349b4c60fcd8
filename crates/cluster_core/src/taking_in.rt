//! What an entry makes of the parts of a cluster.
ghost use Rattle.std.specs.Prelude.{◌≡◌, ◌<◌, OnOk, true, false};
ghost use Rattle.bus_msg.specs.PlacedAfter.{placed_after, what};
ghost use Rattle.backup_records.specs.Records.{CanNote, are_rising, records_after};
ghost use Rattle.channel_table.specs.Changes.{CanBeAbsorbed};
ghost use Rattle.residents.specs.Owing.{duty_in};
ghost use Rattle.residents.specs.Residents.{HasRoom};
ghost use Rattle.cluster_core.specs.Absorbing.{CanBeBorn, CanCome, ComesHere, IsNotedHere, changes_owing, passes_by};
ghost use Rattle.cluster_core.specs.Calls.{here_after};
ghost use Rattle.cluster_core.specs.Families.{CanJoin, family_after};
ghost use Rattle.cluster_core.specs.Owed.{owed_after};
ghost use Rattle.cluster_core.specs.Recovered.{CanWait, left_by, moved_by, with_all_waiting};

use crate::absorb::{goes_to, note, tell};
use crate::families::join;
use crate::owed::Owed;
use crate::taking_over::take_over;
use backup_records::records::Records;
use birth_notice::family::Family;
use bus_msg::entry::{Entry, What};
use channel_table::placement::Placement;
use residents::residents::Residents;
use std::alloc::Global;
use t32_base::process::ClusterNo;
use t32_base::streams::NoMemory;

/// Takes an entry into the parts of the cluster with a number: the records, the family, who waits for a new backup, the processes
/// here, the placement, and who is to get a new backup by that. After want of memory nothing is said of them.
#[inline(always)]
pub fn take_entry(
    alloc: Global,
    number: ClusterNo,
    places: &mut Placement,
    records: &mut Records,
    family: &mut Family,
    owed: &mut Owed,
    here: &mut Residents,
    entry: &Entry,
) -> Result<(), NoMemory>
    requires number { number.0 < 16 }
    requires note { CanNote (what entry.now) records.old }
    requires noted { IsNotedHere number entry.now records.old }
    requires join { CanJoin (what entry.now) family.old }
    requires absorb { CanBeAbsorbed places.old (what entry.now) }
    requires wait { CanWait (moved_by places.old number (what entry.now) (records_after number (what entry.now) records.old)) (here_after (what entry.now) here.old.here) }
    requires room { HasRoom here.old.here }
    requires comes { ComesHere number entry.now here.old.here }
    requires page { CanCome (what entry.now) here.old.here }
    requires birth { CanBeBorn (what entry.now) here.old.here }
    requires duty { here.old.duty ≡ duty_in here.old.duty.limits places.old here.old.here }
    ensures places { OnOk result (places.new ≡ placed_after places.old (what entry.now)) }
    ensures records { OnOk result (records.new ≡ left_by places.old number (what entry.now) (records_after number (what entry.now) records.old)) }
    ensures family { OnOk result (family.new ≡ family_after (what entry.now) family.old) }
    ensures owed { OnOk result (owed.new ≡ owed_after number places.old (what entry.now) owed.old) }
    ensures here { OnOk result (here.new.here ≡ with_all_waiting (moved_by places.old number (what entry.now) (records_after number (what entry.now) records.old)) (here_after (what entry.now) here.old.here)) }
    ensures rising { OnOk result (are_rising (moved_by places.old number (what entry.now) (records_after number (what entry.now) records.old)) ≡ true) }
    ensures duty { OnOk result (here.new.duty ≡ duty_in here.old.duty.limits places.new here.new.here) }
    ensures limits { here.new.duty.limits ≡ here.old.duty.limits }
{
    if passes_by(number, entry) {
        return Ok(());
    }
    take_heard(alloc, number, places, records, family, owed, here, entry)
}

// Whether an entry changes none of these parts: a letter that goes elsewhere, and what page servers alone take in. Takes no memory.
#[inline(always)]
fn passes_by(number: ClusterNo, entry: &Entry) -> bool
    requires { number.0 < 16 }
    ensures { result ≡ passes_by number entry.now.dests (what entry.now) }
{
    match &entry.post.what {
        What::Mail { .. } => !goes_to(&entry.dests, number),
        What::Page { .. } => true,
        What::Fetch { .. } => true,
        _ => false,
    }
}

// The same of one that may change them. It stands by itself, so that no other pays for its room: most change nothing here.
#[inline(never)]
fn take_heard(
    alloc: Global,
    number: ClusterNo,
    places: &mut Placement,
    records: &mut Records,
    family: &mut Family,
    owed: &mut Owed,
    here: &mut Residents,
    entry: &Entry,
) -> Result<(), NoMemory>
    requires number { number.0 < 16 }
    requires note { CanNote (what entry.now) records.old }
    requires noted { IsNotedHere number entry.now records.old }
    requires join { CanJoin (what entry.now) family.old }
    requires absorb { CanBeAbsorbed places.old (what entry.now) }
    requires wait { CanWait (moved_by places.old number (what entry.now) (records_after number (what entry.now) records.old)) (here_after (what entry.now) here.old.here) }
    requires room { HasRoom here.old.here }
    requires comes { ComesHere number entry.now here.old.here }
    requires page { CanCome (what entry.now) here.old.here }
    requires birth { CanBeBorn (what entry.now) here.old.here }
    requires duty { here.old.duty ≡ duty_in here.old.duty.limits places.old here.old.here }
    ensures places { OnOk result (places.new ≡ placed_after places.old (what entry.now)) }
    ensures records { OnOk result (records.new ≡ left_by places.old number (what entry.now) (records_after number (what entry.now) records.old)) }
    ensures family { OnOk result (family.new ≡ family_after (what entry.now) family.old) }
    ensures owed { OnOk result (owed.new ≡ owed_after number places.old (what entry.now) owed.old) }
    ensures here { OnOk result (here.new.here ≡ with_all_waiting (moved_by places.old number (what entry.now) (records_after number (what entry.now) records.old)) (here_after (what entry.now) here.old.here)) }
    ensures rising { OnOk result (are_rising (moved_by places.old number (what entry.now) (records_after number (what entry.now) records.old)) ≡ true) }
    ensures duty { OnOk result (here.new.duty ≡ duty_in here.old.duty.limits places.new here.new.here) }
    ensures limits { here.new.duty.limits ≡ here.old.duty.limits }
{
    note(number, records, entry)?;
    join(family, entry)?;
    owed.wait(number, places, entry)?;
    tell(alloc, number, here, entry)?;
    take_over(alloc, number, places, records, here, entry)?;
    places.absorb(entry)?;
    owed.settle(places, entry);
    owe_anew(alloc, places, here, entry)
}

// Those here that get a new backup by the placement are to get one: it is asked anew where the entry may have changed that.
#[inline(always)]
fn owe_anew(
    alloc: Global,
    places: &Placement,
    here: &mut Residents,
    entry: &Entry,
) -> Result<(), NoMemory>
    requires { changes_owing (what entry.now) ≡ false → here.old.duty ≡ duty_in here.old.duty.limits places.now here.old.here }
    ensures here { here.new.here ≡ here.old.here }
    ensures duty { OnOk result (here.new.duty ≡ duty_in here.old.duty.limits places.now here.old.here) }
    ensures limits { here.new.duty.limits ≡ here.old.duty.limits }
{
    match &entry.post.what {
        What::Birth { .. } => here.place(alloc, places),
        What::Exit { .. } => here.place(alloc, places),
        What::Crash { .. } => here.place(alloc, places),
        What::Return { .. } => here.place(alloc, places),
        What::Rebackup { .. } => here.place(alloc, places),
        What::Mail { .. } => Ok(()),
        What::Page { .. } => Ok(()),
        What::Sync { .. } => Ok(()),
        What::Fetch { .. } => Ok(()),
        What::PageIs { .. } => Ok(()),
        What::Done { .. } => Ok(()),
        What::Stop => Ok(()),
    }
}
