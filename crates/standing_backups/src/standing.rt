//! The post by which a family that waits in a cluster gets its new backup.
ghost use Rattle.std.specs.Prelude.{ℕ, ◌≡◌, ◌∷◌, IfOk, OnOk, Some, find, is_some, map, true};
ghost use Rattle.std.specs.List.{list_any};
ghost use Rattle.std.specs.List.Sorted.{IsStrictlySortedBy};
ghost use Rattle.std.specs.Ordering.{nat_cmp};
ghost use Rattle.plain_kernel.specs.Maps.{at_key, pid_of};
ghost use Rattle.residents.specs.Records.{record_at};
ghost use Rattle.standing_backups.specs.Standing.{AreNamed, CanBeNext, CanHandOn, HandsOn, IsNextStanding, first_stated, is_stated_at};

use backup_mode::next::next_backup;
use backup_mode::posts::standing;
use birth_notice::family::Family;
use bus_msg::entry::Post;
use bus_msg::shared::Shared;
use channel_table::placement::Placement;
use residents::residents::Residents;
use std::alloc::Global;
use std::collections::BTreeSet;
use t32_base::letter::BackRec;
use t32_base::lists::List;
use t32_base::process::{ClusterNo, Pid};
use t32_base::streams::NoMemory;

/// The post by which the cluster with a number gives the next of the processes that wait here for their new backup that
/// backup: the lowest with a state in its record, with its family. None exactly where none waits for one.
pub fn next_standing(
    alloc: Global,
    number: ClusterNo,
    places: &Placement,
    owed: &BTreeSet<u32>,
    family: &Family,
    here: &Residents,
) -> Result<Option<Post>, NoMemory>
    requires { CanBeNext places.now family.now here.now.here owed.now.keys }
    ensures { IfOk result (λ next. IsNextStanding number places.now family.now here.now.here owed.now.keys next) }
{
    match first_stated(owed, here) {
        Some(pid) => Ok(Some(hand_on(alloc, number, places, family, here, pid)?)),
        None => Ok(None),
    }
}

// The first of these processes that has a state in its record. Takes no memory.
fn first_stated(owed: &BTreeSet<u32>, here: &Residents) -> Option<Pid>
    ensures { result ≡ first_stated here.now.here owed.now.keys }
{
    // Mostly none waits, and each turn of a cluster asks.
    if owed.is_empty() {
        return None;
    }
    for pid in owed {
        if is_stated(here, *pid) {
            return Some(Pid(*pid));
        }
    }
    None
}

// Whether a process waits here and has a state in its record. Takes no memory.
fn is_stated(here: &Residents, pid: u32) -> bool
    ensures { result ≡ is_stated_at here.now.here pid }
{
    match here.kept(Pid(pid)) {
        Some(kept) => kept.state().is_some(),
        None => false,
    }
}

// The post that hands on the records of a process and of its family.
fn hand_on(
    alloc: Global,
    number: ClusterNo,
    places: &Placement,
    family: &Family,
    here: &Residents,
    pid: Pid,
) -> Result<Post, NoMemory>
    requires named { AreNamed here.now.here }
    requires can { CanHandOn places.now family.now here.now.here pid }
    ensures { IfOk result (λ post. HandsOn number places.now family.now here.now.here pid post) }
{
    let Some(to) = next_backup(places, pid) else {
        unreachable!()
    };
    let others = family.others(alloc, pid)?;
    let recs = records_of(alloc, here, pid, &others)?;
    Ok(standing(Shared::new(alloc, recs)?, to, number))
}

// The records of a process and of these others, which rise, as they wait here.
fn records_of(
    alloc: Global,
    here: &Residents,
    pid: Pid,
    others: &BTreeSet<u32>,
) -> Result<List<BackRec>, NoMemory>
    requires own { is_some (record_at here.now.here pid) ≡ true }
    requires others { (n : ℕ) → list_any (at_key n) others.now.keys ≡ true → is_some (record_at here.now.here (pid_of n)) ≡ true }
    ensures records { IfOk result (λ recs. map Some recs ≡ map (record_at here.now.here) (pid ∷ map pid_of others.now.keys)) }
    ensures rising { OnOk result (IsStrictlySortedBy nat_cmp others.now.keys) }
{
    let mut recs = List::new(alloc);
    recs.push(told(here, pid)?)?;
    for other in others.iter() {
        recs.push(told(here, Pid(*other))?)?;
    }
    Ok(recs)
}

// The record of a process that waits here.
fn told(here: &Residents, pid: Pid) -> Result<BackRec, NoMemory>
    requires { is_some (record_at here.now.here pid) ≡ true }
    ensures { IfOk result (λ rec. record_at here.now.here pid ≡ Some rec) }
{
    match here.kept(pid) {
        Some(kept) => kept.told(),
        None => unreachable!(),
    }
}
