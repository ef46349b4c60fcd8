//! Which cluster a process without a backup gets as its new one.
ghost use Rattle.std.specs.Prelude.{◌≡◌, ◌&&◌, not};
ghost use Rattle.bus_msg.specs.Places.{lives_in, same_cluster};
ghost use Rattle.bus_msg.specs.NewBackup.{lost_alive, lowest_other, next_backup as given_to, next_backup_at};

use bus_msg::placed::Placed;
use channel_table::placement::Placement;
use t32_base::process::{ClusterNo, Mode, Pid};

/// The cluster that a process gets as its new backup now, if it gets one: it has not ended and has no backup. A
/// quarterback gets none, a halfback the cluster that it lost, where that lives again, and a fullback the lowest living
/// cluster that is not its home. Takes no memory.
pub fn next_backup(places: &Placement, pid: Pid) -> Option<ClusterNo>
    ensures { result ≡ next_backup_at places.now pid }
{
    let placed = places.unended(pid)?;
    given_to(places, &placed)
}

// The cluster that a process gets by where it is placed.
fn given_to(places: &Placement, placed: &Placed) -> Option<ClusterNo>
    ensures { result ≡ given_to places.now placed.now }
{
    if placed.ended || placed.backup.is_some() {
        return None;
    }
    match placed.mode {
        Mode::Quarter => None,
        Mode::Half => lost_alive(places, placed.lost),
        Mode::Full => lowest_other(places, placed.home),
    }
}

// The cluster that was lost, where it lives again.
fn lost_alive(places: &Placement, lost: Option<ClusterNo>) -> Option<ClusterNo>
    ensures { result ≡ lost_alive places.now lost }
{
    match lost {
        Some(k) => { if places.living(k) { Some(k) } else { None } }
        None => None,
    }
}

// The lowest living cluster that is not the home.
fn lowest_other(places: &Placement, home: ClusterNo) -> Option<ClusterNo>
    ensures { result ≡ lowest_other places.now home }
{
    for number in 0..places.clusters() {
        let k = ClusterNo(number);
        if lives_beside(places, k, home) {
            return Some(k);
        }
    }
    None
}

// Whether a cluster lives and is not the home.
fn lives_beside(places: &Placement, k: ClusterNo, home: ClusterNo) -> bool
    ensures { result ≡ (lives_in places.now k && not (same_cluster k home)) }
{
    places.living(k) && k != home
}
