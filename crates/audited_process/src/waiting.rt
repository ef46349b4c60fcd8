//! Whether a process waits for its new backup.
ghost use Rattle.std.specs.Prelude.{◌≡◌, length};
ghost use Rattle.std.specs.List.{list_all, range_with_len};
ghost use Rattle.bus_msg.specs.PlacedAfter.{what};
ghost use Rattle.cert_sched.specs.Rules.{is_alone};
ghost use Rattle.audited_process.specs.SinceMoved.{is_fullback, is_home_or_lost, waits_on};

use crate::concerns::names;
use bus_msg::entry::Entry;
use channel_table::placement::Placement;
use t32_base::process::{ClusterNo, Mode, Pid};

/// Whether it waits behind the placement before an entry, after which it is asked whether another cluster lives: a fullback that is
/// moved begins to, and another goes on, unless the entry names it or no other cluster lived before. Takes no memory.
pub fn follow(waits: bool, pid: Pid, moved: bool, before: &Placement, entry: &Entry) -> bool
    ensures { result ≡ waits_on waits pid moved before.now (what entry.now) }
{
    if moved {
        is_fullback(before, pid)
    } else {
        waits && !names(pid, &entry.post.what) && !is_alone(before, pid)
    }
}

/// Whether no cluster but the home of a process lives. Takes no memory.
pub fn is_alone(places: &Placement, pid: Pid) -> bool
    ensures { result ≡ is_alone pid places.now }
{
    let Some(placed) = places.unended(pid) else {
        return false;
    };
    lives_alone(places, placed.home)
}

// Whether no cluster but a home lives.
fn lives_alone(places: &Placement, home: ClusterNo) -> bool
    ensures { result ≡ list_all (is_home_or_lost places.now home) (range_with_len 0 (length places.now.clusters)) }
{
    (0..places.clusters()).all(|number| is_home_or_lost(places, home, number))
}

// Whether the cluster with a number is the home, or does not live.
fn is_home_or_lost(places: &Placement, home: ClusterNo, number: u8) -> bool
    ensures { result ≡ is_home_or_lost places.now home number }
{
    let k = ClusterNo(number);
    k == home || !places.living(k)
}

// Whether a process that has not ended is a fullback.
fn is_fullback(places: &Placement, pid: Pid) -> bool
    ensures { result ≡ is_fullback places.now pid }
{
    match places.unended(pid) {
        Some(placed) => matches!(placed.mode, Mode::Full),
        None => false,
    }
}
