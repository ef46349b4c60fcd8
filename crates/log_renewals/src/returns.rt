//! Lines of clusters that return.
ghost use Rattle.std.specs.Prelude.{◌≡◌, ◌<◌, true, length};
ghost use Rattle.bus_msg.specs.Places.{is_lost_in};
ghost use Rattle.log_renewals.specs.Returns.{AnswersReturn, return_may};

use bus_msg::entry::{By, Entry, Post, What};
use entry_lines::ToldBy;
use log_audit::front::Front;
use log_audit::losses::stop_may;
use t32_base::process::ClusterNo;

/// The entry of a line that tells of the return of cluster `k`, where the front is that of the log before it. None where no
/// such entry may follow. Takes no memory.
pub fn next_return(front: &Front, place: u64, by: ToldBy, k: u64) -> Option<Entry>
    ensures { AnswersReturn front.now place by k result }
{
    if k >= 16 {
        return None;
    }
    let returned = ClusterNo(k as u8);
    if !return_may(front, place, by, returned) {
        return None;
    }
    let what = What::Return { k: returned };
    Some(front.entry_at(place, Post { by: By::Bus, what }))
}

// Whether the next entry may be the return of a cluster, which is then one of the system.
fn return_may(front: &Front, place: u64, by: ToldBy, k: ClusterNo) -> bool
    ensures may { result ≡ return_may front.now place by k }
    ensures within { result ≡ true → k.0 < length front.now.places.clusters }
{
    stop_may(front, place, by) && is_lost(front, k)
}

// Whether a cluster of the system is lost.
fn is_lost(front: &Front, k: ClusterNo) -> bool
    ensures lost { result ≡ is_lost_in front.now.places k }
    ensures within { result ≡ true → k.0 < length front.now.places.clusters }
{
    k.0 < front.places().clusters() && !front.living(k)
}
