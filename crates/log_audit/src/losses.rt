//! Lines of the loss of a cluster and of a stop.
ghost use Rattle.std.specs.Prelude.{◌≡◌, ◌<◌, Option, Some, None};
ghost use Rattle.entry_lines.specs.declared.told.ToldWhat.TheVariants.{Crash, Stop};
ghost use Rattle.log_audit.specs.Losses.{AnswersLine, loss_may, stop_may};

use crate::front::Front;
use bus_msg::entry::{By, Cause, Entry, Post, What};
use entry_lines::ToldBy;
use t32_base::process::ClusterNo;

/// The entry of a line that tells of the loss of cluster `k`, where the front is that of the log before it. None where no
/// such entry may follow. Takes no memory.
pub fn next_loss(front: &Front, place: u64, by: ToldBy, k: u64, cause: Cause) -> Option<Entry>
    ensures { AnswersLine front.now place by (Crash k cause) result }
{
    if k >= 16 {
        return None;
    }
    let lost = ClusterNo(k as u8);
    if !loss_may(front, place, by, lost) {
        return None;
    }
    let what = What::Crash { k: lost, cause };
    Some(front.entry_at(place, Post { by: By::Bus, what }))
}

/// The entry of a line that tells of a stop, where the front is that of the log before it. None where no such entry may
/// follow. Takes no memory.
pub fn next_stop(front: &Front, place: u64, by: ToldBy) -> Option<Entry>
    ensures { AnswersLine front.now place by Stop result }
{
    if !stop_may(front, place, by) {
        return None;
    }
    let what = What::Stop;
    Some(front.entry_at(place, Post { by: By::Bus, what }))
}

// Whether the next entry may be the loss of a cluster.
fn loss_may(front: &Front, place: u64, by: ToldBy, k: ClusterNo) -> bool
    ensures { result ≡ loss_may front.now place by k }
{
    stop_may(front, place, by) && front.living(k)
}

/// Whether it may be a stop: any entry of the bus with this place. Takes no memory.
pub fn stop_may(front: &Front, place: u64, by: ToldBy) -> bool
    ensures { result ≡ stop_may front.now place by }
{
    front.is_next(place) && matches!(by, ToldBy::Bus)
}
