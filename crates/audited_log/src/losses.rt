//! Lines of the bus: of clusters that are lost and that return, and of a stop.
ghost use Rattle.std.specs.Prelude.{◌≡◌};
ghost use Rattle.std.specs.Option.{IfSome};
ghost use Rattle.entry_lines.specs.declared.told.ToldWhat.TheVariants.{Crash, Return, Stop};
ghost use Rattle.audited_log.specs.Answers.{AnswersCommon, IsChildless};

use crate::answer::{Answer, childless};
use crate::common::Common;
use bus_msg::entry::Cause;
use entry_lines::ToldBy;
use log_audit::losses::{next_loss, next_stop};
use log_renewals::returns::next_return;

/// The answer to a line that tells of the loss of cluster `k`. Takes no memory.
pub(crate) fn loss(place: u64, by: ToldBy, k: u64, cause: Cause, common: &Common) -> Option<Answer>
    ensures decides { AnswersCommon common.now place by (Crash k cause) result }
    ensures child { IfSome result IsChildless }
{
    childless(next_loss(&common.front, place, by, k, cause))
}

/// The answer to a line that tells of the return of cluster `k`. Takes no memory.
pub(crate) fn comes_back(place: u64, by: ToldBy, k: u64, common: &Common) -> Option<Answer>
    ensures decides { AnswersCommon common.now place by (Return k) result }
    ensures child { IfSome result IsChildless }
{
    childless(next_return(&common.front, place, by, k))
}

/// The answer to a line that tells of a stop. Takes no memory.
pub(crate) fn stop(place: u64, by: ToldBy, common: &Common) -> Option<Answer>
    ensures decides { AnswersCommon common.now place by Stop result }
    ensures child { IfSome result IsChildless }
{
    childless(next_stop(&common.front, place, by))
}
