//! The ends of a process, by number.
ghost use Rattle.std.specs.Prelude.{◌≡◌, ◌<◌, ◌≤◌, IsSome, count_by, slice_set};
ghost use Rattle.std.specs.List.{list_any};
ghost use Rattle.t32_base.specs.Small.{is_unshut};
ghost use Rattle.proc_state.specs.Ends.{finished_at, finished_end, is_unfinished, is_unfinished_at, leads_at};
ghost use Rattle.sys_calls.specs.Small.{with_end, with_ends, weight};

use t32_base::letter::To;
use t32_base::process::{EndState, Small};

/// Where an open end leads. A number of 32 or more is no end.
pub fn destination(ends: &[EndState; 32], end: u32) -> Option<To>
    ensures leads { result ≡ leads_at ends.now end }
    ensures within { IsSome result → end < 32 }
{
    if end >= 32 {
        return None;
    }
    match ends[end as usize] {
        EndState::Tty(tty) => Some(To::Tty(tty)),
        EndState::Linked { peer, far, .. } => Some(To::Proc(peer, far)),
        EndState::Never | EndState::Shut => None,
    }
}

/// Whether an end is linked and its end letter was not read. A number of 32 or more is no end.
pub fn is_unfinished_at(ends: &[EndState; 32], end: u32) -> bool
    ensures { result ≡ is_unfinished_at ends.now end }
{
    match ends.get(end as usize) {
        Some(state) => is_unfinished(*state),
        None => false,
    }
}

/// Whether some end is linked and its end letter was not read.
pub fn any_unfinished(ends: &[EndState; 32]) -> bool
    ensures { result ≡ list_any is_unfinished ends.now }
{
    ends.iter().any(|end| is_unfinished(*end))
}

fn is_unfinished(end: EndState) -> bool
    ensures { result ≡ is_unfinished end }
{
    match end {
        EndState::Linked { finished, .. } => !finished,
        EndState::Never | EndState::Tty(_) | EndState::Shut => false,
    }
}

/// The end letter of an end was read, where it is linked.
pub fn finish(small: &mut Small, end: u8)
    ensures finished { small.new ≡ with_ends small.old (finished_at small.old.ends end) }
    ensures weight { weight small.new ≡ weight small.old }
{
    if end < 32 {
        let was = small.ends[usize::from(end)];
        small.ends[usize::from(end)] = finished_end(was);
    }
}

/// An end is shut.
pub fn shut(small: &mut Small, end: u8)
    requires { end < 32 }
    ensures shut { small.new ≡ with_end small.old end EndState.Shut }
    ensures weight { weight small.new ≤ weight small.old }
{
    shut_in(&mut small.ends, end);
}

// An end is shut: no more of them are unshut.
fn shut_in(ends: &mut [EndState; 32], end: u8)
    requires { end < 32 }
    ensures shut { ends.new ≡ slice_set ends.old end EndState.Shut }
    ensures fewer { count_by is_unshut ends.new ≤ count_by is_unshut ends.old }
{
    ends[usize::from(end)] = EndState::Shut;
}

fn finished_end(end: EndState) -> EndState
    ensures finished { result ≡ finished_end end }
    ensures unshut { is_unshut result ≡ is_unshut end }
{
    match end {
        EndState::Linked { peer, far, .. } => EndState::Linked {
            peer,
            far,
            finished: true,
        },
        EndState::Never | EndState::Tty(_) | EndState::Shut => end,
    }
}
