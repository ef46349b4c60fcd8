//! What a work of a cluster did.

/// What a work of a cluster did: a process made silent steps, a post stands in the queue, a page that was
/// asked for has not come, or nothing here can move.
#[derive(Clone, Copy, PartialEq, Eq, Debug)]
pub enum Worked {
    Moved,
    Queued,
    Waits,
    Rests,
}
