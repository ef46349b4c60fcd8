//! A batch of posts by which a process synchronises may go on being sent while entries of other clusters come between.
pub mod begun;
pub mod between;
pub mod ended;
pub mod left;
pub mod others;
pub mod queued;
pub mod sent;
