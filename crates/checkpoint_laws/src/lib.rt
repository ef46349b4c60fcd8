//! What a log says of processes that synchronise: the posts by which they do, the marks of what is to be sent, batches that are
//! under way, the limits between two, and how much may still be sent: laws and no code.
#![tactic(auto)]

pub mod batches;
pub mod limits;
pub mod marks;
pub mod posts;
pub mod remaining;
