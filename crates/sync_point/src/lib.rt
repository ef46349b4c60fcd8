//! When a process is due to synchronise, and the posts by which it does.
#![tactic(auto)]

pub mod batch;
pub mod due;
pub mod laws;
