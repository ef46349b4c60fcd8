//! A process that the loss of a cluster moved, while it waits for its pages.
#![tactic(auto)]

pub mod laws;
pub mod waiting;
