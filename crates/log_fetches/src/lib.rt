//! Which pages each process of a log asked for, and which have come, since a loss moved it.
#![tactic(auto)]

pub mod fetches;
mod kept;
pub mod pages;
