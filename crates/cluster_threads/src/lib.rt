//! Runs of clusters over a bus, each in a thread of its own.
#![tactic(auto)]

pub mod followed;
mod following;
mod locked;
pub mod running;
mod seated;
mod sleepers;
pub mod standing;
