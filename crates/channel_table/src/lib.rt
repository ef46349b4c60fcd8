//! The placement: which clusters live, and where each process has its home and its backup.
#![tactic(auto)]

mod cluster;
pub mod placement;
mod processes;
