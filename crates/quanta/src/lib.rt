//! A quantum of a process, which ends where the process is due to synchronise.
#![tactic(auto)]

pub mod limits;
pub mod quantum;
