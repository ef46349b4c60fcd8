//! The records that a cluster keeps of the processes whose backup it has.
#![tactic(auto)]

mod by_pid;
pub mod records;
