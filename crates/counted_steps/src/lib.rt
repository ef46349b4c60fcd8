//! So many steps of a process, as a printed line tells of them: silent ones, and then one that sends, or a fork.
#![tactic(auto)]

pub mod counted;
pub mod resting;
