//! The processes that are at home in a cluster: each runs, rolls forward or waits; one after the other has its turn.
#![tactic(auto)]

pub mod duty;
pub mod quantum;
pub mod resident;
pub mod residents;
