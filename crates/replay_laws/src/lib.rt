//! What a log says of processes that a loss moved: how they roll forward and what that costs, how they wait for their pages, and
//! children that wait for the fork of their parent: laws and no code.
#![tactic(auto)]

pub mod costs;
pub mod forks;
pub mod pages;
pub mod rolling;
