//! The numbers of a legal log are small: laws and no code.
#![tactic(auto)]

pub mod serials;
pub mod states;
