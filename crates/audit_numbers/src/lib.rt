//! The printed numbers of a section that is explained are below 2^64: laws and no code.
#![tactic(auto)]

pub mod numbers;
