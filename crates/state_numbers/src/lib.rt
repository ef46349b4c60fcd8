//! The numbers of a process fit their types, whatever it does: laws and no code.
#![tactic(auto)]

pub mod steps;
