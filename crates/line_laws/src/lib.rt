//! A line of a printed log and the entries before it determine its entry: laws and no code.
#![tactic(auto)]

pub mod lines;
