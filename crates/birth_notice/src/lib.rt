//! What a cluster knows of the children that never synchronised, and which of them is to come first.
#![tactic(auto)]

pub mod family;
