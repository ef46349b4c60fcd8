//! What each entry of the log changes in the accounts of a page server, and the answer that it owes.
#![tactic(auto)]

pub mod answering;
pub mod booting;
pub mod laws;
pub mod noting;
