//! What is kept of one process of a printed log that is checked: what it is at boot and at the birth of the process, what each
//! entry makes of it, and that it is what the answers to the lines of the process ask for.
#![tactic(auto)]

pub mod answering;
pub mod audited;
pub mod begun;
pub mod concerns;
pub mod leading;
pub mod lines;
pub mod since_moved;
mod waiting;
