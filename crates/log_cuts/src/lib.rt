//! The lines of a printed log by which a process synchronises: a page of it, and its state. Whether an entry with such a line may
//! follow the entries before it, and how the process stands after it.
#![tactic(auto)]

pub mod ahead;
pub mod memory;
mod numbers;
pub mod pages;
pub mod sent_pages;
pub mod start;
pub mod syncs;
