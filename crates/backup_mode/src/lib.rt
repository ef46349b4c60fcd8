//! Which cluster a process gets as its new backup, and the posts by which it gets it.
#![tactic(auto)]

pub mod next;
pub mod posts;
