//! The lines of a printed log that give back what a loss took: a cluster that returns, and a new backup of a process, with its
//! family as it waits or as it has run. Whether an entry with such a line may follow the entries before it.
#![tactic(auto)]

pub mod fresh;
pub mod moved;
pub mod named;
mod numbers;
pub mod returns;
pub mod standing;
