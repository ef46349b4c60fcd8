//! The line of a printed log by which nothing can move any more: whether an entry with this line may follow the entries before it.
#![tactic(auto)]

pub mod ends;
