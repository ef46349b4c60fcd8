//! The lines of a printed log by which processes fork: whether an entry with such a line may follow the entries before it, and
//! how the parent and its child stand after it.
#![tactic(auto)]

pub mod births;
