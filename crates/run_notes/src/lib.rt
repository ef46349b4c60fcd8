//! What is noted of a run for a person beside its report: the words of a script that were not reached, and where each trap was.
#![tactic(auto)]

pub mod note;
pub mod reached;
pub mod traps;
