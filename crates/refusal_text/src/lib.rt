//! What the program says of its end beside its output: why it ended as it did, in words.
#![tactic(auto)]

mod block;
pub mod lines;
pub mod shown;
mod texts;
pub mod why;
