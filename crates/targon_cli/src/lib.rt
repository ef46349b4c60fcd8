//! The program: its words, its input and what it answers.
#![tactic(auto)]

mod input;
mod load;
mod notes;
pub mod output;
mod reply;
mod runs;
mod sections;
pub mod top;
