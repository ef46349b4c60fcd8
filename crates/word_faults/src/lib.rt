//! Which of the program's words is wrong, and why, where they are no command.
#![tactic(auto)]

pub mod fault;
mod said;
mod seen;
