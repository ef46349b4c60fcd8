//! The words of the program, read once: the command that they are, and its script of failures.
#![tactic(auto)]

mod command;
mod options;
mod script;

pub use command::{Command, command_of};
pub use script::{allowed, script_word};
