//! What is kept of a printed log that is checked, and the walk over its lines: whether an entry with the next line, of whatever kind,
//! may follow the entries before it, and what is kept then.
#![tactic(auto)]

mod answer;
mod backups;
mod births;
pub mod common;
mod cuts;
mod ends;
mod exits;
mod fetches;
mod letters;
mod lines;
mod losses;
mod pages;
pub mod processes;
mod renewals;
pub mod state;
