//! What a caller of `bus_lock` can prove through its public clauses alone: lists of notes to which threads add through one lock.
#![tactic(auto)]

mod both;
mod chain;
mod crossing;
mod notes;
mod tape;
#[cfg(test)]
mod tests;
mod worker;

pub use both::append_both;
pub use chain::append_each;
pub use crossing::{visit, visit_both};
pub use notes::{Note, Notes};
pub use tape::{Tape, first_digit};
pub use worker::{add_one, append, wait_for};
