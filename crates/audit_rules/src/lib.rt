//! What an audit of a printed section asks, and what it may find: definitions with their laws, and no code.
#![tactic(auto)]

pub mod explained;
pub mod findings;
