//! What is said of an audit.
#![tactic(auto)]

mod finding;

pub use finding::{Finding, SOUND, STATUS};
