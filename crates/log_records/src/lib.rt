//! The backup records of all processes of a log, kept entry by entry.
#![tactic(auto)]

pub mod records;
