//! The types that every layer shares, and the traits of the outside: a source, a sink and a gate.
#![tactic(auto)]

pub mod gate;
pub mod letter;
pub mod lists;
pub mod memory;
pub mod process;
pub mod shared_bytes;
pub mod standard;
pub mod streams;
