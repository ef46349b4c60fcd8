//! The workload: a system of sixteen processes in a ring, round which a token goes.
#![tactic(auto)]

mod programs;
mod ring;

pub use ring::workload;
