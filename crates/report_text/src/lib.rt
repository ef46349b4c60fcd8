//! The texts that the program prints of a kernel and of a run.
#![tactic(auto)]

pub mod load;
pub mod outcome;
pub mod plain;
pub mod run;
pub mod whole;
