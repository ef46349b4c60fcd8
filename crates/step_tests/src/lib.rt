//! Tests of instructions and of the steps of a process.
#![tactic(auto)]

#[cfg(test)]
mod calls;
#[cfg(test)]
mod processor;
