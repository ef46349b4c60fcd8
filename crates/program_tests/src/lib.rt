//! Tests of the program as a whole: its words, and what it prints of texts and of runs.
#![tactic(auto)]

#[cfg(test)]
mod plain;
#[cfg(test)]
mod program;
#[cfg(test)]
mod sim;
