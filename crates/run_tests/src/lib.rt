//! Tests of runs of clusters on threads.
#![tactic(auto)]

#[cfg(test)]
mod threads;
