//! Tests of a cluster: its boot, its return, its processes, and those that roll forward.
#![tactic(auto)]

#[cfg(test)]
mod clusters;
#[cfg(test)]
mod rolls;
