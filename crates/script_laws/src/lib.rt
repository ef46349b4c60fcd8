//! What the log of a bus says of its script, and of the clusters that it loses: laws and no code.
#![tactic(auto)]

pub mod counted;
pub mod covered;
pub mod looks;
pub mod lost_at;
pub mod off;
pub mod passed;
pub mod turns;
