//! The new backups of the families that a loss moved.
#![tactic(auto)]

pub mod standing;
