//! The kernel without clusters, backups, counts or pages: what every run is compared with.
#![tactic(auto)]

mod births;
pub mod booting;
mod candidates;
pub mod item;
mod linking;
pub mod plain;
mod processes;
mod running;
pub mod sending;
mod signals;
pub mod start;
