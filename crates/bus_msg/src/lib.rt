//! What stands on the bus: entries with their places and destinations, and the line of each in a printed log.
#![tactic(auto)]

mod copying;
pub mod entry;
pub mod placed;
pub mod shared;
pub mod text;
