//! How many posts clusters may still send, where processes synchronise.
pub mod left;
