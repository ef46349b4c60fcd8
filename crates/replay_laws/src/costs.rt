//! What a recovery costs, by the limits between two synchronisations.
pub mod caught;
pub mod costing;
