//! What the log says of the records that a cluster keeps.
pub mod lists;
pub mod one_entry;
