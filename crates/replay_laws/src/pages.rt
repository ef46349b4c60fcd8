//! What a log says of a process that waits for its pages.
pub mod entries;
pub mod goes_on;
pub mod lacks;
