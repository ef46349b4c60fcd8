//! What a log says of the pages of processes that a loss moved.
pub mod left;
pub mod one_entry;
pub mod start_pages;
pub mod stays;
pub mod waits;
