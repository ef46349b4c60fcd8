//! The posts by which a process synchronises may stand next in the log, and what the log says of it after them.
pub mod accounts;
pub mod batches;
pub mod births;
pub mod cuts;
pub mod marks;
pub mod pages;
pub mod syncs;
