//! The marks of a process, by which it knows what to synchronise, go with the log.
pub mod begun;
pub mod boot;
pub mod emitted;
pub mod entries;
pub mod forks;
pub mod letters;
pub mod rolled;
pub mod sent;
pub mod steps;
