//! A process that keeps its limits by its own counts keeps those of the log.
pub mod forks;
pub mod own;
pub mod rest;
pub mod sending;
pub mod staying;
pub mod steps;
pub mod syncs;
