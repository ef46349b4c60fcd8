//! The items of a schedule, and why one is not applied.
use t32_base::process::Pid;
use thiserror::Error;

/// An item of a schedule: a process makes a number of steps, forks, or takes a signal.
#[derive(Clone, Copy, PartialEq, Eq, Debug)]
pub enum Item {
    Run(Pid, u64),
    Fork(Pid, Pid),
    Take(Pid),
}

/// Why an item was not applied whole: it cannot be applied after `done` of its steps, or memory was
/// refused then. The kernel stands after those steps.
#[derive(Clone, Copy, PartialEq, Eq, Debug, Error)]
pub enum NotApplied {
    #[error("the item cannot be applied after {done} of its steps")]
    Disabled { done: u64 },
    #[error("memory was refused after {done} steps of the item")]
    NoMemory { done: u64 },
}

/// Why a schedule was not run: its item `index`, counted from 0, cannot be applied after the items
/// before it, or memory was refused.
#[derive(Clone, Copy, PartialEq, Eq, Debug, Error)]
pub enum RunRefused {
    #[error("item {index} of the schedule cannot be applied")]
    BadItem { index: u64 },
    #[error("memory was refused")]
    NoMemory,
}
