//! Why the bus refuses a call.
use thiserror::Error;

/// Why the bus refuses a call: the log is over since the entry `at`; the cluster is lost since the entry `at`;
/// the cursor is behind the length; or memory was refused.
#[derive(Clone, Copy, PartialEq, Eq, Debug, Error)]
pub enum Refused {
    #[error("the log is over since entry {at}")]
    Over { at: u64 },
    #[error("the cluster is lost since entry {at}")]
    Off { at: u64 },
    #[error("the log has {length} entries")]
    Behind { length: u64 },
    #[error("memory was refused")]
    NoMemory,
}
