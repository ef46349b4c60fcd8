//! What the log says of the letters that a process has read.
pub mod mailbox;
pub mod reads;
