//! Tests of a process that waits for its pages, and then rolls forward.
#[cfg(test)]
mod waits;
