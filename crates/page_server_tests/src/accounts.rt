//! Tests of the accounts of a page server beside a log.
#[cfg(test)]
mod accounts;
