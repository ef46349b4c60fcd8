//! Tests of what a backup keeps: mailboxes, records, and what a loss moves.
#![tactic(auto)]

#[cfg(test)]
mod mail;
#[cfg(test)]
mod queues;
#[cfg(test)]
mod records;
