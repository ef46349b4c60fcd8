//! Tests of synchronisations, of new backups, and of processes that wait for their pages.
#![tactic(auto)]

#[cfg(test)]
mod renewals;
#[cfg(test)]
mod syncs;
#[cfg(test)]
mod waits;
