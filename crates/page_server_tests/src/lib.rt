//! Tests of a page server, by itself and beside a log.
#![tactic(auto)]

#[cfg(test)]
mod accounts;
#[cfg(test)]
mod pages;
