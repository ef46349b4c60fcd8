//! Tests of the kernel without failures, of schedules, reports and words.
#![tactic(auto)]

#[cfg(test)]
mod kernel;
#[cfg(test)]
mod reports;
#[cfg(test)]
mod schedules;
#[cfg(test)]
mod words;
