//! Tests of runs with several losses and returns: each is explained by its own log, by the kernel without clusters, and by what that
//! prints of the text alone.
#![tactic(auto)]

#[cfg(test)]
mod explained;
#[cfg(test)]
mod pairs;
#[cfg(test)]
mod placement;
#[cfg(test)]
mod recovery;
#[cfg(test)]
mod report;
#[cfg(test)]
mod rows;
#[cfg(test)]
mod words;
