//! Tests of the program as a whole: which words it takes, what it tells of its input and its output, which run it hands out,
//! that the clusters of a run run beside each other and come back after a loss, and that a run ends where a thread cannot be started.
#[cfg(test)]
mod beside;
#[cfg(test)]
mod handed;
#[cfg(test)]
mod program;
#[cfg(test)]
mod returned;
#[cfg(test)]
mod unstarted;
