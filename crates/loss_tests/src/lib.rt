//! Tests of losses: a cluster is lost at each place of the log, before each kernel step and by each call of its disk, also several in
//! one run, and comes back, and the terminals and the processes are those of the run without a loss.
#![tactic(auto)]

#[cfg(test)]
mod each_loss;
#[cfg(test)]
mod returns;
#[cfg(test)]
mod several;
