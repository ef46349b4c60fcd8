//! Tests of what a backup keeps. The expected values were worked by hand.
#[cfg(test)]
mod queues;
#[cfg(test)]
mod records;
