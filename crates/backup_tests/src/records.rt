//! Tests of the records of a cluster, with what entries make of them. The expected values were worked by hand.
#[cfg(test)]
mod records;
#[cfg(test)]
mod renewed;
