//! Tests of who gets a new backup and where, and of the posts by which a process gets it. The expected values were worked by hand.
#[cfg(test)]
mod choices;
#[cfg(test)]
mod posts;
