//! Tests of the types that all share. The expected values were worked by hand.
#[cfg(test)]
mod copies;
#[cfg(test)]
mod streams;
