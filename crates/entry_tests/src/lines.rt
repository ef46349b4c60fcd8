//! Tests of the entries of a log: their lines and their copies. The expected values come from the tables of the formats.
#[cfg(test)]
mod copies;
#[cfg(test)]
mod lines;
