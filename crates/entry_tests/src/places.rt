//! Tests of where the entries of a log place each process and where they go to. The expected values come from the tables
//! of the formats.
#[cfg(test)]
mod places;
#[cfg(test)]
mod routes;
#[cfg(test)]
mod taking;
