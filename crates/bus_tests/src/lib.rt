//! Tests of a bus call by call. The expected values come from the worked examples of the formats.
#![tactic(auto)]

#[cfg(test)]
mod bus;
#[cfg(test)]
mod script;
