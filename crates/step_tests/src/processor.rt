//! Tests of the processor's crates: words and traps from outside, and one happy path of each call.
#[cfg(test)]
mod calls;
#[cfg(test)]
mod rows;
#[cfg(test)]
mod traps;
