//! Tests of the lines of a printed log: which are read, which are not, and what they say.
#[cfg(test)]
mod lines;
#[cfg(test)]
mod logs;
#[cfg(test)]
mod values;
