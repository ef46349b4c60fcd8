//! Tests of the words of the program: which are a command, with which options and which script.
#[cfg(test)]
mod faults;
#[cfg(test)]
mod many;
#[cfg(test)]
mod words;
