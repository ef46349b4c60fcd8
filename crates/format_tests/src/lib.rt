//! Tests of the shared types, of texts and of executables.
#![tactic(auto)]

#[cfg(test)]
mod base;
#[cfg(test)]
mod executables;
#[cfg(test)]
mod parts;
#[cfg(test)]
mod texts;
