//! Tests of the system calls: one step of a process at the edges of each call. The expected values are those of
//! the table of calls in docs/FORMATS.md, worked by hand.
#[cfg(test)]
mod counted;
#[cfg(test)]
mod process;
#[cfg(test)]
mod reads;
#[cfg(test)]
mod running;
#[cfg(test)]
mod signals;
#[cfg(test)]
mod steps;
#[cfg(test)]
mod writes;
