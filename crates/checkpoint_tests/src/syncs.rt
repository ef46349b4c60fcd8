//! Tests of a quantum that ends where its process is due to synchronise, and of that: when it is due, what it sends, and what it
//! is then, with a signal and without. The expected values were worked by hand.
#[cfg(test)]
mod reader;
#[cfg(test)]
mod running;
#[cfg(test)]
mod signalling;
#[cfg(test)]
mod synchronising;
