//! Tests of the checker of a printed log, line by line. The expected values are worked by hand from the formats.
#![tactic(auto)]

#[cfg(test)]
mod begun;
#[cfg(test)]
mod born;
#[cfg(test)]
mod cut;
#[cfg(test)]
mod done;
#[cfg(test)]
mod fetched;
#[cfg(test)]
mod followed;
#[cfg(test)]
mod kept;
#[cfg(test)]
mod lines;
#[cfg(test)]
mod renewed;
#[cfg(test)]
mod sent;
#[cfg(test)]
mod walked;
