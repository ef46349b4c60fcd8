//! Tests of the parts that keep letters and births. The expected values were worked by hand.
#[cfg(test)]
mod counts;
#[cfg(test)]
mod families;
#[cfg(test)]
mod mailboxes;
#[cfg(test)]
mod splitting;
