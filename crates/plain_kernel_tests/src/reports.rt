//! Tests of what is printed of a run and of its log. The expected values come from the worked examples of the formats.
#[cfg(test)]
mod notes;
#[cfg(test)]
mod reports;
