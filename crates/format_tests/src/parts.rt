//! Tests of the parts of texts, and of what is said of a line that is refused.
#[cfg(test)]
mod noted_lines;
#[cfg(test)]
mod refusals;
#[cfg(test)]
mod texts;
