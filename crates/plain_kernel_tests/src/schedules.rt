//! Tests of schedules: of a log, and as a text. The expected values come from the worked examples of the formats.
#[cfg(test)]
mod logs;
#[cfg(test)]
mod texts;
