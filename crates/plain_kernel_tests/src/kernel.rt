//! Tests of the kernel without failures, call by call. The expected values come from the worked examples of the formats.
#[cfg(test)]
mod kernel;
