//! Tests of the loader: files that it loads, and a table of files that each break a rule.
#[cfg(test)]
mod files;
