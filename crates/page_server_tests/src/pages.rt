//! Tests of the page server: each call, and a disk that fails at each of its calls in turn.
#[cfg(test)]
mod pages;
