//! Tests of printed sections: which are of the form, what their logs say, and what is written of an audit.
#[cfg(test)]
mod findings;
#[cfg(test)]
mod forms;
