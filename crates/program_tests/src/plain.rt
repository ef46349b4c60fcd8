//! Tests of the words `plain`, `check` and `asm`: what each prints, and the status with which the program ends. The expected
//! values come from the worked examples of the formats, or follow from the programs by hand.
#[cfg(test)]
mod plain;
#[cfg(test)]
mod texts;
