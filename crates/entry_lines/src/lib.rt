//! The lines of a printed log: what each says as a value, and the value read from a line.
#![tactic(auto)]

mod guess;
mod numbers;
mod reading;
mod text;
mod told;

pub use numbers::number_in;
pub use reading::{lines_are_told, read_told, texts_differ};
pub use text::told_text;
pub use told::{Told, ToldBy, ToldEnd, ToldLetter, ToldWhat};
