//! The parts of a text: its lines, their fields, the numbers in them, words as digits, and tables of names.
#![tactic(auto)]

mod lines;
mod names;
mod numbers;
mod table;
mod words;

pub use lines::{
    are_printable, cut_at, cut_far, first_field, first_line, is_printable, split_lines, trim,
    trim_end, trim_start,
};
pub use names::{Names, front_of};
pub use numbers::{MOST, number, numbers_read_back, numeral, word};
pub use table::lookup;
pub use words::push_words;
