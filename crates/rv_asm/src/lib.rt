//! The assembler for RV32I, and words as a text.
#![tactic(auto)]

mod clean;
mod form;
mod instruction;
mod labels;
mod line;
mod names;
mod number;
mod operands;
mod parsed;
mod printing;
mod program;
mod quoted;
mod refusal;
mod registers;
mod row;
mod rules;
mod statement;
mod words;

pub use printing::words_text;
pub use program::assemble;
pub use refusal::{AsmRefused, Rule};
