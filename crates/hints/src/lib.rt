//! What is guessed of a refused system text for a person, and which line of an assembler block a word comes from.
#![tactic(auto)]

pub mod asm_lines;
mod blocks;
mod fields;
mod guesses;
mod kinds;
mod said;
pub mod system;
