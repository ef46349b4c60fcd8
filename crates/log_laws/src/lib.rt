//! What a log says of one process, entry by entry: the births of children, the letters that it reads, its pages, its record: laws
//! and no code.
#![tactic(auto)]

pub mod births;
pub mod letters;
pub mod pages;
pub mod records;
