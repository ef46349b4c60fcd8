//! The text of a system: its rules, its canonical form, and its reader.
#![tactic(auto)]

mod adding;
mod block;
mod file;
mod kinds;
mod line;
mod open_block;
pub mod printer;
mod reading;
mod refusal;
mod rules;
mod stage;
mod state;
pub mod system;
mod types;
pub mod valid;
mod word_lines;

pub use block::is_end;
pub use kinds::{keyword_named, mode_named};
pub use reading::{elf_blocks_load, read_system, systems_read_back};
pub use refusal::{Rule, SystemRefused};
pub use rules::begins_comment;
pub use stage::Keyword;
