//! Static ELF32 files as the memory of a process (System V ABI, "Object Files" and "Program Loading"; RISC-V ELF psABI).
#![tactic(auto)]

mod fields;
mod headers;
mod loading;
mod placing;
mod refusal;
mod rules;

pub use loading::{Loaded, load_elf};
pub use refusal::{ElfRefused, Rule};
