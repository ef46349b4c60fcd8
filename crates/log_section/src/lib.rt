//! A printed section: the report of a run with its log, read as far as its form goes.
#![tactic(auto)]

mod form;
mod lines;
mod log;
mod printed;
mod refusal;

pub use log::read_section;
pub use printed::printed_sections_are_form;
pub use refusal::SectionRefused;
