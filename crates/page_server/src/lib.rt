//! The page server: an uncommitted and a committed account of pages for each process, kept on a page disk.
#![tactic(auto)]

pub mod disk;
mod fetches;
pub mod mem_disk;
pub mod pager;
mod pages;
mod processes;
mod sheet;
mod table;
