//! The pages of one process at its place.
use crate::table::PageTable;

/// The pages of a process, and its place, which says where on the disk they lie.
#[derive(Drop)]
pub struct Pages {
    pub place: u32,
    pub table: PageTable,
}
