//! What a log says of a child without a state in its record, which waits until its parent comes to its fork again.
pub mod entries;
pub mod parents;
