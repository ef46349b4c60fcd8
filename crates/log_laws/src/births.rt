//! What a cluster keeps of births is what the log says of children that never synchronised.
pub mod first_child;
pub mod unsynced;
