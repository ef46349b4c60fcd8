//! A printed log is checked entry by entry: whether an entry with a line may follow the entries before it.
#![tactic(auto)]

pub mod answers;
pub mod fetches;
pub mod front;
pub mod losses;
