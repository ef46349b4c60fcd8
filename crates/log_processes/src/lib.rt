//! The processes of a printed log, and the lines by which they send: whether an entry with such a line may follow the entries
//! before it, and how each process stands after it.
#![tactic(auto)]

pub mod arrivals;
pub mod exits;
pub mod families;
pub mod letters;
pub mod sender;
pub mod starting;
pub mod telling;
