//! A lock round a value that stands for a list of entries, which only grows, and seats that know beginnings of that list.
#![tactic(auto)]

mod lock;
mod rule;
mod seat;
mod steps;
mod value;
mod view;

pub use lock::LogLock;
pub use rule::{OneList, Terms};
pub use seat::LogSeat;
pub use value::LogValue;
pub use view::{Past, View};
