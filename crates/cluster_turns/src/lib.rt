//! One turn of a cluster that follows the log of a bus, by any way to that.
#![tactic(auto)]

mod lent;
pub mod member;
pub mod offers;
pub mod port;
pub mod turn;
