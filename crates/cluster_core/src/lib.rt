//! A cluster, which follows the log and nothing else.
#![tactic(auto)]

mod absorb;
mod booting;
pub mod cluster;
mod falling;
mod families;
pub mod heads;
pub mod hearing;
pub mod hurt;
pub mod joined;
pub mod known;
mod owed;
pub mod returned;
mod serving;
pub mod standing;
pub mod steps_left;
mod taking_in;
mod taking_over;
mod work;
pub mod worked;
