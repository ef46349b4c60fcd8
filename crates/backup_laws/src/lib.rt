//! What the log says of new backups: laws and no code.
#![tactic(auto)]

pub mod awaited;
pub mod owed;
pub mod posts;
pub mod records;
pub mod renewals;
pub mod returned;
pub mod spread;
