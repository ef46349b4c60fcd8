//! Logs with the same printed lines differ in no more than an order: laws and no code.
#![tactic(auto)]

pub mod alike;
