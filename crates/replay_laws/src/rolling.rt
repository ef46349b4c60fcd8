//! What the log says of a process that rolls forward after the loss of a cluster.
pub mod children;
pub mod rolling_on;
