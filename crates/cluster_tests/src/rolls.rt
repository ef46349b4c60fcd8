//! Tests of processes that roll forward, by themselves and as residents of a cluster, and of residents that come after their children.
#[cfg(test)]
mod at_home;
#[cfg(test)]
mod rolls;
