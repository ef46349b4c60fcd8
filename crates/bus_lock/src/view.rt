//! What a seat knows of the list. No value of these types is ever made.
use std::collections::LinkedList;

/// What a seat knows.
pub struct View<E, O> {
    /// False once the seat was joined into another.
    pub live: bool,
    /// The seat has the turn.
    pub inside: bool,
    /// The author that this seat alone may use.
    pub name: u64,
    /// Its name, and the numbers of the seats that were joined into it.
    pub numbers: LinkedList<u64>,
    /// The beginning of the list that it has seen.
    pub seen: LinkedList<E>,
    /// What it added, in order.
    pub own: LinkedList<E>,
    /// What it knew before its last join, until it adds entries again.
    pub left: Past<E>,
    /// What the seat knew that was joined into it last, until it adds entries again.
    pub right: Past<E>,
    /// How many entries it added, together with those joined into it.
    pub added: u64,
    /// The greatest length that it was told.
    pub told: u64,
    /// The origin of every value behind the lock.
    pub origin: Option<O>,
}

/// What a seat knew when it was joined.
pub struct Past<E> {
    pub numbers: LinkedList<u64>,
    pub seen: LinkedList<E>,
}
