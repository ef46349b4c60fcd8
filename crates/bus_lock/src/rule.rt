//! The rule of the lock's table: there is one list, and all that seats know are parts of it.
use crate::value::LogValue;
use crate::view::View;
use atomic_table::{Seat, TableRule};
use std::marker::PhantomData;
use std::snapshot::Snapshot;

/// What is fixed when a lock is made: the number of seats, and the first value, for its origin.
#[derive(Drop)]
pub struct Terms<V> {
    pub seats: u64,
    pub first: Snapshot<V>,
}

/// A seat at the table.
pub type Place<V> = Seat<Option<V>, View<<V as LogValue>::Entry, <V as LogValue>::Origin>>;

/// The rule: there is one list, and all that seats know are parts of it.
pub struct OneList<V> {
    value: PhantomData<V>,
}

impl<V: LogValue> TableRule<Option<V>, View<V::Entry, V::Origin>, Terms<V>> for OneList<V> {
    ghost use Rattle.bus_lock.specs.Rule.{Kept};
    ghost use Rattle.bus_lock.specs.Views.{first_view};

    ghost holds = { λ terms. Kept V.entries V.origin V.author terms.seats (V.origin terms.first.value) };

    ghost first = { λ terms. first_view terms.seats (V.origin terms.first.value) };
}
