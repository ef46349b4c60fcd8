//! The steps that seats take on the lock's table, and what each of them tells.
use crate::value::LogValue;
use crate::view::View;
use atomic_table::{Join, Play, Split};

/// The turn is taken, if it is free.
pub(crate) struct TakeTurn;

impl<V: LogValue> Play<Option<V>, View<V::Entry, V::Origin>> for TakeTurn {
    ghost use Rattle.bus_lock.specs.Steps.{takes_turn};

    ghost then = { takes_turn V.entries V.origin V.author };
}

/// The count becomes the length of the list of the value that the seat holds.
pub(crate) struct RaiseCount;

impl<V: LogValue> Play<Option<V>, View<V::Entry, V::Origin>> for RaiseCount {
    ghost use Rattle.bus_lock.specs.Steps.{raises_count};

    ghost then = { raises_count V.entries };
}

/// The turn is given on, with the value.
pub(crate) struct GiveTurn;

impl<W, E, O> Play<Option<W>, View<E, O>> for GiveTurn {
    ghost use Rattle.bus_lock.specs.Steps.{gives_turn};

    ghost then = { gives_turn };
}

/// A thread that sleeps until the list is longer is counted, or counted no more.
pub(crate) struct CountSleeper;

impl<W, E, O> Play<Option<W>, View<E, O>> for CountSleeper {
    ghost use Rattle.bus_lock.specs.Steps.{stays};

    ghost then = { stays };
}

/// The count is read.
pub(crate) struct LoadCount;

impl<V: LogValue> Play<Option<V>, View<V::Entry, V::Origin>> for LoadCount {
    ghost use Rattle.bus_lock.specs.Steps.{loads_count};

    ghost then = { loads_count V.author };
}

/// A new seat for the first of the numbers.
pub(crate) struct GiveFirst;

impl<E, O> Split<View<E, O>> for GiveFirst {
    ghost use Rattle.bus_lock.specs.Views.{next_of, first_of};

    ghost left = { next_of };

    ghost right = { first_of };
}

/// Two seats become one.
pub(crate) struct Both;

impl<E, O> Join<View<E, O>> for Both {
    ghost use Rattle.bus_lock.specs.Views.{joined, spent_view};

    ghost both = { joined };

    ghost spent = { spent_view };
}
