//! The lock.
ghost use Rattle.std.specs.Prelude.{◌≡◌, ◌≢◌, ◌+◌, ◌^◌, ◌<◌, ◌≤◌, ◌∷◌, ◌++◌, [], true, false, Some, None, All, drop, length, max, ℕ, suc, IfOk, vec_len};
ghost use mathlib.Core.List.{IsPrefix};
ghost use Rattle.atomic_table.specs.Table.{rest};
ghost use Rattle.bus_lock.specs.Lists.{Holds, MayAdd, entries_by, numbers_from};
ghost use Rattle.bus_lock.specs.Views.{Shows, Joined, Remembers, new_view, entered, gone, grown, informed, retold, next_of, first_of};

use crate::rule::{OneList, Place, Terms};
use crate::seat::LogSeat;
use crate::steps::{Both, CountSleeper, GiveFirst, GiveTurn, LoadCount, RaiseCount, TakeTurn};
use crate::value::LogValue;
use crate::view::View;
use atomic_table::{Refused, Table};
use std::alloc::Global;
use std::snapshot::Snapshot;
use std::sync::Wait;
use t32_base::lists::List;
use t32_base::streams::NoMemory;

// Word 0: 0 where no seat has the turn, 1 where one has, 2 where others may sleep.
const TURN: usize = 0;

// Word 1: the length of the list.
const COUNT: usize = 1;

// Word 2: how many threads sleep in `wait_past`, or are about to.
//
// No wake-up is lost, since all steps on the words stand in one order. Who is to sleep raises this word, looks
// at COUNT and then sleeps; who makes the list longer raises COUNT, looks at this word and then wakes. If the
// first does not see the new count, it looked before COUNT was raised, and so had raised this word before the
// other looks at it; it lowers it only after its sleep. So it is woken, or it was still on its way to sleep: then
// the operating system, which compares COUNT once more, does not let it sleep.
const SLEEPERS: usize = 2;

/// A lock round a value. Every thread that is to use it holds a seat of it.
#[derive(Drop)]
pub struct LogLock<V: LogValue> {
    table: Table<Option<V>, View<V::Entry, V::Origin>, Terms<V>, OneList<V>, Global>,
    ghost shape: { (table.shared.table_id.words ≡ 3) × (table.shared.table_id.slots ≡ 1) },
}

// Puts a value last.
fn add<T: Drop>(all: &mut Vec<T>, one: T) -> Result<(), NoMemory>
    ensures items { IfOk result (λ _. all.new.items ≡ all.old.items ++ one ∷ []) }
    ensures count { IfOk result (λ _. vec_len all.new ≡ vec_len all.old + 1) }
{
    all.push(one)?;
    Ok(())
}

// A vector of one value.
fn alone<T: Drop>(alloc: Global, one: T) -> Result<Vec<T>, NoMemory>
    ensures { IfOk result (λ all. all.items ≡ one ∷ []) }
{
    let mut all = Vec::new(alloc);
    add(&mut all, one)?;
    Ok(all)
}

impl<V: LogValue> LogLock<V> {
    ghost use Rattle.bus_lock.specs.Seats.{AllFresh, added, seat_count, view_of, name, numbers, has_entered, seen, own, told, seat_origin, IsOf};

    // The length of the list at some moment, which the seat is then told.
    fn load_count(&self, seat: &mut LogSeat<V>) -> u64
        requires { seat.old.seat.table_id ≡ self.now.table.shared.table_id }
        ensures seat { (seat.new.seat.table_id ≡ seat.old.seat.table_id) × (seat.new.seat.id ≡ seat.old.seat.id) × (seat.new.seat.me ≡ (informed seat.old.seat.me.0 result, seat.old.seat.me.1)) }
        ensures past { let view = seat.old.seat.me.0 in Remembers V.author view view.left × Remembers V.author view view.right }
    {
        self.table.shared.load::<LoadCount>(&mut seat.seat, COUNT)
    }

    // The value of a seat that has just taken the turn.
    fn take_out(&self, place: &mut Place<V>) -> V
        requires own { place.old.table_id ≡ self.now.table.shared.table_id }
        requires held { (value : V) × (place.old.me.1 ≡ (0, Some value) ∷ []) }
        ensures place { (place.new.table_id ≡ place.old.table_id) × (place.new.id ≡ place.old.id) }
        ensures value { (place.old.me.1 ≡ (0, Some result) ∷ []) × (place.new.me ≡ (place.old.me.0, (0, None) ∷ [])) }
    {
        match self.table.shared.exchange(place, 0, None) {
            Some(value) => value,
            None => unreachable!(),
        }
    }

    /// Waits for the turn, asleep and not spinning, and hands out the value.
    ///
    /// The value has the seat's origin. Its list begins with what the seat had seen and is at least as long
    /// as it was told; by each number that the seat holds it has no entry that the seat had not seen; by the
    /// seat's name it has exactly the seat's own entries, in order. The seat has then seen the whole list.
    pub fn enter<R: Wait>(&self, rt: &R, seat: &mut LogSeat<V>) -> V
        requires of { IsOf self.now seat.old }
        requires out { has_entered seat.old ≡ false }
        ensures of { IsOf self.now seat.new }
        ensures seat { view_of seat.new ≡ entered (view_of seat.old) (V.entries result) }
        ensures value { Shows V.entries V.origin V.author (view_of seat.old) result }
    {
        let shared = &self.table.shared;
        if shared.compare_exchange::<TakeTurn>(&mut seat.seat, TURN, 0, 1) == 0 {
            return self.take_out(&mut seat.seat);
        }
        for _ in rt.forever() {
            if shared.swap::<TakeTurn>(&mut seat.seat, TURN, 2) == 0 {
                return self.take_out(&mut seat.seat);
            }
            shared.park(rt, TURN, 2);
        }
        unreachable!()
    }

    /// Puts the value back and gives the turn on. Waits for nobody.
    ///
    /// The list may be longer than at `enter`, by entries that have no author or the seat's name as their
    /// author. They become the seat's own, and the seat has then seen the whole list.
    pub fn leave(&self, seat: &mut LogSeat<V>, value: V)
        requires of { IsOf self.now seat.old }
        requires entered { has_entered seat.old ≡ true }
        requires origin { seat_origin seat.old ≡ Some (V.origin value) }
        requires longer { IsPrefix (seen seat.old) (V.entries value) }
        requires fits { length (V.entries value) < 2 ^ 64 }
        requires added { All (MayAdd V.author (name seat.old)) (drop (length (seen seat.old)) (V.entries value)) }
        ensures of { IsOf self.now seat.new }
        ensures seat { view_of seat.new ≡ gone (grown (view_of seat.old) (V.entries value)) }
    {
        let length = value.length();
        let shared = &self.table.shared;
        match shared.exchange(&mut seat.seat, 0, Some(value)) {
            None => (),
            Some(_) => unreachable!(),
        }
        let before = shared.swap::<RaiseCount>(&mut seat.seat, COUNT, length);
        let turn = shared.swap::<GiveTurn>(&mut seat.seat, TURN, 0);
        if turn == 2 {
            shared.wake_one(TURN);
        }
        if before != length && shared.peek(SLEEPERS) != 0 {
            shared.wake_all(COUNT);
        }
    }

    // A seat for the first of the numbers that the other has.
    fn split(&self, rest: &mut LogSeat<V>) -> LogSeat<V>
        requires of { IsOf self.now rest.old }
        requires numbers { (n : ℕ) × (numbers rest.old ≡ numbers_from (name rest.old) (suc (suc n))) }
        requires fresh { (has_entered rest.old ≡ false) × (seen rest.old ≡ []) × (own rest.old ≡ []) }
        ensures of { IsOf self.now rest.new × IsOf self.now result }
        ensures rest { view_of rest.new ≡ next_of (view_of rest.old) }
        ensures given { view_of result ≡ first_of (view_of rest.old) }
    {
        let seat = self.table.shared.split_seat::<GiveFirst>(&mut rest.seat);
        LogSeat { seat }
    }

    // The lock, and the one seat that has every number.
    fn open(alloc: Global, value: V, seats: u32) -> Result<(LogLock<V>, LogSeat<V>), NoMemory>
    where
        V: Drop,
        requires some_seat { 0 < seats }
        requires empty { V.entries value ≡ [] }
        ensures { IfOk result (λ r. IsOf r.0 r.1 × (view_of r.1 ≡ new_view 0 seats (Some (V.origin value))) × (seat_count r.0 ≡ seats)) }
    {
        let terms = Terms {
            seats: seats as u64,
            first: Snapshot::of(&value),
        };
        let slots = alone(alloc, Some(value))?;
        match Table::new(alloc, &[0, 0, 0], slots, &terms) {
            Ok((table, seat)) => Ok((LogLock { table }, LogSeat { seat })),
            Err(Refused { slots: _ }) => Err(NoMemory),
        }
    }

    // A seat for each number, made from the one that has them all.
    fn deal(
        &self,
        alloc: Global,
        first: LogSeat<V>,
        seats: u32,
    ) -> Result<Vec<LogSeat<V>>, NoMemory>
        requires some_seat { 0 < seats }
        requires of { IsOf self.now first }
        requires new { view_of first ≡ new_view 0 seats (seat_origin first) }
        ensures count { IfOk result (λ given. vec_len given ≡ seats) }
        ensures seats { IfOk result (λ given. AllFresh self.now (seat_origin first) given.items) }
    {
        let mut rest = first;
        let mut given = Vec::new(alloc);
        for _name in 0..seats - 1 {
            let seat = self.split(&mut rest);
            add(&mut given, seat)?;
        }
        add(&mut given, rest)?;
        Ok(given)
    }

    /// A lock round a value whose list is empty, and its seats.
    ///
    /// The seat at place i has the name i, holds the number i alone, has seen nothing and knows the value's
    /// origin. Where memory is refused, the value is dropped.
    pub fn with_seats(
        alloc: Global,
        value: V,
        seats: u32,
    ) -> Result<(LogLock<V>, List<LogSeat<V>>), NoMemory>
    where
        V: Drop,
        requires some_seat { 0 < seats }
        requires empty { V.entries value ≡ [] }
        ensures count { IfOk result (λ r. (length r.1 ≡ seats) × (seat_count r.0 ≡ seats)) }
        ensures seats { IfOk result (λ r. AllFresh r.0 (Some (V.origin value)) r.1) }
    {
        let (lock, first) = LogLock::open(alloc, value, seats)?;
        let given = lock.deal(alloc, first, seats)?;
        Ok((lock, List::from_vec(given)))
    }

    /// Waits until the list is longer than `length`, asleep and not spinning, and answers how long it then was.
    ///
    /// The seat is told that length: the list of its next `enter` is at least that long. Nothing else that
    /// the seat knows changes, and it does not take the turn.
    pub fn wait_past<R: Wait>(&self, rt: &R, seat: &mut LogSeat<V>, length: u64) -> u64
        requires of { IsOf self.now seat.old }
        ensures of { IsOf self.now seat.new }
        ensures past { length < result }
        ensures told { (result ≤ told seat.new) × (told seat.old ≤ told seat.new) }
        ensures same { view_of seat.new ≡ retold (view_of seat.old) (told seat.new) }
    {
        let seen = self.load_count(seat);
        if seen > length {
            return seen;
        }
        let shared = &self.table.shared;
        shared.fetch_add::<CountSleeper>(&mut seat.seat, SLEEPERS, 1);
        for _ in rt.forever() {
            let count = self.load_count(seat);
            if count > length {
                // The one way out after the raise.
                shared.fetch_sub::<CountSleeper>(&mut seat.seat, SLEEPERS, 1);
                return count;
            }
            shared.park(rt, COUNT, (count % (1 << 32)) as u32);
        }
        unreachable!()
    }

    /// How long the list is at some moment. Waits for nobody and does not take the turn.
    ///
    /// The seat is told that length, and nothing else that it knows changes.
    pub fn length_now(&self, seat: &mut LogSeat<V>) -> u64
        requires of { IsOf self.now seat.old }
        ensures of { IsOf self.now seat.new }
        ensures told { (result ≤ told seat.new) × (told seat.old ≤ told seat.new) }
        ensures same { view_of seat.new ≡ retold (view_of seat.old) (told seat.new) }
    {
        self.load_count(seat)
    }

    /// Joins another seat of this lock into a seat. Waits for nobody.
    ///
    /// The seat then holds the numbers of both and has seen the longer of what both had seen, which begins
    /// with the shorter. By a number that one of them held this has exactly the entries that that one had
    /// seen. Name, own entries and origin stay.
    pub fn join(&self, seat: &mut LogSeat<V>, other: LogSeat<V>)
        requires of { IsOf self.now seat.old × IsOf self.now other }
        requires out { (has_entered seat.old ≡ false) × (has_entered other ≡ false) }
        ensures of { IsOf self.now seat.new }
        ensures joined { Joined V.author (view_of seat.old) (view_of other) (view_of seat.new) }
    {
        self.table
            .shared
            .join_seat::<Both>(&mut seat.seat, other.into_place());
        self.load_count(seat);
    }

    /// Takes the value out of a lock all whose seats were joined into this one. Waits for nobody and takes no
    /// memory.
    ///
    /// The value is as at `enter`. By each number that `with_seats` gave, its list has exactly the entries that
    /// the seat had seen, and it is as long as all seats together added.
    pub fn close(self, seat: LogSeat<V>) -> V
        requires of { IsOf self seat }
        requires all { (number : ℕ) → number < seat_count self → Holds number (numbers seat) }
        requires out { has_entered seat ≡ false }
        ensures value { Shows V.entries V.origin V.author (view_of seat) result }
        ensures known { (number : ℕ) → number < seat_count self → entries_by V.author number (V.entries result) ≡ entries_by V.author number (seen seat) }
        ensures all { length (V.entries result) ≡ added seat }
    {
        let LogLock { table } = self;
        let mut closed = table.close_with(seat.into_place());
        let slot = closed.take(0);
        closed.free();
        match slot {
            Some(value) => value,
            None => unreachable!(),
        }
    }
}
