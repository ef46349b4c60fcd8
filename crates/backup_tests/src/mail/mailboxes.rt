//! Letters that are taken out of a mailbox.
use proc_state::mailbox::Mailbox;
use std::alloc::Global;
use std::test::Fail;
use t32_base::letter::{Arrived, Body, Letter, To};
use t32_base::process::{EndState, Pid};
use t32_base::streams::NoMemory;
use test_asserts::same;

fn letter(to: To) -> Letter {
    Letter {
        from: Pid(17),
        out: 1,
        to,
        body: Body::EndOf,
    }
}

fn receive(mailbox: &mut Mailbox, to: To) -> Result<(), NoMemory> {
    if mailbox.next() == u64::MAX {
        return Err(NoMemory);
    }
    mailbox.receive(letter(to))
}

// A letter comes for each of these ends of the process 16.
fn receive_for(mailbox: &mut Mailbox, ends: &[u8]) -> Result<(), NoMemory> {
    for end in ends {
        receive(mailbox, To::Proc(Pid(16), *end))?;
    }
    Ok(())
}

fn mailbox_of(alloc: Global, ends: &[u8]) -> Result<Mailbox, NoMemory> {
    let mut mailbox = Mailbox::new(alloc);
    receive_for(&mut mailbox, ends)?;
    Ok(mailbox)
}

const LINKED: EndState = EndState::Linked {
    peer: Pid(17),
    far: 1,
    finished: false,
};

// The ends of a process of which these are linked, end 0 is a terminal and end 3, if not linked, is shut.
fn ends_with(linked: &[u8]) -> [EndState; 32] {
    let mut ends = [EndState::Never; 32];
    ends[0] = EndState::Tty(0);
    ends[3] = EndState::Shut;
    for number in linked {
        if let Some(end) = ends.get_mut(usize::from(*number)) {
            *end = LINKED;
        }
    }
    ends
}

// The numbers of letters: of the first for an end, or for a linked one; and of those that are taken out.
fn first_on(mailbox: &Mailbox, end: u8) -> Option<u64> {
    Some(mailbox.first_on(end)?.number)
}

fn first_linked(mailbox: &Mailbox, ends: &[EndState; 32]) -> Option<u64> {
    Some(mailbox.first_linked(ends)?.number)
}

fn number_of(arrived: Option<Arrived>) -> Option<u64> {
    Some(arrived?.number)
}

fn take_on(mailbox: &mut Mailbox, end: u8) -> Option<u64> {
    number_of(mailbox.take_on(end))
}

fn end_of(to: To) -> u8 {
    match to {
        To::Proc(_, end) => end,
        To::Tty(_) => 0,
    }
}

fn take_linked(mailbox: &mut Mailbox, ends: &[EndState; 32]) -> Option<u64> {
    let end = end_of(mailbox.first_linked(ends)?.letter.to);
    take_on(mailbox, end)
}

// The first letter for end 1, and three takes from it; the first for a linked end, and a take from one.
type Early = ([Option<u64>; 4], [Option<u64>; 2]);

fn read_early(mailbox: &mut Mailbox, linked: &[EndState; 32]) -> Early {
    let on_one = [
        first_on(mailbox, 1),
        take_on(mailbox, 1),
        take_on(mailbox, 1),
        take_on(mailbox, 1),
    ];
    (
        on_one,
        [first_linked(mailbox, linked), take_linked(mailbox, linked)],
    )
}

// The letters are counted on; one for a terminal is on end 0.
fn receive_late(mailbox: &mut Mailbox) -> Result<(), NoMemory> {
    receive(mailbox, To::Tty(7))?;
    receive(mailbox, To::Proc(Pid(16), 5))
}

// Three takes from linked ends and one from end 0.
fn read_late(mailbox: &mut Mailbox, linked: &[EndState; 32]) -> [Option<u64>; 4] {
    [
        take_linked(mailbox, linked),
        take_linked(mailbox, linked),
        take_linked(mailbox, linked),
        take_on(mailbox, 0),
    ]
}

// A take from end 200, whether no letter is left then, and the number of the next one.
fn read_last(mailbox: &mut Mailbox) -> (Option<u64>, bool, u64) {
    let taken = take_on(mailbox, 200);
    (taken, mailbox.is_empty(), mailbox.next())
}

const EARLY: Early = ([Some(0), Some(0), Some(2), None], [Some(1), Some(1)]);

static LATE: [Option<u64>; 4] = [Some(4), Some(6), None, Some(5)];

fn assert_reads(mailbox: &mut Mailbox) -> Result<(), Fail> {
    let linked = ends_with(&[2, 5]);
    let early = EARLY;
    same("the early letters", &read_early(mailbox, &linked), &early)?;
    receive_late(mailbox)?;
    same("the late letters", &read_late(mailbox, &linked), &LATE)?;
    same("how many are left", &mailbox.len(), &1)?;
    same("the last", &read_last(mailbox), &(Some(3), true, 7))
}

#[test]
fn letters_are_read_by_end_in_order_of_arrival(rt: HostRuntime) -> Result<(), Fail> {
    let mut mailbox = mailbox_of(rt.alloc(), &[1, 2, 1, 200, 2])?;
    assert_reads(&mut mailbox)
}

// The letters that are taken from linked ends have just these numbers, in this order.
fn assert_gives(mailbox: &mut Mailbox, ends: &[EndState; 32], numbers: &[u64]) -> Result<(), Fail> {
    for number in numbers {
        same("a letter", &take_linked(mailbox, ends), &Some(*number))?;
    }
    same("no further letter", &take_linked(mailbox, ends), &None)
}

fn assert_linked(alloc: Global, linked: &[u8], numbers: &[u64]) -> Result<(), Fail> {
    let ends = ends_with(linked);
    let mut mailbox = mailbox_of(alloc, &[3, 1, 2, 1, 31, 0, 2, 32])?;
    assert_gives(&mut mailbox, &ends, numbers)
}

// The linked ends, and the numbers of the letters that are taken, one after the other.
static TAKEN: [(&[u8], &[u64]); 7] = [
    (&[1, 2, 3, 31], &[0, 1, 2, 3, 4, 6]),
    (&[31, 2, 1], &[1, 2, 3, 4, 6]),
    (&[1], &[1, 3]),
    (&[2, 31], &[2, 4, 6]),
    (&[31, 30], &[4]),
    (&[4], &[]),
    (&[], &[]),
];

#[test]
fn the_first_letter_of_several_linked_ends_is_taken(rt: HostRuntime) -> Result<(), Fail> {
    for row in TAKEN.iter() {
        assert_linked(rt.alloc(), row.0, row.1)?;
    }
    Ok(())
}

static TWENTY: [u8; 20] = [
    1, 2, 3, 4, 5, 6, 7, 8, 9, 10, 11, 12, 13, 14, 15, 16, 17, 18, 19, 20,
];

fn receive_many(mailbox: &mut Mailbox) -> Result<(), NoMemory> {
    for _ in 0..5000 {
        receive_for(mailbox, &TWENTY)?;
    }
    Ok(())
}

// The first of 50 000 numbers that is not that of the letter taken.
fn first_wrong(mailbox: &mut Mailbox) -> Option<u64> {
    let all = ends_with(&TWENTY);
    for number in 0..50_000 {
        if take_linked(mailbox, &all) != Some(number) {
            return Some(number);
        }
    }
    None
}

// Whether each of the twenty ends has a letter, which is taken.
fn takes_each(mailbox: &mut Mailbox) -> bool {
    for end in TWENTY.iter() {
        if take_on(mailbox, *end).is_none() {
            return false;
        }
    }
    true
}

fn takes_rest(mailbox: &mut Mailbox) -> bool {
    for _ in 0..2500 {
        if !takes_each(mailbox) {
            return false;
        }
    }
    true
}

// What the first half shows, what the rest, and whether none is left.
fn read_many(mailbox: &mut Mailbox) -> (Option<u64>, bool, bool) {
    let wrong = first_wrong(mailbox);
    let rest = takes_rest(mailbox);
    (wrong, rest, mailbox.is_empty())
}

#[test]
fn many_letters_are_read_in_time_linear_in_them(rt: HostRuntime) -> Result<(), Fail> {
    let mut mailbox = Mailbox::new(rt.alloc());
    receive_many(&mut mailbox)?;
    same("the letters", &read_many(&mut mailbox), &(None, true, true))
}

// Letters came for the ends 5, 1, 5, 2 and 1, and the first for end 1 was taken out.
fn four_left(alloc: Global) -> Result<Mailbox, NoMemory> {
    let mut mailbox = mailbox_of(alloc, &[5, 1, 5, 2, 1])?;
    mailbox.take_on(1);
    Ok(mailbox)
}

fn four_numbers(letters: &[Arrived]) -> Option<[u64; 4]> {
    match letters {
        [a, b, c, d] => Some([a.number, b.number, c.number, d.number]),
        _ => None,
    }
}

// Its letters in order, and the number that the next letter gets.
fn listed(alloc: Global, mailbox: &Mailbox) -> Result<(Option<[u64; 4]>, u64), NoMemory> {
    let letters = mailbox.listed(alloc)?;
    Ok((four_numbers(letters.as_slice()), mailbox.next()))
}

fn assert_listed(alloc: Global, mailbox: &Mailbox) -> Result<(), Fail> {
    let left = (Some([0, 2, 3, 4]), 5);
    same("the letters", &listed(alloc, mailbox)?, &left)
}

// A mailbox that is made of them.
fn made_of_listed(alloc: Global, mailbox: &Mailbox) -> Result<Mailbox, NoMemory> {
    let letters = mailbox.listed(alloc)?;
    Mailbox::of(alloc, letters.as_slice(), mailbox.next())
}

fn assert_made(alloc: Global, mailbox: &Mailbox) -> Result<(), Fail> {
    assert_listed(alloc, mailbox)?;
    let made = made_of_listed(alloc, mailbox)?;
    assert_listed(alloc, &made)
}

#[test]
fn letters_are_listed_in_order_and_make_an_equal_mailbox(rt: HostRuntime) -> Result<(), Fail> {
    let mailbox = four_left(rt.alloc())?;
    assert_made(rt.alloc(), &mailbox)
}
