//! What is left of a queue after some of its letters were read.
use backup_queue::{drop_read, save};
use std::alloc::Global;
use std::test::Fail;
use t32_base::letter::{Arrived, Body, Letter, To};
use t32_base::lists::List;
use t32_base::process::Pid;
use t32_base::shared_bytes::SharedBytes;
use t32_base::streams::NoMemory;
use test_asserts::same;

// A letter of some bytes from end 1 of the process 17 to end 1 of the process 16.
fn said(alloc: Global, bytes: &[u8]) -> Result<Letter, NoMemory> {
    Ok(Letter {
        from: Pid(17),
        out: 1,
        to: To::Proc(Pid(16), 1),
        body: Body::Said(SharedBytes::copy_of(alloc, bytes)?),
    })
}

fn save_said(queue: &mut List<Arrived>, bytes: &[u8], number: u64) -> Result<(), NoMemory> {
    let letter = said(queue.allocator(), bytes)?;
    save(queue, letter, number)
}

fn save_two(queue: &mut List<Arrived>) -> Result<(), NoMemory> {
    save_said(queue, b"x", 0)?;
    save_said(queue, b"\n", 1)
}

// The number of a letter, its sender, and what it says, if that is one byte.
type Told = (u64, Pid, Option<u8>);

fn only_byte(bytes: &[u8]) -> Option<u8> {
    match bytes {
        [byte] => Some(*byte),
        _ => None,
    }
}

fn told(arrived: &Arrived) -> Told {
    let byte = match &arrived.letter.body {
        Body::Said(bytes) => only_byte(bytes.as_slice()),
        Body::EndOf | Body::Signal(_) => None,
    };
    (arrived.number, arrived.letter.from, byte)
}

// What is told of a queue of two letters.
fn two_told(queue: &[Arrived]) -> Option<(Told, Told)> {
    match queue {
        [first, second] => Some((told(first), told(second))),
        _ => None,
    }
}

const TWO: Option<(Told, Told)> = Some(((0, Pid(17), Some(b'x')), (1, Pid(17), Some(b'\n'))));

#[test]
fn letters_are_saved_in_order_with_what_they_say(rt: HostRuntime) -> Result<(), Fail> {
    let mut queue = List::new(rt.alloc());
    save_two(&mut queue)?;
    same("the letters", &two_told(queue.as_slice()), &TWO)
}

// Saves letters with these arrival numbers.
fn save_each(queue: &mut List<Arrived>, numbers: &[u64]) -> Result<(), NoMemory> {
    for number in numbers {
        save_said(queue, b"x", *number)?;
    }
    Ok(())
}

// The letters of a queue have just these arrival numbers, in this order.
fn assert_numbers(queue: &[Arrived], numbers: &[u64]) -> Result<(), Fail> {
    same("how many letters are left", &queue.len(), &numbers.len())?;
    for (arrived, number) in queue.iter().zip(numbers) {
        same("the number of a letter", &arrived.number, number)?;
    }
    Ok(())
}

// Just these are left of a queue with the letters saved, once those read are dropped.
fn assert_left(alloc: Global, saved: &[u64], read: &[u64], left: &[u64]) -> Result<(), Fail> {
    let mut queue = List::new(alloc);
    save_each(&mut queue, saved)?;
    drop_read(&mut queue, read);
    assert_numbers(queue.as_slice(), left)
}

// The numbers saved, those read, and those left.
static DROPPED: [(&[u64], &[u64], &[u64]); 6] = [
    (&[0, 1], &[0, 1], &[]),
    (&[3, 4, 5, 6], &[5, 3], &[4, 6]),
    (&[3, 4, 5], &[], &[3, 4, 5]),
    (&[3, 4, 5], &[2, 6], &[3, 4, 5]),
    (&[7, 8, 9], &[9], &[7, 8]),
    (&[], &[1], &[]),
];

#[test]
fn the_letters_that_were_read_are_dropped_wherever_they_stand(rt: HostRuntime) -> Result<(), Fail> {
    for row in DROPPED.iter() {
        assert_left(rt.alloc(), row.0, row.1, row.2)?;
    }
    Ok(())
}
