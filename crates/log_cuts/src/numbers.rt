//! The numbers of letters.
ghost use Rattle.std.specs.Prelude.{◌≡◌, ◌<◌, ◌++◌, true, length, IfOk, OnOk};
ghost use Rattle.log_cuts.specs.Numbers.{numbers_from, numbers_of, stands_at, without};

use proc_state::mailbox::Mailbox;
use std::alloc::Global;
use t32_base::letter::Arrived;
use t32_base::streams::NoMemory;

/// The numbers of the letters that wait in a mailbox.
pub fn numbers_waiting(alloc: Global, mail: &Mailbox) -> Result<Vec<u64>, NoMemory>
    ensures { IfOk result (λ numbers. numbers.items ≡ numbers_of mail.now.letters) }
{
    let letters = mail.listed(alloc)?;
    numbers_of(alloc, letters.as_slice())
}

// The numbers of letters.
fn numbers_of(alloc: Global, letters: &[Arrived]) -> Result<Vec<u64>, NoMemory>
    ensures { IfOk result (λ numbers. numbers.items ≡ numbers_of letters.now) }
{
    let mut numbers = Vec::new(alloc);
    for arrived in letters {
        numbers.push(arrived.number)?;
    }
    Ok(numbers)
}

/// Puts the numbers from one up to another behind others.
pub fn put_from(numbers: &mut Vec<u64>, first: u64, next: u64) -> Result<(), NoMemory>
    ensures { OnOk result (numbers.new.items ≡ numbers.old.items ++ numbers_from first next) }
{
    for number in first..next {
        numbers.push(number)?;
    }
    Ok(())
}

/// Numbers without others that stand among them in the same order.
pub fn without(alloc: Global, numbers: &[u64], others: &[u64]) -> Result<Vec<u64>, NoMemory>
    ensures { IfOk result (λ left. left.items ≡ without numbers.now others.now) }
{
    let mut left = Vec::new(alloc);
    let mut next = 0;
    for number in numbers {
        if stands_at(others, next, *number) {
            next += 1;
        } else {
            left.push(*number)?;
        }
    }
    Ok(left)
}

// Whether a number stands at this place.
fn stands_at(numbers: &[u64], place: usize, number: u64) -> bool
    ensures stands { result ≡ stands_at numbers.now place number }
    ensures within { result ≡ true → place < length numbers.now }
{
    match numbers.get(place) {
        Some(other) => *other == number,
        None => false,
    }
}
