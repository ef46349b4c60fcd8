//! The saved letters that were read are taken from the fronts of the ends, so that the others are not walked.
ghost use Rattle.std.specs.Prelude.{◌≡◌, ◌≤◌, ◌<◌, ◌==◌, true, false, length, position, MatchOption, IfSome};
ghost use Rattle.std.specs.List.{list_any};
ghost use Rattle.std.specs.Option.{option_copied, IsSomeAnd};
ghost use Rattle.backup_queue.specs.Fronts.{AreFronts, AreOnEnds, Drops, NoneReadOn};
ghost use Rattle.backup_queue.specs.Queue.{is_unread, unread};

use proc_state::mailbox::Mailbox;
use t32_base::letter::Arrived;

// Drops each letter whose number is one of those read. Takes no memory.
pub(crate) fn drop_fronts(saved: &mut Mailbox, read: &[u64])
    requires fronts { AreFronts read.now saved.old.letters }
    requires ends { AreOnEnds read.now saved.old.letters }
    ensures { saved.new ≡ record saved.old { letters = unread read.now saved.old.letters } }
{
    for end in 0..32 {
        drop_on(saved, end, read);
    }
}

// Takes the letters for an end that were read. They are looked up in the order of reading, from the last
// that was found on, so that a walk over the numbers serves all of them.
fn drop_on(saved: &mut Mailbox, end: u8, read: &[u64])
    requires fronts { AreFronts read.now saved.old.letters }
    ensures drops { Drops read.now saved.old saved.new }
    ensures none { NoneReadOn read.now end saved.new.letters }
{
    let mut from = 0;
    while let Some(place) = place_read(saved.first_on(end), read, from) {
        saved.take_on(end);
        from = place + 1;
    }
}

// Where a letter stands among those read, if it is there.
fn place_read(first: Option<&Arrived>, read: &[u64], from: usize) -> Option<usize>
    requires within { from ≤ length read.now }
    ensures none { MatchOption result (IfSome (option_copied first.entry) (λ arrived. is_unread read.now arrived ≡ true)) (λ place. IsSomeAnd (option_copied first.entry) (λ arrived. is_unread read.now arrived ≡ false)) }
    ensures place { IfSome result (λ place. place < length read.now) }
{
    place_of(first?.number, read, from)
}

// Where a number stands among those read, if it is there, looked for from a place on and then before it.
fn place_of(number: u64, read: &[u64], from: usize) -> Option<usize>
    requires within { from ≤ length read.now }
    ensures found { MatchOption result (list_any (λ n. n == number) read.now ≡ false) (λ place. list_any (λ n. n == number) read.now ≡ true) }
    ensures place { IfSome result (λ place. place < length read.now) }
{
    match position_in(&read[from..], number) {
        Some(ahead) => Some(from + ahead),
        None => position_in(&read[..from], number),
    }
}

fn position_in(numbers: &[u64], number: u64) -> Option<usize>
    ensures { result ≡ position (λ n. n == number) numbers.now }
{
    numbers.iter().position(|n| *n == number)
}
