//! What a backup keeps of a process, and the letters that it saves until a synchronisation says which of them were read.
#![tactic(auto)]

mod fronts;
pub mod reading;
pub mod record;

ghost use Rattle.std.specs.Prelude.{◌≡◌, OnOk, OnErr};
ghost use Rattle.backup_queue.specs.Queue.{saved_with, unread};

use std::mem;
use t32_base::letter::{Arrived, Letter};
use t32_base::lists::List;
use t32_base::streams::NoMemory;

/// Saves a letter: it is put last, with its arrival number. After want of memory the queue is as it was,
/// and the letter is dropped.
pub fn save(queue: &mut List<Arrived>, letter: Letter, number: u64) -> Result<(), NoMemory>
    ensures ok { OnOk result (queue.new ≡ saved_with queue.old letter number) }
    ensures err { OnErr result (queue.new ≡ queue.old) }
{
    queue.push(Arrived { number, letter })?;
    Ok(())
}

/// Drops each letter whose arrival number is one of those read, and keeps the others in order. Takes no
/// memory.
pub fn drop_read(queue: &mut List<Arrived>, read: &[u64])
    ensures { queue.new ≡ unread read.now queue.old }
{
    let none = List::new(queue.allocator());
    let mut letters = mem::replace(queue, none).into_vec();
    letters.retain(|arrived| !read.contains(&arrived.number));
    *queue = List::from_vec(letters);
}
