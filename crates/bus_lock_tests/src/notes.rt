//! The value behind the lock: notes, each by its writer.
ghost use Rattle.std.specs.Prelude.{◌≡◌, ℕ, ◌+◌, ◌++◌, ◌∷◌, [], List, Option, IfOk, IfErr, MatchResult, vec_len};

use bus_lock::LogValue;
use std::alloc::Global;
use t32_base::streams::NoMemory;

/// A number, and who wrote it.
#[derive(Clone, Copy, PartialEq, Eq, Debug)]
pub struct Note {
    pub by: Option<u64>,
    pub value: u64,
}

/// Notes, and what they are about.
#[derive(Drop)]
pub struct Notes {
    pub notes: Vec<Note>,
    pub topic: u64,
}

impl Notes {
    /// No notes yet.
    pub fn new(alloc: Global, topic: u64) -> Notes
        ensures { (result.notes.items ≡ []) × (result.topic ≡ topic) }
    {
        Notes {
            notes: Vec::new(alloc),
            topic,
        }
    }

    /// Puts a note last. After want of memory the notes are as they were.
    pub fn push(&mut self, note: Note) -> Result<(), NoMemory>
        ensures notes { MatchResult result (λ _. self.new.notes.items ≡ self.old.notes.items ++ note ∷ []) (λ _. self.new.notes.items ≡ self.old.notes.items) }
        ensures topic { self.new.topic ≡ self.old.topic }
    {
        self.notes.push(note)?;
        Ok(())
    }
}

impl LogValue for Notes {
    type Entry = Note;

    type Origin = u64;

    ghost entries = { λ notes. notes.notes.items };

    ghost origin = { λ notes. notes.topic };

    ghost author = { λ note. note.by };

    fn length(&self) -> u64 {
        self.notes.len() as u64
    }
}
