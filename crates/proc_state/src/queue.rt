//! The letters that wait at one end.
ghost use Rattle.std.specs.Prelude.{◌≡◌, [], ◌∷◌, ◌++◌, drop, slice_get, IfOk, OnOk, OnErr, option_copied};

use std::alloc::Global;
use std::collections::VecDeque;
use std::marker::Model;
use t32_base::letter::Arrived;
use t32_base::streams::NoMemory;

/// Letters in order of arrival.
#[derive(Drop)]
pub struct Queue {
    letters: VecDeque<Arrived>,
}

impl Model for Queue {
    ghost use Rattle.std.specs.Prelude.{List};
    ghost use Rattle.t32_base.specs.declared.letter.Arrived.{Arrived};

    ghost Value = { List Arrived };

    ghost view = { λ q. q.letters.items };
}

impl Queue {
    /// No letters yet. Takes no memory.
    pub fn new(alloc: Global) -> Self
        ensures { result ≡ [] }
    {
        Queue {
            letters: VecDeque::new(alloc),
        }
    }

    /// An equal queue. The letters' texts are shared.
    pub fn copy(&self, alloc: Global) -> Result<Self, NoMemory>
        ensures { IfOk result (λ q. q ≡ self.now) }
    {
        let mut letters = VecDeque::new(alloc);
        for index in 0..self.letters.len() {
            letters.push_back(self.letters[index].copy()?)?;
        }
        Ok(Queue { letters })
    }

    /// The first letter.
    pub fn first(&self) -> Option<&Arrived>
        ensures { option_copied result ≡ slice_get self.now 0 }
    {
        self.letters.front()
    }

    /// Puts a letter last. After want of memory the queue is as it was, and the letter is dropped.
    #[inline(always)]
    pub fn push(&mut self, arrived: Arrived) -> Result<(), NoMemory>
        ensures ok { OnOk result (self.new ≡ self.old ++ arrived ∷ []) }
        ensures err { OnErr result (self.new ≡ self.old) }
    {
        self.letters.push_back(arrived)?;
        Ok(())
    }

    /// Takes the first letter out.
    pub fn take_first(&mut self) -> Option<Arrived>
        ensures taken { result ≡ slice_get self.old 0 }
        ensures left { self.new ≡ drop 1 self.old }
    {
        self.letters.pop_front()
    }
}
