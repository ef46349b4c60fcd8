//! A value whose type keeps a fact about its list: each digit is below ten, by an invariant of its model.
ghost use Rattle.std.specs.Prelude.{◌≡◌, ◌<◌, ◌++◌, ◌∷◌, [], ℕ, List, None, All, MatchResult, IfSome, slice_get, Some};

use bus_lock::LogValue;
use std::alloc::Global;
use std::marker::Model;
use t32_base::streams::NoMemory;

mod reading;

pub use reading::first_digit;

/// Digits.
#[derive(Drop)]
pub struct Tape {
    digits: Vec<u64>,
}

impl Model for Tape {
    ghost Value = { List ℕ };

    ghost view = { λ t. t.digits.items };

    ghost invariant = { λ t. All (λ x. x < 10) t.digits.items };
}

impl Tape {
    /// No digits yet.
    pub fn new(alloc: Global) -> Tape
        ensures { result ≡ [] }
    {
        Tape {
            digits: Vec::new(alloc),
        }
    }

    /// Puts a digit last. After want of memory the tape is as it was.
    pub fn push(&mut self, digit: u64) -> Result<(), NoMemory>
        requires { digit < 10 }
        ensures { MatchResult result (λ _. self.new ≡ self.old ++ digit ∷ []) (λ _. self.new ≡ self.old) }
    {
        self.digits.push(digit)?;
        Ok(())
    }

    /// The first digit, if there is one.
    pub fn first(&self) -> Option<u64>
        ensures value { result ≡ slice_get self.now 0 }
        ensures digit { IfSome result (λ x. x < 10) }
    {
        if self.digits.is_empty() {
            None
        } else {
            Some(self.digits[0])
        }
    }
}

impl LogValue for Tape {
    type Entry = u64;

    type Origin = ();

    ghost entries = { λ t. t };

    ghost origin = { λ _. tt };

    ghost author = { λ _. None };

    fn length(&self) -> u64 {
        self.digits.len() as u64
    }
}
