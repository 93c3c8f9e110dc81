// What the values are that more than one crate needs. A kind has no values at run time: `Ghost` names it, and its model
// is the type of the values.
ghost use Rattle.std.specs.Prelude.{◌≡◌, ℕ, ◌+◌, List, [], ◌++◌};

use crate::value::Ghost;
use std::marker::Model;

/// A natural number, which has no greatest value.
#[derive(Drop)]
pub struct Natural {}

impl Model for Natural {
    ghost Value = { ℕ };

    ghost view = { λ _. 0 };
}

/// A list of bytes.
#[derive(Drop)]
pub struct Bytes {}

impl Model for Bytes {
    ghost Value = { List ℕ };

    ghost view = { λ _. [] };
}

impl Ghost<Natural> {
    /// Zero.
    pub fn zero() -> Ghost<Natural>
        ensures { result.value ≡ 0 }
    {
        Ghost::picked(&(), &())
    }

    /// Makes the number greater by one.
    pub fn add_one(&mut self)
        ensures { self.new.value ≡ self.old.value + 1 }
    {
        *self = Ghost::picked(self, &());
    }
}

// A text that is joined to another.
#[derive(Clone, Copy)]
struct Joined<'p> {
    text: &'p str,
}

impl Ghost<Bytes> {
    /// No bytes.
    pub fn empty() -> Ghost<Bytes>
        ensures { result.value ≡ [] }
    {
        Ghost::picked(&(), &())
    }

    /// The bytes, and those of a text after them.
    #[inline(always)]
    pub fn joined(&self, text: &str) -> Ghost<Bytes>
        ensures { result.value ≡ self.now.value ++ text.now }
    {
        let joined = Joined { text };
        Ghost::picked(self, &joined)
    }
}
