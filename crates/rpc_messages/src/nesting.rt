// Whether pieces nest as those of one value of JSON.
ghost use Rattle.std.specs.Prelude.{◌≡◌, ◌∷◌, [], IfOk, IsTrue, OnOk, ◌↔◌, Some, flat_map, option_and_then};
ghost use Rattle.rpc_messages.specs.Nesting.{after_all, after_items, after_key, after_members, after_open, after_value};
ghost use Rattle.rpc_messages.specs.Nesting.{expected_in};
ghost use Rattle.rpc_messages.specs.Pieces.{tokens_of};
ghost use Rattle.rpc_messages.specs.declared.nesting.Expected.TheVariants.{Value};

use crate::pieces::Piece;
use std::alloc::{AllocError, Global};

// What may come next.
#[derive(Clone, Copy)]
enum Expected {
    // one value
    Value,
    // the values of an array, or its end
    Item,
    // the members of an object, or its end
    Member,
}

/// What may come after some pieces of a value.
#[derive(Drop)]
pub(crate) struct Nesting {
    // for each value that is open, the innermost last
    expected: Vec<Expected>,
    // whether each piece was expected
    is_sound: bool,
}

impl Nesting {
    /// One value is expected.
    pub(crate) fn new(alloc: Global) -> Result<Nesting, AllocError>
        ensures { IfOk result (λ nesting. expected_in nesting ≡ Some (Value ∷ [])) }
    {
        let mut expected = Vec::new(alloc);
        expected.push(Expected::Value)?;
        Ok(Nesting {
            expected,
            is_sound: true,
        })
    }

    // Takes a value.
    fn value(&mut self) -> Result<(), AllocError>
        ensures { OnOk result (expected_in self.new ≡ option_and_then after_value (expected_in self.old)) }
    {
        match self.expected.pop() {
            Some(Expected::Value) => Ok(()),
            Some(Expected::Item) => {
                self.expected.push(Expected::Item)?;
                Ok(())
            }
            Some(Expected::Member) | None => {
                self.is_sound = false;
                Ok(())
            }
        }
    }

    // Takes the beginning of a value, in which this is expected.
    fn begin(&mut self, inner: Expected) -> Result<(), AllocError>
        ensures { OnOk result (expected_in self.new ≡ option_and_then (after_open inner) (expected_in self.old)) }
    {
        self.value()?;
        self.expected.push(inner)?;
        Ok(())
    }

    // Takes the end of an array.
    fn end_array(&mut self)
        ensures { expected_in self.new ≡ option_and_then after_items (expected_in self.old) }
    {
        match self.expected.pop() {
            Some(Expected::Item) => {}
            Some(Expected::Value) | Some(Expected::Member) | None => self.is_sound = false,
        }
    }

    // Takes the end of an object.
    fn end_object(&mut self)
        ensures { expected_in self.new ≡ option_and_then after_members (expected_in self.old) }
    {
        match self.expected.pop() {
            Some(Expected::Member) => {}
            Some(Expected::Value) | Some(Expected::Item) | None => self.is_sound = false,
        }
    }

    // Takes the name of a member.
    fn key(&mut self) -> Result<(), AllocError>
        ensures { OnOk result (expected_in self.new ≡ option_and_then after_key (expected_in self.old)) }
    {
        match self.expected.pop() {
            Some(Expected::Member) => {
                self.expected.push(Expected::Member)?;
                self.expected.push(Expected::Value)?;
                Ok(())
            }
            Some(Expected::Value) | Some(Expected::Item) | None => {
                self.is_sound = false;
                Ok(())
            }
        }
    }

    // Takes a piece.
    #[tactic(auto, using(crate::proofs::Nested::list_of_numbers))]
    fn take(&mut self, piece: Piece<'_>) -> Result<(), AllocError>
        ensures { OnOk result (expected_in self.new ≡ after_all (tokens_of piece.entry) (expected_in self.old)) }
    {
        match piece {
            Piece::Object => self.begin(Expected::Member),
            Piece::Array => self.begin(Expected::Item),
            Piece::EndObject => {
                self.end_object();
                Ok(())
            }
            Piece::EndArray => {
                self.end_array();
                Ok(())
            }
            Piece::Key(_) => self.key(),
            Piece::Text(_) | Piece::Count(_) | Piece::Number(_) | Piece::Flag(_) | Piece::Null =>
                self.value(),
            Piece::Counts(_) => self.value(),
        }
    }

    /// Takes pieces, one after the other.
    pub(crate) fn take_all(&mut self, pieces: &[Piece<'_>]) -> Result<(), AllocError>
        ensures { OnOk result (expected_in self.new
            ≡ after_all (flat_map tokens_of pieces.now) (expected_in self.old)) }
    {
        for piece in pieces {
            self.take(*piece)?;
        }
        Ok(())
    }

    /// Whether the pieces are those of one value.
    pub(crate) fn is_whole(&self) -> bool
        ensures { IsTrue result ↔ (expected_in self.now ≡ Some []) }
    {
        self.is_sound && self.expected.is_empty()
    }
}
