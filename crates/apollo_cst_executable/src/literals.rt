// The values of strings, integers and Booleans.
ghost use Rattle.std.specs.Prelude.{IfOk, string_bytes};

use crate::values::{BooleanValue, IntValue, StringValue};
use apollo_cst_core::{CstNode, LiteralError, string_value};
use std::alloc::{AllocError, Allocator};

impl<'t> StringValue<'t> {
    ghost use Rattle.apollo_tree.specs.Order.{text_at};
    ghost use Rattle.apollo_tree.specs.References.{node_place};
    ghost use Rattle.apollo_cst_core.specs.StringValues.{IsStringValue};

    /// The string's value: without quotes, with each escape replaced by its character, and for a block string without
    /// its common indent and its blank lines at both ends (GraphQL September 2025, "String Value").
    ///
    /// Fails only when memory is refused.
    pub fn to_string_in<A: Allocator + Copy>(&self, alloc: A) -> Result<String<A>, AllocError>
        ensures { IfOk result (λ s. IsStringValue (text_at (node_place self.now.syntax)) (string_bytes s)) }
    {
        string_value(self.syntax().text(), alloc)
    }
}

/// The number, or `LiteralError::OutOfRange` when it is not an `i32`.
impl<'t> TryFrom<IntValue<'t>> for i32 {
    type Error = LiteralError;

    ghost use Rattle.apollo_tree.specs.Order.{text_at};
    ghost use Rattle.apollo_tree.specs.References.{node_place};
    ghost use Rattle.apollo_cst_executable.specs.Literals.{GivesInt};

    ghost try_from_gives = { λ value r. GivesInt (text_at (node_place value.syntax)) r };

    fn try_from(value: IntValue<'t>) -> Result<i32, LiteralError> {
        match value.syntax().text().parse::<i32>() {
            Ok(number) => Ok(number),
            Err(_) => Err(LiteralError::OutOfRange),
        }
    }
}

impl<'a, 't> TryFrom<&'a IntValue<'t>> for i32 {
    type Error = LiteralError;

    ghost use Rattle.apollo_tree.specs.Order.{text_at};
    ghost use Rattle.apollo_tree.specs.References.{node_place};
    ghost use Rattle.apollo_cst_executable.specs.Literals.{GivesInt};

    ghost try_from_gives = { λ value r. GivesInt (text_at (node_place value.now.syntax)) r };

    fn try_from(value: &'a IntValue<'t>) -> Result<i32, LiteralError> {
        i32::try_from(*value)
    }
}

/// True for `true`, false for `false`. There is no error.
impl<'t> TryFrom<BooleanValue<'t>> for bool {
    type Error = LiteralError;

    ghost use Rattle.apollo_tree.specs.Order.{text_at};
    ghost use Rattle.apollo_tree.specs.References.{node_place};
    ghost use Rattle.apollo_cst_executable.specs.Literals.{GivesBool};

    ghost try_from_gives = { λ value r. GivesBool (text_at (node_place value.syntax)) r };

    fn try_from(value: BooleanValue<'t>) -> Result<bool, LiteralError> {
        Ok(value.syntax().text() == "true")
    }
}

impl<'a, 't> TryFrom<&'a BooleanValue<'t>> for bool {
    type Error = LiteralError;

    ghost use Rattle.apollo_tree.specs.Order.{text_at};
    ghost use Rattle.apollo_tree.specs.References.{node_place};
    ghost use Rattle.apollo_cst_executable.specs.Literals.{GivesBool};

    ghost try_from_gives = { λ value r. GivesBool (text_at (node_place value.now.syntax)) r };

    fn try_from(value: &'a BooleanValue<'t>) -> Result<bool, LiteralError> {
        bool::try_from(*value)
    }
}
