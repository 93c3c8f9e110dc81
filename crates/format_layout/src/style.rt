// How block strings are spelled.
ghost use Rattle.format_layout.specs.declared.style.WriteError.TheVariants.{Memory};
ghost use Rattle.std.specs.Prelude.{◌≡◌};

use std::alloc::{AllocError, Allocator};

/// Why a text is not written.
#[derive(Clone, Copy)]
pub enum WriteError {
    /// Memory was refused.
    Memory,
    /// It has more bytes than are allowed.
    TooLong,
}

impl From<AllocError> for WriteError {
    ghost from_gives = { λ _ error. error ≡ Memory };

    fn from(_error: AllocError) -> WriteError {
        WriteError::Memory
    }
}

/// A way to spell block strings. Nothing is promised of it: `spelled` compares the values.
pub trait BlockStyle {
    /// A block string with this value, unless it has more bytes than the style allows.
    fn block_text<A: Allocator>(&self, alloc: A, value: &str) -> Result<String<A>, WriteError>;
}
