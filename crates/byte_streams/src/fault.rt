// Why a run has no outcome.
ghost use Rattle.std.specs.Prelude.{◌≡◌};
ghost use Rattle.byte_streams.specs.declared.fault.Fault.TheVariants.{Memory};

use std::alloc::AllocError;

/// Why a run has no outcome.
#[derive(Clone, Copy)]
pub enum Fault {
    /// The reader failed.
    Read,
    /// What was read isn't UTF-8.
    Utf8,
    /// Memory was refused.
    Memory,
    /// The writer failed, or took no byte.
    Write,
}

impl From<AllocError> for Fault {
    ghost from_gives = { λ _ fault. fault ≡ Memory };

    fn from(_error: AllocError) -> Fault {
        Fault::Memory
    }
}
