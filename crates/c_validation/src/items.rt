// Items that are written to a caller's buffer.
ghost use Rattle.std.specs.Prelude.{◌≡◌};
ghost use Rattle.apollo_parser.specs.Filled.{filled};

/// Writes items to the beginning of a buffer, as far as there is room.
pub(crate) fn write<T: Copy>(buffer: &mut [T], items: &[T])
    ensures { buffer.new ≡ filled buffer.old items.now }
{
    let count = items.len().min(buffer.len());
    buffer[..count].copy_from_slice(&items[..count]);
}
