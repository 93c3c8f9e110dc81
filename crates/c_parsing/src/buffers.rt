// Buffers that are filled bit by bit.
ghost use Rattle.std.specs.Prelude.{◌≡◌, ℕ, List, ◌++◌, length};
ghost use Rattle.c_parsing.specs.Outcomes.{OK};
ghost use Rattle.apollo_parser.specs.Filled.{filled};

use crate::rows::{ByteCount, status};

// Writes bytes at an offset, as far as there is room. The buffer was filled up to there.
pub fn append(buffer: &mut [u8], at: usize, bytes: &[u8])
    ensures { (before written : List ℕ) → length written ≡ at → buffer.old ≡ filled before written
        → buffer.new ≡ filled before (written ++ bytes.now) }
{
    if at < buffer.len() {
        let count = bytes.len().min(buffer.len() - at);
        buffer[at..at + count].copy_from_slice(&bytes[..count]);
    }
}

// A text that was written to the beginning of a buffer, as far as there is room.
pub fn written(buffer: &mut [u8], text: &str) -> ByteCount
    ensures buffer { buffer.new ≡ filled buffer.old text.now }
    ensures count { result ≡ record { bytes = length text.now; status = OK } }
{
    let count = text.len().min(buffer.len());
    buffer[..count].copy_from_slice(&text.as_bytes()[..count]);
    ByteCount {
        bytes: text.len(),
        status: status::OK,
    }
}

// Nothing was written.
pub fn refused(status: u32) -> ByteCount
    ensures { result ≡ record { bytes = 0; status = status } }
{
    ByteCount { bytes: 0, status }
}
