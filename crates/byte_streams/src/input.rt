// Reading to the end.
ghost use Rattle.std.specs.Prelude.{◌≡◌, List, ℕ, IfOk, IfErr};
ghost use Rattle.byte_streams.specs.Devices.{moved, stopped};
ghost use Rattle.byte_streams.specs.EndsReading.{EndsReading};

use crate::devices::Source;
use crate::fault::Fault;
use std::alloc::Allocator;

/// All that the reader gives until its end.
#[tactic(auto, using(crate::proofs::Accounts::moved_nil, crate::proofs::Accounts::moved_moved))]
pub fn read_to_end<A: Allocator, R: Source>(alloc: A, reader: &mut R) -> Result<Vec<u8, A>, Fault>
    ensures ok { IfOk result (λ bytes. R.account reader.new ≡ stopped (moved (R.account reader.old) bytes.items)) }
    ensures err { IfErr result
        (λ fault. (input : List ℕ) × EndsReading fault (moved (R.account reader.old) input) (R.account reader.new)) }
{
    let mut bytes = Vec::new(alloc);
    let mut buffer = [0u8; 65536];
    loop {
        match reader.read(&mut buffer) {
            Ok(0) => return Ok(bytes),
            Ok(count) => bytes.extend_from_slice(&buffer[..count])?,
            Err(_) => return Err(Fault::Read),
        }
    }
}
