// Writing to the end.
ghost use Rattle.std.specs.Prelude.{◌≡◌, IfErr, OnOk};
ghost use Rattle.byte_streams.specs.Devices.{moved};
ghost use Rattle.byte_streams.specs.Writing.{EndsWriting};

use crate::devices::Sink;
use crate::fault::Fault;

/// Writes all of the bytes, one call after the other.
#[tactic(auto, using(crate::proofs::Accounts::taken_none, crate::proofs::Accounts::taken_call, crate::proofs::Accounts::taken_all, crate::proofs::Accounts::taken_failed, crate::proofs::Accounts::taken_stopped))]
pub fn write_all<W: Sink>(writer: &mut W, bytes: &[u8]) -> Result<(), Fault>
    ensures ok { OnOk result (W.account writer.new ≡ moved (W.account writer.old) bytes.now) }
    ensures err { IfErr result (λ fault. EndsWriting fault bytes.now (W.account writer.old) (W.account writer.new)) }
{
    let mut rest = bytes;
    while !rest.is_empty() {
        match writer.write(rest) {
            Ok(0) => return Err(Fault::Write),
            Ok(count) => rest = &rest[count..],
            Err(_) => return Err(Fault::Write),
        }
    }
    Ok(())
}
