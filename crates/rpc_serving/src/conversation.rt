// A conversation through a reader and a writer.
ghost use Rattle.std.specs.Prelude.{IfErr, IfOk};
ghost use Rattle.rpc_messages.specs.Steps.{Takes};
ghost use Rattle.rpc_serving.specs.Serving.{EndsServing, IsServed};

use crate::exchange::take_turn;
use crate::frames::FrameBuffer;
use byte_streams::{Fault, Sink, Source, write_all};
use rpc_messages::Service;
use std::alloc::Global;

/// Reads messages, has a service reply to them, and writes the replies, until the notification `exit` ends the
/// conversation or the input ends. It gives the exit status, which is 1 at the end of the input. It fails only when the
/// reader or the writer fails, or when memory is refused. When the reader fails, all is written that the service says
/// about what was read; else a beginning of it.
pub fn serve<S: Service, R: Source, W: Sink>(
    alloc: Global,
    service: &mut S,
    reader: &mut R,
    writer: &mut W,
) -> Result<u8, Fault>
    ensures ok { IfOk result
        (λ status. IsServed (Takes S.steps) service.old service.new status (R.account reader.old) (R.account reader.new)
        (W.account writer.old) (W.account writer.new)) }
    ensures err { IfErr result
        (λ fault. EndsServing (Takes S.steps) service.old service.new (R.account reader.old) (R.account reader.new)
        (W.account writer.old) (W.account writer.new) fault) }
{
    let mut frames = FrameBuffer::new(alloc);
    let mut buffer = [0u8; 65536];
    for _ in 0..u64::MAX {
        let room = &mut buffer[..frames.wanted()];
        match reader.read(room) {
            Ok(0) => return Ok(1),
            Ok(count) => {
                frames.extend(&room[..count])?;
                let turn = take_turn(alloc, service, &mut frames)?;
                write_all(writer, turn.said.as_slice())?;
                if let Some(status) = turn.status {
                    return Ok(status);
                }
            }
            Err(_) => return Err(Fault::Read),
        }
    }
    Ok(1)
}
