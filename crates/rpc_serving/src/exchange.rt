// From the bytes that a client has sent to the bytes that are said to it, with no devices.
ghost use Rattle.std.specs.Prelude.{◌≡◌, ◌≢◌, ◌++◌, IfOk, OnOk, false};
ghost use Rattle.rpc_serving.specs.declared.frames.FrameError.TheVariants.{Memory};
ghost use Rattle.rpc_messages.specs.Steps.{Takes};
ghost use Rattle.rpc_serving.specs.Exchange.{Exchange, said_for, status_of};

use crate::frames::{FrameBuffer, FrameError, put_frame};
use rpc_messages::{Reply, Service, handle};
use std::alloc::{AllocError, Global};

/// The output for a client, and the exit status where it sent `exit`.
#[derive(Drop)]
pub struct Turn {
    pub said: Vec<u8>,
    pub status: Option<u8>,
}

// Adds what is said for a reply, which is one frame or nothing, and gives the exit status where it ends the
// conversation.
fn say(alloc: Global, said: &mut Vec<u8>, reply: &Reply) -> Result<Option<u8>, AllocError>
    ensures said { OnOk result (said.new.items ≡ said.old.items ++ said_for reply.now) }
    ensures status { IfOk result (λ status. status ≡ status_of reply.now) }
{
    match reply {
        Reply::Nothing => Ok(None),
        Reply::Exit(status) => Ok(Some(*status)),
        Reply::Answer(body) | Reply::Notification(body) | Reply::Request(body) => {
            put_frame(alloc, said, body.as_slice())?;
            Ok(None)
        }
    }
}

// Whether memory was refused.
fn was_refused(error: FrameError) -> bool
    ensures { result ≡ false → error ≢ Memory }
{
    match error {
        FrameError::Memory => true,
        FrameError::Malformed | FrameError::TooLong | FrameError::TooLarge => false,
    }
}

/// Replies to each message that has come as a whole, in their order, up to the notification `exit`, if the service ends
/// the conversation there. Bytes with which no frame can begin are passed over. It fails only where memory is refused.
pub fn take_turn<S: Service>(
    alloc: Global,
    service: &mut S,
    frames: &mut FrameBuffer,
) -> Result<Turn, AllocError>
    ensures { IfOk result (λ turn. Exchange (Takes S.steps) service.old frames.old turn.said.items frames.new
        turn.status service.new) }
{
    let mut said = Vec::new(alloc);
    loop {
        match frames.next_body(alloc) {
            Ok(Some(body)) => {
                let reply = handle(alloc, service, body.as_slice())?;
                if let Some(status) = say(alloc, &mut said, &reply)? {
                    return Ok(Turn {
                        said,
                        status: Some(status),
                    });
                }
            }
            Ok(None) => return Ok(Turn { said, status: None }),
            Err(error) => {
                if was_refused(error) {
                    return Err(AllocError);
                }
                if frames.is_empty() {
                    return Ok(Turn { said, status: None });
                }
                frames.skip(alloc)?;
            }
        }
    }
}
