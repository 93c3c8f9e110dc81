// Which messages have to be answered.
ghost use Rattle.std.specs.Prelude.{◌≡◌, ℕ, IfOk, List, None, Option, Some, codes};
ghost use Rattle.json.specs.Json.{Json, null};
ghost use Rattle.json.specs.Tree.{HasNumbers};
ghost use Rattle.json.specs.Value.{value_view};
ghost use Rattle.rpc_messages.specs.Messages.{Asks, AsksForEnd, IsAnswer, IsExit, asked};
ghost use Rattle.rpc_messages.specs.Replies.{EndsOnlyIf, Replies};
ghost use Rattle.rpc_messages.specs.Steps.{IsRefusal, StepsOn, Takes};
ghost use Rattle.rpc_messages.specs.declared.reply.Reply.{Reply};
ghost use Rattle.rpc_messages.specs.declared.reply.Reply.TheVariants.{Answer};

use crate::message::{code, refusal};
use crate::reply::Reply;
use json::{Error, Scratch, Value};
use std::alloc::{AllocError, Global};

/// What answers requests and receives notifications.
pub trait Service {
    // the step for a request (which has an id) or a notification (which has none) with this method and these
    // parameters: the reply, and the new state
    ghost steps: { Self → Option Json → List ℕ → Json → Reply → Self → Type 0 };

    /// The answer to a request, by its id, its method and its parameters. A method that is no text is empty.
    fn request(
        &mut self,
        alloc: Global,
        id: &Value<'_>,
        method: &str,
        params: &Value<'_>,
    ) -> Result<Vec<u8>, AllocError>
        requires { HasNumbers (value_view id.now) }
        ensures answers { IfOk result (λ body. IsAnswer (value_view id.now) body.items) }
        ensures step { IfOk result
            (λ body. steps self.old (Some (value_view id.now)) method.now (value_view params.now)
            (Answer body) self.new) };

    /// What a notification brings about, by its method and its parameters. A method that is no text is empty. Only
    /// `exit` may end the conversation.
    fn notification(
        &mut self,
        alloc: Global,
        method: &str,
        params: &Value<'_>,
    ) -> Result<Reply, AllocError>
        ensures replies { IfOk result (Replies None) }
        ensures ends { IfOk result (EndsOnlyIf (method.now ≡ codes "exit")) }
        ensures step { IfOk result (λ reply. steps self.old None method.now (value_view params.now) reply self.new) };
}

// The refusal of a body that is not a message.
fn refused(alloc: Global, code: i64, text: &str) -> Result<Reply, AllocError>
    ensures replies { IfOk result (Replies (Some null)) }
    ensures ends { IfOk result (EndsOnlyIf ⊥) }
    ensures refuses { IfOk result (IsRefusal code) }
{
    Ok(Reply::Answer(refusal(alloc, &Value::Null, code, text)?))
}

// What a message brings about, by whether it has an id and a method.
fn reply<S: Service>(
    alloc: Global,
    service: &mut S,
    message: &Value<'_>,
) -> Result<Reply, AllocError>
    requires { HasNumbers (value_view message.now) }
    ensures replies { IfOk result (Replies (asked (value_view message.now))) }
    ensures ends { IfOk result (EndsOnlyIf (IsExit (value_view message.now))) }
    ensures step { IfOk result (λ reply. StepsOn S.steps (value_view message.now) service.old reply service.new) }
{
    let params = message.get("params").unwrap_or(&Value::Null);
    match (message.get("id"), message.get("method")) {
        (Some(id), Some(method)) => {
            let method = method.as_str().unwrap_or("");
            Ok(Reply::Answer(service.request(alloc, id, method, params)?))
        }
        (Some(_), None) => Ok(Reply::Nothing),
        (None, Some(method)) => {
            let method = method.as_str().unwrap_or("");
            service.notification(alloc, method, params)
        }
        (None, None) => refused(
            alloc,
            code::INVALID_REQUEST,
            "neither a request nor a notification",
        ),
    }
}

/// What the body of a message brings about: the end only where it is the notification `exit`. A body that is not read
/// as JSON, which is read to 128 levels, is refused with `PARSE_ERROR`, and one that is no message with
/// `INVALID_REQUEST`. It fails only where memory is refused.
pub fn handle<S: Service>(alloc: Global, service: &mut S, body: &[u8]) -> Result<Reply, AllocError>
    ensures replies { IfOk result (λ reply. (id : Option Json) × Asks body.now id × Replies id reply) }
    ensures ends { IfOk result (EndsOnlyIf (AsksForEnd body.now)) }
    ensures takes { IfOk result (λ reply. Takes S.steps body.now service.old reply service.new) }
{
    let mut scratch = Scratch::new(alloc);
    match Value::from_slice(alloc, body, &mut scratch) {
        Ok(message) => reply(alloc, service, &message),
        Err(Error::Invalid) => refused(alloc, code::PARSE_ERROR, "not JSON"),
        Err(_) => Err(AllocError),
    }
}
