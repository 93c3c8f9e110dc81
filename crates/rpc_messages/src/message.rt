// Whole messages.
ghost use Rattle.std.specs.Prelude.{◌≡◌, ◌∷◌, ◌++◌, [], IfOk, flat_map};
ghost use Rattle.json.specs.Json.{Members, object};
ghost use Rattle.json.specs.Token.{end_object};
ghost use Rattle.json.specs.Tree.{HasNumbers, json_tokens};
ghost use Rattle.json.specs.Value.{value_view};
ghost use Rattle.rpc_messages.specs.Answers.{AreOfObject, HasTokens, IsAnswerOf, call_front, error_member, id_token};
ghost use Rattle.rpc_messages.specs.Answers.{notification_front, request_front, response_front};
ghost use Rattle.rpc_messages.specs.Messages.{IsAnswer, IsError, IsNotification, IsNotificationOf, IsRequest};
ghost use Rattle.rpc_messages.specs.Messages.{IsRequestOf};
ghost use Rattle.rpc_messages.specs.Pieces.{Adds, tokens_of};

use crate::nesting::Nesting;
use crate::pieces::{Piece, put_all};
use json::{Value, Writer};
use std::alloc::{AllocError, Global};
use std::marker::Model;

/// Why a request is refused, as JSON-RPC and the protocol number it.
pub mod code {
    pub const PARSE_ERROR: i64 = -32700;

    pub const INVALID_REQUEST: i64 = -32600;

    pub const METHOD_NOT_FOUND: i64 = -32601;

    pub const INVALID_PARAMS: i64 = -32602;

    pub const INTERNAL_ERROR: i64 = -32603;

    pub const NOT_INITIALIZED: i64 = -32002;
}

// Writes the id of a request.
#[tactic(auto, using(crate::proofs::Added::added_one))]
fn put_id(out: &mut Writer, id: &Value<'_>) -> Result<(), AllocError>
    requires { HasNumbers (value_view id.now) }
    ensures { Adds result out.old out.new (id_token (value_view id.now) ∷ []) }
{
    match id {
        Value::Number(text) => out.number(text),
        Value::String(text) => out.string(text),
        _ => out.null(),
    }
}

// Writes a response up to the member after its id.
fn put_front(out: &mut Writer, id: &Value<'_>) -> Result<(), AllocError>
    requires { HasNumbers (value_view id.now) }
    ensures { Adds result out.old out.new (response_front (value_view id.now)) }
{
    put_all(
        out,
        &[
            Piece::Object,
            Piece::Key("jsonrpc"),
            Piece::Text("2.0"),
            Piece::Key("id"),
        ],
    )?;
    put_id(out, id)
}

// Ends an object, and gives the text.
fn end(mut out: Writer) -> Result<Vec<u8>, AllocError>
    requires { out.before ≡ [] }
    ensures { IfOk result (λ body. HasTokens (out.tokens ++ end_object ∷ []) body.items) }
{
    out.end_object()?;
    Ok(out.into_inner())
}

// The body of the answer that refuses a request.
fn refusal_body(alloc: Global, id: &Value<'_>, code: i64, text: &str) -> Result<Vec<u8>, AllocError>
    requires { HasNumbers (value_view id.now) }
    ensures { IfOk result (λ body. HasTokens
        (response_front (value_view id.now) ++ (error_member code text.now ++ end_object ∷ [])) body.items) }
{
    let mut out = Writer::new(Vec::new(alloc));
    put_front(&mut out, id)?;
    put_all(
        &mut out,
        &[
            Piece::Key("error"),
            Piece::Object,
            Piece::Key("code"),
            Piece::Number(code),
            Piece::Key("message"),
            Piece::Text(text),
            Piece::EndObject,
        ],
    )?;
    end(out)
}

/// An answer that is written part by part: the list of all pieces of a long one would take more memory than its text.
///
/// Contracts see the tokens of JSON that have been written.
#[derive(Drop)]
pub struct LongAnswer {
    out: Writer,
    // of the result
    nesting: Nesting,
}

impl Model for LongAnswer {
    ghost use Rattle.std.specs.Prelude.{List};
    ghost use Rattle.json.specs.Token.{Token, tokens_code};
    ghost use Rattle.rpc_messages.specs.Answers.{IsNested};

    ghost Value = { List Token };

    ghost coded = { tokens_code };

    ghost view = { λ a. a.out.tokens };

    ghost invariant = { IsNested };
}

impl LongAnswer {
    ghost use Rattle.std.specs.Prelude.{List};
    ghost use Rattle.json.specs.Json.{Json};
    ghost use Rattle.json.specs.Token.{Token};
    ghost use Rattle.rpc_messages.specs.Answers.{IsBegun, answer_front};

    /// The answer to the request with an id, up to its result. It fails only where memory is refused.
    pub fn new(alloc: Global, id: &Value<'_>) -> Result<LongAnswer, AllocError>
        requires { HasNumbers (value_view id.now) }
        ensures front { IfOk result (λ a. a ≡ answer_front (value_view id.now)) }
        ensures begun { IfOk result (IsBegun (value_view id.now)) }
    {
        let mut out = Writer::new(Vec::new(alloc));
        put_front(&mut out, id)?;
        out.key("result")?;
        let nesting = Nesting::new(alloc)?;
        Ok(LongAnswer { out, nesting })
    }

    /// Adds pieces of the result. It fails only where memory is refused.
    pub fn put(self, pieces: &[Piece<'_>]) -> Result<LongAnswer, AllocError>
        ensures pieces { IfOk result (λ a. a ≡ self ++ flat_map tokens_of pieces.now) }
        ensures begun { IfOk result (λ a. (id : Json) → IsBegun id self → IsBegun id a) }
    {
        let LongAnswer {
            mut out,
            mut nesting,
        } = self;
        put_all(&mut out, pieces)?;
        nesting.take_all(pieces)?;
        Ok(LongAnswer { out, nesting })
    }

    /// The body of the answer, by the id that it began with. Where the pieces are not those of one value, it refuses
    /// the request with the code `INTERNAL_ERROR`. It fails only where memory is refused.
    pub fn finish(self, alloc: Global, id: &Value<'_>) -> Result<Vec<u8>, AllocError>
        requires numbers { HasNumbers (value_view id.now) }
        requires begun { IsBegun (value_view id.now) self }
        ensures member { IfOk result
            (λ body. (ts : List Token) → self ≡ answer_front (value_view id.now) ++ ts
            → IsAnswerOf (value_view id.now) ts body.items) }
        ensures answers { IfOk result (λ body. IsAnswer (value_view id.now) body.items) }
    {
        let LongAnswer { out, nesting } = self;
        if nesting.is_whole() {
            end(out)
        } else {
            refusal(alloc, id, code::INTERNAL_ERROR, "internal error")
        }
    }
}

/// The answer to the request with an id, by the pieces of its result. Where they are not those of one value, it refuses
/// the request with the code `INTERNAL_ERROR`. It fails only where memory is refused.
pub fn answer(alloc: Global, id: &Value<'_>, pieces: &[Piece<'_>]) -> Result<Vec<u8>, AllocError>
    requires { HasNumbers (value_view id.now) }
    ensures member { IfOk result (λ body. IsAnswerOf (value_view id.now) (flat_map tokens_of pieces.now) body.items) }
    ensures answers { IfOk result (λ body. IsAnswer (value_view id.now) body.items) }
{
    let answer = LongAnswer::new(alloc, id)?;
    let answer = answer.put(pieces)?;
    let body = answer.finish(alloc, id)?;
    Ok(body)
}

/// The answer that refuses a request, with a number of `code` and a text. It fails only where memory is refused.
pub fn refusal(alloc: Global, id: &Value<'_>, code: i64, text: &str) -> Result<Vec<u8>, AllocError>
    requires { HasNumbers (value_view id.now) }
    ensures refuses { IfOk result (λ body. IsError (value_view id.now) code text.now body.items) }
    ensures answers { IfOk result (λ body. IsAnswer (value_view id.now) body.items) }
{
    let body = refusal_body(alloc, id, code, text)?;
    Ok(body)
}

// Writes a method and its parameters.
fn put_call(out: &mut Writer, method: &str, params: &[Piece<'_>]) -> Result<(), AllocError>
    ensures { Adds result out.old out.new (call_front method.now ++ flat_map tokens_of params.now) }
{
    put_all(
        out,
        &[
            Piece::Key("method"),
            Piece::Text(method),
            Piece::Key("params"),
        ],
    )?;
    put_all(out, params)
}

// The body of a notification.
fn notification_body(
    alloc: Global,
    method: &str,
    params: &[Piece<'_>],
) -> Result<Vec<u8>, AllocError>
    ensures { IfOk result (λ body. HasTokens
        (notification_front method.now ++ (flat_map tokens_of params.now ++ end_object ∷ [])) body.items) }
{
    let mut out = Writer::new(Vec::new(alloc));
    put_all(
        &mut out,
        &[Piece::Object, Piece::Key("jsonrpc"), Piece::Text("2.0")],
    )?;
    put_call(&mut out, method, params)?;
    end(out)
}

// The body of a request.
fn request_body(
    alloc: Global,
    id: &str,
    method: &str,
    params: &[Piece<'_>],
) -> Result<Vec<u8>, AllocError>
    ensures { IfOk result (λ body. HasTokens
        (request_front id.now method.now ++ (flat_map tokens_of params.now ++ end_object ∷ [])) body.items) }
{
    let mut out = Writer::new(Vec::new(alloc));
    put_all(
        &mut out,
        &[
            Piece::Object,
            Piece::Key("jsonrpc"),
            Piece::Text("2.0"),
            Piece::Key("id"),
            Piece::Text(id),
        ],
    )?;
    put_call(&mut out, method, params)?;
    end(out)
}

/// A notification of the server: a method, and the pieces of its parameters, which are an object. It fails only where
/// memory is refused.
pub fn notification(
    alloc: Global,
    method: &str,
    params: &[Piece<'_>],
) -> Result<Vec<u8>, AllocError>
    requires { AreOfObject (flat_map tokens_of params.now) }
    ensures params { IfOk result
        (λ body. (members : Members) → flat_map tokens_of params.now ≡ json_tokens (object members)
        → IsNotificationOf method.now members body.items) }
    ensures notifies { IfOk result (λ body. IsNotification body.items) }
{
    let body = notification_body(alloc, method, params)?;
    Ok(body)
}

/// A request of the server: an id, a method, and the pieces of its parameters, which are an object. It fails only where
/// memory is refused.
pub fn request(
    alloc: Global,
    id: &str,
    method: &str,
    params: &[Piece<'_>],
) -> Result<Vec<u8>, AllocError>
    requires { AreOfObject (flat_map tokens_of params.now) }
    ensures params { IfOk result
        (λ body. (members : Members) → flat_map tokens_of params.now ≡ json_tokens (object members)
        → IsRequestOf id.now method.now members body.items) }
    ensures requests { IfOk result (λ body. IsRequest body.items) }
{
    let body = request_body(alloc, id, method, params)?;
    Ok(body)
}
