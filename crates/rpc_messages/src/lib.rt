//! The messages of JSON-RPC 2.0, as the Language Server Protocol uses them: what has to be answered, and how answers,
//! notifications and requests are written.
//!
//! `handle` reads the body of a message, and has a `Service` answer it. A request gets exactly one answer: an object
//! with its id and either a result or an error. What is no message, and a body that is not read as JSON, is refused
//! with the id null. JSON is read to 128 levels of arrays and objects, and without an escape of half a surrogate pair;
//! a request beyond that is refused with the id null too.
//!
//! `rpc_serving`, the crate above, calls `handle`; a server implements `Service`.
#![tactic(auto)]

mod message;
mod nesting;
mod pieces;
mod reply;
mod service;

pub use message::{LongAnswer, answer, code, notification, refusal, request};
pub use pieces::Piece;
pub use reply::Reply;
pub use service::{Service, handle};
