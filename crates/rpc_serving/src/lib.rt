//! Conversations by frames of JSON-RPC.
//!
//! `take_turn` gives each message that has come as a whole to a `Service`, and frames the replies. It has no devices.
//! Whatever the client sends, a request has exactly one answer, with its id if it is read as JSON (to 128 levels), and
//! nothing but the message `exit` ends the conversation. `serve` reads what the client sends through a reader, takes a
//! turn after each read, and writes what is said before the next read. No read brings more than one long message, so no
//! more than a few answers are in memory.
//!
//! `gqlls_server`, the crate above, calls `serve`.
#![tactic(auto)]

mod conversation;
mod exchange;
mod frames;
mod garbage;

pub use conversation::serve;
pub use exchange::{Turn, take_turn};
