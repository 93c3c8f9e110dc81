//! The state of a parser, and its steps.
//!
//! A `ParserState` has the current token, what waits to go into the tree, the tree as far as it is built, the errors
//! and the limits. Its methods test the current token, read the next one, build nodes and leaves, report errors and
//! count levels of nesting. Each contract says which step of `parser_rules` the method does, or which small rule it
//! runs. The grammar, in `apollo_grammar` and `apollo_document`, is written with these methods alone.
#![tactic(auto)]

mod borrowed_error;
mod state;

pub use borrowed_error::BorrowedError;
pub use state::{Finished, ParserState, is_eof, is_kind, is_word};
