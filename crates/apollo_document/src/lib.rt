//! The last part of the parser's functions: a document, and the keyword that says which definition or extension comes
//! next.
//!
//! Each function runs the rule of its name, as in `apollo_grammar`, which has the definitions themselves.
#![tactic(auto)]

mod grammar;

pub use grammar::document::document;
