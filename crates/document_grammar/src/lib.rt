//! The document grammar of GraphQL: `SyntaxKind`, the kinds of nodes and leaves that a syntax tree has, and in `specs/`
//! which children a node of each kind has, which trees are derivations, and which texts are sentences.
//!
//! `SyntaxKind` is the only code but for the laws. A reader of the parser's contracts has to believe these definitions
//! and those of `lexical_grammar`.
//!
//! The crates above cite `Sentence` (`specs/Sentence.antt`) and use `SyntaxKind`.
#![tactic(auto)]

mod kind;
pub mod laws;

pub use kind::SyntaxKind;
