//! What an editor asks of a tree of a GraphQL document: an outline, folds, the tokens for colours, the names in it.
//!
//! Each answer is made from a tree; a parser is not needed here. A `Span` has two byte offsets of the tree's text. The
//! functions whose names begin with `answer` give the body of the answer to a request of the Language Server Protocol,
//! with lines and columns; those whose names begin with `push` add the result of a request to the pieces of which its
//! answer is made.
//!
//! `gqlls_server`, the crate above, calls one function for each request.
#![tactic(auto)]

mod answers;
mod folds;
mod hovers;
mod labels;
mod names;
mod outline;
mod selections;
mod span;
mod tokens;
mod usage;

pub use answers::{
    Elsewhere, Markup, answer_hover, answer_symbols, answer_tokens, push_changes, push_folds,
    push_location, push_locations, push_marks, push_range, push_selections,
};
pub use folds::fold_of;
pub use hovers::{Hover, description_of, hover_at};
pub use labels::identifier_at;
pub use names::{Meaning, NameKind, meaning_of};
pub use outline::{Symbol, SymbolKind, symbol_of};
pub use selections::selection;
pub use span::{Span, span_of};
pub use tokens::{SemanticToken, TOKEN_TYPES, TokenType, semantic_tokens};
pub use usage::{definition, definition_elsewhere, references, references_elsewhere};
