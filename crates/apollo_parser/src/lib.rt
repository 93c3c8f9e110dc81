//! A lossless parser of GraphQL documents (October 2021): its lexer, its trees, and the errors that it finds.
//!
//! `Parser::new(text)` takes limits on nesting and on the number of items; `parse` gives a `SyntaxTree` for any text,
//! faulty ones too. The tree has the text with its white space and comments, up to where the token limit may have
//! stopped it. `parse_borrowed` gives one that borrows the text. The module `cst` has typed nodes. What `parse`
//! promises is in its contract.
#![tactic(auto)]

mod borrowed_tree;
pub mod cst;
pub mod laws;
mod parser;
mod syntax_tree;

pub use apollo_lexer::{Error, LexError, Lexer, LimitTracker, Limits, Steps, Token};
pub use apollo_tree::{
    CompactElement, IndexedElement, Subtree, SyntaxElement, SyntaxElementChildren,
    SyntaxElementDescendants, SyntaxNode, SyntaxNodeAncestors, SyntaxNodeChildren,
    SyntaxNodeDescendants, SyntaxToken, TextRange, TokenAtOffset, TokenText,
};
pub use borrowed_tree::{BorrowedSyntaxTree, own_errors};
pub use document_grammar::SyntaxKind;
pub use lexical_grammar::TokenKind;
pub use parser::Parser;
pub use parser_state::BorrowedError;
pub use syntax_tree::{DocumentRoot, Root, SelectionSetRoot, SyntaxTree, TypeRoot};
