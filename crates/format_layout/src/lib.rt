//! A document with another layout: its significant tokens and comments, but for the optional sign before a first
//! member, and block strings spelled for their lines.
//!
//! `formatter` takes the `Gaps` of a tree, and lets the tree go before `format_document` writes the text. The layout
//! has groups, which are in one line where they fit and broken where they don't, in the way of prettier
//! (docs/FORMAT.md): one walk over the tree finds the place before each token and the width of each group, and the
//! writer, which knows the column, takes a gap for each place. That is advice, and beside its safety one rule has a
//! contract: where a group breaks, its commas become line ends (`Separator::broken`). Whatever the gaps, `Layout`
//! writes the tokens so that they stay the tokens that they are. So is how block strings are spelled: `spelled`
//! compares the values, and the laws say what a text keeps whose block strings are spelled anew. And so is which signs
//! come or go: the writer knows by the tokens before them which ones are optional (`Lead`).
//!
//! In `{ a(x: 1) }`, for example, the walk reads the `Elements` of the tree. It has a `Frame` for each node that it is
//! inside, and leaves a `Slot` before each token. When the writer is at the token, `Gaps` makes a `Gap` of the slot,
//! by the `Form` of the group:
//!
//! ```text
//! token   Slot: separator, part, width   Gap in a group that is Flat   Gap in one that is Broken
//! a       Line                           a line feed, 2 spaces         a line feed, 2 spaces
//! (       Nothing, Open, 6               nothing                       nothing
//! x       SoftNothing                    nothing                       a line feed, 4 spaces
//! :       Nothing                        nothing                       nothing
//! 1       Space                          1 space                       1 space
//! )       SoftNothing, Close             nothing                       a line feed, 2 spaces
//!
//!                                          a(x: 1)                       a(
//!                                           ^^^^^^ width 6                 x: 1
//!                                                                        )
//! ```
//!
//! The group is `(x: 1)`. It is flat where the columns in front of it and its width make at most 80 together.
#![tactic(auto)]

mod block_strings;
mod block_text;
mod comments;
mod elements;
mod gap;
mod gaps;
mod kept;
pub mod laws;
mod layout;
mod lead;
mod rules;
mod size;
mod slot;
mod style;
mod walk;
mod writer;

pub use elements::Elements;
pub use gaps::Gaps;
pub use style::WriteError;
pub use writer::{format_document, format_text};
