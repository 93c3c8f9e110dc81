//! A parse, the items of a text, a string's value and a formatted text in buffers of the caller's: what other languages
//! read in place of a tree.
//!
//! `c_exports` and the page call the functions `.._into`. Each writes what there is as far as there is room, and
//! answers how much there is. So a caller that had too little room calls again with enough. A call that is refused
//! writes nothing; only `lex_into` may have written rows of items before memory was refused.
#![tactic(auto)]

mod buffers;
mod errors;
mod format;
mod items;
pub mod laws;
mod parse;
mod rows;
mod source;
mod strings;

pub use apollo_parser::{CompactElement, Limits};
pub use format::format_into;
pub use items::lex_into;
pub use parse::{parse_into, parse_selection_set_into, parse_type_into};
pub use rows::{ByteCount, Counts, ErrorRow, ItemRow, status};
pub use strings::string_value_into;
