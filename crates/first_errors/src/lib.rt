//! Which errors of a text people see first, and in which words.
//!
//! One mistake makes many errors. Of each definition the first error is enough, since the later ones mostly follow from
//! it: in `{ a(b: } { c(d: }` that is one for each of the two queries. `document_checks` and `formatter` call
//! `first_errors` for the errors of a parse.
#![tactic(auto)]

mod definition_errors;
mod words;

pub use definition_errors::{FirstErrors, definition_starts, first_errors};
pub use words::{for_people, shown_at};
