//! What the names of fields, arguments, input fields and values mean, by the types of some documents.
//!
//! These names have no definition by their text alone: `name` may be a field of many types. So the types of the places
//! around a name are found first, from the operation, the fragment or the argument that it is in. Where the documents
//! lack a type, there is no answer.
//!
//! `gqlls_server` calls `members_at` and `directives_at` for completions, `member_at` for a definition, `call_at` for a
//! signature, and `Uses` for references.
#![tactic(auto)]

mod definitions;
mod locations;
mod places;
mod table;
mod usage;

pub use definitions::{Schema, arguments_of, name_in, name_offset};
pub use locations::directives_at;
pub use places::{Call, call_at, member_at, members_at};
pub use usage::{Uses, member_named};
