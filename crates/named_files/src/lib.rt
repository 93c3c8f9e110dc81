//! The files that a path names: its own, or the GraphQL files below a folder.
//!
//! `gqlfmt` and `gqlcheck` call `named_files` with each path of their words. `specs/Finding.antt` defines which files
//! it gives, in which order, for the listings of the folders, and `specs/Handling.antt` that something is done with
//! each of them.
#![tactic(auto)]

mod names;
mod search;

pub use names::is_graphql;
pub use search::{Named, named_files};
