//! Diagnostics on a document: its syntax errors, or the rules of validation that it breaks.
//!
//! `gqlls_server`, the crate above, calls `diagnostics` after each change and publishes what it gives.
#![tactic(auto)]

mod all_diagnostics;
mod braces;
mod broken_rules;
mod fragments;
pub mod laws;
mod other_documents;

pub use all_diagnostics::diagnostics;
pub use fragments::{FragmentNames, fragment_names};
