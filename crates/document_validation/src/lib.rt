//! Validation by the rules of the standard (GraphQL October 2021) that need no schema.
//!
//! `validate` finds each place at which documents that are judged together break a rule, up to a bound, and none
//! exactly if they keep them all. Of a schema it judges the names that one definition has twice in a list (section 3),
//! and no other rule. `message` says what is wrong. `document_checks`, `editor_validation` and `c_validation` call
//! both.
#![tactic(auto)]

pub mod laws;
mod lists;
mod messages;
mod validation;

pub use lists::{DocumentKind, document_kind};
pub use messages::message;
pub use validation::{Validation, ValidationOptions, validate, validate_with};
pub use validation_rules::{Rule, RuleSet, Selection, Violation, Violations};
pub use variable_rules::default_steps;
