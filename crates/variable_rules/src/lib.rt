//! The rules on the variables of operations (GraphQL October 2021, sections 5.8.3 and 5.8.4), judged for all operations
//! of some documents.
//!
//! `add_variables` finds the variables that an operation uses and does not declare, and those that it declares and does
//! not use. The names that a definition uses are read once, so a walk from an operation takes a step for each name, and
//! not for each use. It ends before the next operation when the steps that the caller sets are used up.
//! `document_validation`, a crate above, hands them on.
#![tactic(auto)]

mod operations;
mod reach;
mod steps;
mod used_names;

pub use operations::add_variables;
pub use steps::default_steps;
