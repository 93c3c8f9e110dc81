//! Rules on the operations and fragments of documents that are judged together, given as lists of the names that they
//! mention.
//!
//! Violations are collected up to a bound that the caller sets. `document_validation`, a crate above, reads the `parts`
//! of documents and calls `add_..` for each rule. The two rules on the variables of operations are in `variable_rules`.
#![tactic(auto)]

mod definition_parts;
pub mod laws;
mod name_rules;
mod selection;
mod spread_rules;
mod violations;

pub use definition_parts::{DefinitionParts, operations, part_at, parts, spread_graph};
pub use name_rules::{add_anonymous, add_repeats, add_unknown};
pub use selection::{RuleSet, Selection};
pub use spread_rules::{add_cycles, add_undefined_spreads, add_unused_fragments};
pub use violations::{Rule, Violation, Violations};
