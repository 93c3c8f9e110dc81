//! What documents of the type system define together (GraphQL October 2021, section 3): types with their fields and
//! arguments, directives, and the root types of operations.
//!
//! `Schema::read` reads them once, and looks each up by its name afterwards. It is total: where a name is defined
//! twice, the first definition counts, and a type may get fields from extensions. Whether a schema is valid is another
//! question.
#![tactic(auto)]

mod definitions;
mod kinds;
mod locations;
mod parts;
mod schema;
mod standard;
mod tables;
mod type_references;

pub use definitions::{all_definitions, children, items, operation_type};
pub use kinds::{COMPOSITE_TYPES, INPUT_TYPES, LEAF_TYPES, OperationType, TYPE_REFERENCES};
pub use locations::{DirectiveLocation, is_repeatable, location_of, may_be_at};
pub use schema::{DefinitionWithArguments, Schema, TypedDefinition};
pub use standard::{EACH_TYPE, QUERY_ROOT, STANDARD};
pub use tables::first_by_name;
pub use type_references::{item_type, named_in, named_type, nullable, type_reference};
