//! The parser's functions for all that is below a document: names, values, types, directives, what is executed, and the
//! definitions and extensions of the type system.
//!
//! The rules are data (`parser_rules`, `specs/Rules.antt`), each below its production of the standard. A function's
//! contract is one clause, `Parses rule result p.old p.new`: it runs the rule, unless memory is refused. A rule
//! `OptionalArguments` does nothing where no arguments come next, and `RequiredName` reports that a name is missing:
//! the functions are called `arguments` and `name`. A function `spread_before` runs the rule `Spread` where the next
//! token is known, and `inside_list_type` what is inside a ListType. `tools/rule_names` compares the names.
//! `apollo_document` chooses among the definitions by the keyword that comes next.
#![tactic(auto)]

mod grammar;

pub use grammar::directive::directive_definition;
pub use grammar::enum_::{enum_type_definition, enum_type_extension};
pub use grammar::fragment::fragment_definition;
pub use grammar::input::{input_object_type_definition, input_object_type_extension};
pub use grammar::interface::{interface_type_definition, interface_type_extension};
pub use grammar::object::{object_type_definition, object_type_extension};
pub use grammar::operation::{operation_definition, query_shorthand};
pub use grammar::scalar::{scalar_type_definition, scalar_type_extension};
pub use grammar::schema::{schema_definition, schema_extension};
pub use grammar::selection::field_set;
pub use grammar::ty::type_root;
pub use grammar::union_::{union_type_definition, union_type_extension};
