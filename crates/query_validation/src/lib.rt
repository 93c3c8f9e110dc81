//! Validation of operations and fragments against a schema (GraphQL October 2021, section 5): the rules that need the
//! types of a schema.
//!
//! Each rule is a test on one node, by the contexts around it and inside it (`Context`). `validate` goes over the nodes
//! of all operations and fragments once, and lists what breaks a rule, in the order of the text.
#![tactic(auto)]

mod contexts;
mod messages;
mod parts;
mod repeats;
mod rules;
mod stack;
mod texts;
mod value_messages;
mod values;
mod violations;

pub use contexts::{Context, Wanted};
pub use messages::message;
pub use rules::{QUERY_RULES, QueryRule};
pub use violations::{QueryViolation, validate};
