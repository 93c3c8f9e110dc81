//! How large the operations of documents that are judged together are with their fragments expanded, and whether that
//! is within limits.
//!
//! `measure` gives the figures of each operation of some parsed documents, and `within` the first limit that one of
//! them exceeds. A fragment may be in another document than its spread. A small document can expand to an exponentially
//! large one: here time and memory are linear in the documents, but for the look-up of names.
//!
//!     let tree = Parser::new(text).parse(alloc)?;
//!     let operations = measure(alloc, &[tree.root()], &MeasureOptions::EVERYTHING)?;
//!     let limits = Figures { depth: 10, fields: 500, ..Figures::UNLIMITED };
//!     within(operations.as_slice(), &limits)?;
//!
//! A gateway that executes one of several operations hands only that one to `within`.
#![tactic(auto)]

mod definition_walk;
mod introspection;
mod limits;
mod measures;
mod response_names;

pub use cost_figures::{Figures, Limit, Span};
pub use introspection::Introspection;
pub use limits::{Exceeded, within};
pub use measures::{MeasureError, MeasureOptions, OperationFigures, measure};
pub use validation_names::{DefinitionKind, ExecutableDefinition};
