//! Validation and the figures of operations in buffers of the caller's: what other languages read in place of the lists
//! of `document_validation` and `cost_limits`.
//!
//! `c_exports` calls the functions `.._into`. As those of `c_parsing` do, each writes as far as there is room, and
//! answers how much there is.
#![tactic(auto)]

mod documents;
mod items;
pub mod laws;
mod operation_rows;
mod rows;
mod violation_rows;

pub use c_parsing::Limits;
pub use document_validation::default_steps;
pub use operation_rows::measure_into;
pub use rows::{MeasureCounts, OperationRow, ViolationCounts, ViolationRow, status};
pub use violation_rows::validate_into;
