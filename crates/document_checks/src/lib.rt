//! Checks of documents before they run: that they are some, that they are valid together by rules of
//! `document_validation`, and that their operations are within limits.
//!
//! `check` judges texts together and says what it found. `gqlcheck_run` calls it through the trait `DocumentChecker`,
//! so that it is proved without the code of the parser.
#![tactic(auto)]

mod documents;
mod operations;
mod report;
mod schema_rules;
mod text_check;
mod violations;

pub use apollo_parser::Limits;
pub use cost_figures::{Figures, Limit};
pub use cost_limits::Introspection;
pub use document_validation::{Rule, RuleSet, default_steps};
pub use report::{Checks, ExceededLimit, Finding, OperationReport, OtherPlace, Report};
pub use text_check::{Checker, DocumentChecker, check};
