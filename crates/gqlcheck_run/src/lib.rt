//! What the program `gqlcheck` does between its words, its devices and the files that it checks.
//!
//! `gqlcheck` calls `run`, which reads standard input, files or the files below folders, judges all of them together,
//! and writes of each what keeps them from passing. Devices and files are type parameters, so that contracts can name
//! what is read; and so is the checker, since a caller of the parser is proved over all of its code.
#![tactic(auto)]

mod command;
mod files;
mod folders;
mod frame;
mod github;
mod greatest;
mod inputs;
mod job;
mod json_lines;
mod json_members;
mod others;
mod outcome;
mod places;
mod program;
mod report;
mod rules;
mod sarif_log;
mod sarif_results;
mod severity;
mod tally;

pub use command::{HELP, USAGE, VERSION};
pub use document_checks::{Checker, DocumentChecker};
pub use program::run;
