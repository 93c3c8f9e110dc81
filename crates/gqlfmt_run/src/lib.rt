//! What the program `gqlfmt` does between its words, its devices and the files that it formats.
//!
//! `gqlfmt` calls `run`, which formats the standard input, files or the files below folders, and can instead list what
//! would change or show the changes. Errors have their line and column. Devices and files are type parameters, so that
//! contracts can name what is read and written; and so is the formatter, since a caller of the parser is proved over
//! all of its code.
#![tactic(auto)]

mod command;
mod desk;
mod diff;
mod edits;
mod folders;
mod input;
mod job;
mod outcome;
mod paths;
mod program;
mod quoted_names;
mod report;
mod revision;
mod settlement;
mod shown_changes;

pub use apollo_parser::Limits;
pub use command::{HELP, USAGE, VERSION};
pub use command_lines::gqlfmt::INPUT;
pub use desk::Desk;
pub use diff::unified_diff;
pub use formatter::{DocumentFormatter, Formatter};
pub use job::{Bounds, Job};
pub use program::run;
