//! Which paths an ignore file leaves out, by gitignore(5), "PATTERN FORMAT".
//!
//! `unignored_files` asks the `Rules` of the ignore files that it reads about paths. Nothing here knows files. A `?`, a
//! `*` and a set in brackets take bytes, and not characters; classes, as `[:alpha:]`, are unknown.
#![tactic(auto)]

mod fit_table;
mod lines;
mod parts;
mod paths;
mod pattern;
mod rules;
mod signs;

pub use rules::Rules;
