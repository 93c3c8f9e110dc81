//! Files without those that ignore files leave out.
//!
//! `gqlfmt` runs over `Unignored`, which wraps the files of a runtime. The ignore files `.gitignore`, `.prettierignore`
//! and `.gqlfmtignore` count for all that is in their folder and below it. They are read from the top down: the top of
//! a path is the nearest folder with `.git`. The last rule about a path decides.
#![tactic(auto)]

mod above;
mod ignore_file;
mod kept_entries;
mod unignored;

pub use unignored::Unignored;
