//! Files and folders, as the programs read, list and replace them.
//!
//! `std_files` implements the trait `Files` by the system's calls, and `unignored_files` over another by ignore rules.
//! The programs take it as a type parameter, so that their contracts say what is asked of the files.
#![tactic(auto)]

mod entries;
mod files;

pub use entries::{Entry, Kind};
pub use files::Files;
