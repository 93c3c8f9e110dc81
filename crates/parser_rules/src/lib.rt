//! The parser's rules as data: what it reads and builds, what it reports, and what it means to run one.
//!
//! Each grammar function has a rule in `specs/`, and each promise about trees and errors is a theorem about all runs of
//! rules. The code that runs is `Message`, the words of each report, and `Constness`, whether a value may have
//! variables.
//!
//! The crates above cite `Runs` (`specs/Runs.antt`): each contract of the grammar says which rule its function runs.
#![tactic(auto)]

mod constness;
mod message;

pub use constness::Constness;
pub use message::Message;
