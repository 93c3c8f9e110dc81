//! Directed graphs, as a list of the vertices that edges lead to, for each vertex: what is reached from where, and what
//! is on a cycle.
//!
//! `reached` and `reach` follow each edge once. `returns` also takes time for each edge once, on graphs with cycles
//! too.
//!
//! `validation_rules`, the crate above, calls them with the fragments that each definition spreads.
#![tactic(auto)]

mod components;
mod cycles;
pub mod laws;
mod search;

pub use cycles::returns;
pub use search::{reach, reached};
