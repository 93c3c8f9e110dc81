//! Values that contracts alone see. They take no bytes, and at run time nothing reads or makes them.
//!
//! A struct keeps one beside its data where a clause needs what the data no longer has: how many items were cut, or
//! which text the leaves had. `Ghost::picked` is the one call that the crates above use. Its proof is by hand, and the
//! only one: the proof of each call picks the value.
#![tactic(auto)]

mod kinds;
mod value;

pub use kinds::{Bytes, Natural};
pub use value::Ghost;
