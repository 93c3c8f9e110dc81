//! How large an operation becomes when the selections of its fragment replace each fragment spread.
//!
//! A definition, which is an operation or a fragment, is the list of the items in it that are counted, in the order of
//! the text. The figures are those of the expanded list, which may be exponentially long; time and memory are linear in
//! the lists that are given.
//!
//! `cost_limits`, the crate above, calls `measure` with the lists of the definitions of some documents.
#![tactic(auto)]

mod figures;
mod items;
mod limits;
mod walk;

pub use figures::Figures;
pub use items::{Item, Span};
pub use limits::Limit;
pub use walk::{Fault, measure};
