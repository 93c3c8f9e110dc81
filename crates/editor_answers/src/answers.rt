// The bodies of answers of the protocol, and what is in them.
mod names;
mod parts;
mod ranges;
mod symbols;
mod tokens;

pub use names::{
    Elsewhere, Markup, answer_hover, push_changes, push_location, push_locations, push_marks,
};
pub use parts::{push_folds, push_selections};
pub use ranges::push_range;
pub use symbols::answer_symbols;
pub use tokens::answer_tokens;
