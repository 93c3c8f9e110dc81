//! The operations and fragments of documents that are judged together, and the names that they mention: what rules and
//! limits on executable documents read of trees.
//!
//! `definitions` gives the operations and fragments in order, `fragments` the first fragment of each name, and
//! `mentions` the fragments that a definition spreads, and the variables that it declares or uses. Each goes over the
//! nodes once. All rules that ask whether names are unique, or whether one of a name exists, look it up by `enter` and
//! `is_entered`.
#![tactic(auto)]

mod executables;
mod name_mentions;
mod names;
mod own_names;
mod sites;

pub use executables::{
    DefinitionKind, ExecutableDefinition, definitions, fragments, named_definitions,
};
pub use name_mentions::{Mention, MentionKind, mentions, name, name_of_fragment};
pub use names::{enter, is_entered};
pub use own_names::{name_at, or_nothing, own_name, with_names};
pub use sites::Site;
