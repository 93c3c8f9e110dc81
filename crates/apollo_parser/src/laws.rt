//! Laws of the definitions that the contracts cite: calls that do nothing, each with a theorem as its contract.
ghost use Rattle.std.specs.Prelude.{◌≡◌, ℕ};
ghost use Rattle.apollo_parser.specs.Parsed.{Parsed};
ghost use Rattle.apollo_parser.specs.Promise.{Promise};
ghost use Rattle.parser_rules.specs.Messages.{Text};

pub use apollo_cst_core::reading_back;
pub use apollo_lexer::{answers_fit, equal_errors_are_same};
pub use document_grammar::laws::{first_profile, ignored_leaves, one_cut, one_kind, starts};
pub use grammar_machine::laws::one_derivation;
pub use lexical_grammar::{items_stand, limited_items, one_token, one_value};

/// A parse is a function: what keeps the promise of `parse` for one text and the same limits is one result, with one
/// tree, one list of errors and the same use of both limits.
pub fn one_parse()
    ensures { (source : Text) (max_depth max_items : ℕ) (a b : Parsed) → Promise source max_depth max_items a
        → Promise source max_depth max_items b → a ≡ b }
{}
