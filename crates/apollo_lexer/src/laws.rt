// What holds of a lexer's answers, as contracts of functions that do nothing.
ghost use Rattle.std.specs.Prelude.{◌≡◌, ◌+◌, ◌≤◌, ◌<◌, ◌^◌, ◌↔◌, ℕ, List, length, min, true};
ghost use Rattle.lexical_grammar.specs.Answers.{AreAnswers, answers_text, limited};
ghost use Rattle.lexical_grammar.specs.Cut.{Item};
ghost use Rattle.apollo_lexer.specs.Answers.{answers_left};
ghost use Rattle.apollo_lexer.specs.Diagnostics.{Diagnostic};
ghost use Rattle.apollo_lexer.specs.Equal.{same_diagnostic};
ghost use Rattle.lexical_grammar.specs.Reads.{items_from};

use crate::lexer::Lexer;

/// A token's text is one of its kind, and nothing comes after the end or after the limit error.
pub fn answers_are_items(lexer: &Lexer)
    ensures { AreAnswers (answers_left lexer.now) }
{}

/// Where no more items are there than the limit allows, the texts of the answers, joined, are the source.
pub fn answers_join(source: &str)
    ensures { (limit : ℕ) → length (items_from 0 0 source.now) ≤ limit
        → answers_text (limited limit (items_from 0 0 source.now)) ≡ source.now }
{}

/// There are as many answers as items, and no more than one above the limit.
pub fn answers_count()
    ensures { (limit : ℕ) (items : List Item) → length (limited limit items) ≡ min (length items) (limit + 1) }
{}

/// The answers that are left are fewer than a `usize` counts.
pub fn answers_fit(lexer: &Lexer)
    ensures { length (answers_left lexer.now) < 2 ^ 64 }
{}

/// Errors are equal exactly where their messages, their indices and what they are about are; a text, the end and a
/// limit are three different things.
pub fn equal_errors_are_same()
    ensures { (a b : Diagnostic) → (same_diagnostic a b ≡ true) ↔ (a ≡ b) }
{}
