//! Laws of the definitions: calls that do nothing, each with a theorem as its contract.

ghost use Rattle.std.specs.Prelude.{◌≡◌, true, ℕ, List};
ghost use Rattle.lexical_grammar.specs.Cut.{Item, Cut, are_tokens};
ghost use Rattle.lexical_grammar.specs.Kept.{Kept};
ghost use Rattle.document_grammar.specs.Tree.{Tree};
ghost use Rattle.document_grammar.specs.Derivation.{document, nest};
ghost use Rattle.document_grammar.specs.Sentence.{Sentence};
ghost use Rattle.format_layout.specs.Respelled.{Alike, AreSameWords, Respelled};
ghost use Rattle.format_layout.specs.Signs.{unsigned};

/// A text that has the tokens and comments of a sentence, but that block strings may be others with the same values, is
/// a sentence. Its derivation is the first one's but for these strings.
pub fn respelled()
    ensures { (source text : List ℕ) (items others : List Item) (t : Tree) → Cut source items → are_tokens items ≡ true
        → Cut text others → are_tokens others ≡ true
        → AreSameWords (Kept items) (Kept others) → Sentence source t document → Respelled text t }
{}

/// Neither the spelling of block strings nor an optional sign before a first member changes the nesting.
pub fn same_nesting()
    ensures { (t u : Tree) → Alike (unsigned t) (unsigned u) → nest u ≡ nest t }
{}
