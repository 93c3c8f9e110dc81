//! Laws of the definitions: calls that do nothing, each with a theorem as its contract.

ghost use Rattle.std.specs.Prelude.{◌≡◌, ℕ, true, List};
ghost use Rattle.lexical_grammar.specs.Cut.{Item, Cut, are_tokens};
ghost use Rattle.document_grammar.specs.declared.kind.SyntaxKind.{SyntaxKind};
ghost use Rattle.document_grammar.specs.Numbers.{number};
ghost use Rattle.document_grammar.specs.Tree.{Token, Tree};
ghost use Rattle.document_grammar.specs.Derivation.{Sort, Yield, nest, Spells, Terminal};
ghost use Rattle.document_grammar.specs.Beginnings.{FirstSpells, Starts, StartsWithin};
ghost use Rattle.document_grammar.specs.Placed.{bare};
ghost use Rattle.document_grammar.specs.Sentence.{Sentence, FirstSentence, StartSentence, StartSentenceWithin};

/// No two kinds have one number.
pub fn one_kind()
    ensures { (kind other : SyntaxKind) → number kind ≡ number other → kind ≡ other }
{}

/// Two cuts of a text, one of them without bad text, are the same.
pub fn one_cut()
    ensures { (source : List ℕ) (items others : List Item) → Cut source items → Cut source others
        → are_tokens items ≡ true → items ≡ others }
{}

/// A sentence of the first profile, in which no description comes before an operation, a fragment or a variable, is a
/// sentence with the same derivation.
pub fn first_profile()
    ensures tokens { (sort : Sort) (w : List Token) (t : Tree) → FirstSpells w t sort → Spells w t sort }
    ensures texts { (source : List ℕ) (t : Tree) (sort : Sort) → FirstSentence source t sort → Sentence source t sort }
{}

/// Ignored leaves neither spell a token nor nest.
pub fn ignored_leaves()
    ensures tokens { (t : Tree) → Yield (bare t) ≡ Yield t }
    ensures nesting { (t : Tree) → nest (bare t) ≡ nest t }
{}

/// What starts a sentence, within a nesting too, starts the tokens that a derivation spells.
pub fn starts()
    ensures any { (sort : Sort) (front : List Terminal) → StartSentence sort front → Starts sort front }
    ensures within { (sort : Sort) (r : ℕ) (front : List Terminal) → StartSentenceWithin sort r front
        → StartsWithin sort r front }
{}
