//! Laws of the grammar that the machine proves: calls that do nothing, each with a theorem as its contract.

ghost use Rattle.std.specs.Prelude.{◌≡◌, ℕ, true, List, ◌∷◌, ◌++◌, map, take, IsUtf8};
ghost use Rattle.lexical_grammar.specs.Cut.{Item, Cut, texts, are_tokens};
ghost use Rattle.document_grammar.specs.Tree.{Token, Tree};
ghost use Rattle.document_grammar.specs.Derivation.{Sort, Spells, word, terminals};
ghost use Rattle.document_grammar.specs.Beginnings.{Starts};
ghost use Rattle.document_grammar.specs.Sentence.{Sentence, Begins, tokens_of};
ghost use Rattle.grammar_machine.specs.Machine.{Frame, Reached, IsStuck};

/// Two derivations of one sort that spell the same tokens are the same tree; and a text, as a document, a selection set
/// or a type, has at most one derivation.
pub fn one_derivation()
    ensures tokens { (sort : Sort) (w : List Token) (t u : Tree) → Spells w t sort → Spells w u sort → t ≡ u }
    ensures texts { (source : List ℕ) (t u : Tree) (sort : Sort) → Sentence source t sort
        → Sentence source u sort → t ≡ u }
{}

/// No late fault: what the machine has read, wherever it comes, begins tokens that a derivation spells; and where these
/// are the tokens of a text before an offset, the text before begins a sentence.
pub fn no_late_fault()
    ensures tokens { (sort : Sort) (before rest : List Token) (frames : List Frame) → Reached sort before rest frames
        → (t : Tree) × (v : List Token) × Spells (before ++ v) t sort }
    ensures texts { (sort : Sort) (source : List ℕ) (before : List Item) (item : Item) (more : List Item)
        (rest : List Token) (frames : List Frame)
        → IsUtf8 source → Cut source (before ++ item ∷ more) → are_tokens before ≡ true
        → Reached sort (tokens_of before) rest frames
        → Begins sort (texts before) }
{}

/// No early fault: when the machine is stuck, no derivation spells tokens that begin with those it has read and the
/// next two.
pub fn no_early_fault()
    ensures { (sort : Sort) (before rest : List Token) → IsStuck sort before rest
        → ¬ Starts sort (map word before ++ take 2 (terminals rest)) }
{}
