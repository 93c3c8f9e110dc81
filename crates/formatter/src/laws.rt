//! Laws of the definitions: calls that do nothing, each with a theorem as its contract.

ghost use Rattle.std.specs.Prelude.{◌<◌, ◌≤◌, ℕ, List, length};
ghost use Rattle.document_grammar.specs.Derivation.{nest};
ghost use Rattle.formatter.specs.Formatted.{MayExceed};

/// Only a document of more than 1,082,401 bytes, or one that nests more than 10 deep, can have a formatted text of more
/// than 64 MiB.
pub fn small_documents_fit()
    ensures { (source : List ℕ) (r k : ℕ) → (long : MayExceed source r k 67108864) → nest long.document.tree ≤ 10
        → 1082401 < length source }
{}
