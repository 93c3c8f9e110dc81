// What a crate above `apollo_parser` alone can state: the promise of a parse and the laws, put together.
ghost use Rattle.std.specs.Prelude.{◌≡◌, ℕ, true, [], IfOk};
ghost use Rattle.std.specs.List.{All, Any};
ghost use Rattle.apollo_parser.specs.Accessors.{accessors};
ghost use Rattle.apollo_parser.specs.Children.{is_node_place};
ghost use Rattle.apollo_parser.specs.Derivation.{document as document_sort};
ghost use Rattle.apollo_parser.specs.FirstError.{NotLate};
ghost use Rattle.apollo_parser.specs.Numbered.{tree_of};
ghost use Rattle.apollo_parser.specs.Parsed.{IsLimit, IsTokenLimit, OfFirst, Recovers};
ghost use Rattle.apollo_parser.specs.Placed.{bare};
ghost use Rattle.apollo_parser.specs.ReadingBack.{ReadsAt, place};
ghost use Rattle.apollo_parser.specs.Reads.{items_of};
ghost use Rattle.apollo_parser.specs.Sentence.{OnlyDerivation, Sentence};
ghost use Rattle.apollo_parser.specs.Tree.{Tree};

use apollo_parser::laws::{one_derivation, reading_back};
use apollo_parser::{DocumentRoot, Parser, SyntaxTree};
use std::alloc::{AllocError, Allocator};

/// The parse of a document within the default limits.
pub fn parsed<A: Allocator + Copy>(
    alloc: A,
    source: &str,
) -> Result<SyntaxTree<DocumentRoot, A>, AllocError>
    ensures only_derivation { IfOk result
        (λ t. t.errors ≡ [] → OnlyDerivation (items_of source.now) (bare (tree_of t.tree))) }
    ensures not_late { IfOk result
        (λ t. OfFirst (λ e. ¬ IsTokenLimit e → NotLate document_sort source.now e.index) t.errors) }
    ensures recovers { IfOk result (λ t. ¬ Any IsLimit t.errors → Recovers 500 (items_of source.now) t) }
    // without errors, each accessor finds at each node of the tree as many children as its row says
    ensures reads_back { IfOk result
        (λ t. t.errors ≡ [] → (i : ℕ) → is_node_place (place t.tree i) ≡ true
        → All (ReadsAt (place t.tree i)) accessors) }
    // without errors, a derivation of the text is the tree
    ensures one_tree { IfOk result
        (λ t. t.errors ≡ [] → (u : Tree) → Sentence source.now u document_sort → bare (tree_of t.tree) ≡ u) }
{
    reading_back();
    one_derivation();
    let tree = Parser::new(source).parse(alloc)?;
    Ok(tree)
}
