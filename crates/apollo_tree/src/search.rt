// A search along the trees that follow one another in a table, for the first that a test takes.
ghost use Rattle.std.specs.Prelude.{◌≡◌, Bool, map};
ghost use Rattle.document_grammar.specs.declared.kind.SyntaxKind.{SyntaxKind as Kind};
ghost use Rattle.apollo_tree.specs.Children.{IsSpan};
ghost use Rattle.apollo_tree.specs.Searches.{GivesFound};

use crate::packed::Packed;
use crate::record::Record;
use document_grammar::SyntaxKind;

/// A test of elements by their kind, and by whether they are nodes or leaves.
pub trait ElementTest: Copy {
    // whether the test takes a node (true) or a leaf (false) of a kind
    ghost is_taken: { Self → Bool → Kind → Bool };

    /// Whether the test takes a node of this kind, or a leaf of it.
    fn takes(self, is_node: bool, kind: SyntaxKind) -> bool
        ensures { result ≡ is_taken self is_node kind };
}

// Takes each node.
#[derive(Clone, Copy)]
pub struct AnyNode;

impl ElementTest for AnyNode {
    ghost is_taken = { λ test is_node kind. is_node };

    #[inline(always)]
    fn takes(self, is_node: bool, _kind: SyntaxKind) -> bool {
        is_node
    }
}

// A record that a search found, and its index.
#[derive(Clone, Copy)]
pub struct Found {
    pub index: usize,
    pub row: Record,
}

// The first of a span's trees that the test takes. It goes over one slice of records, all of one form.
#[inline(always)]
pub fn find_in<R: Packed, T: ElementTest>(
    records: &[R],
    from: usize,
    to: usize,
    test: T,
) -> Option<Found>
    requires { IsSpan (map R.plain records.now) from to }
    ensures { GivesFound (T.is_taken test) (map R.plain records.now) from to result }
{
    let mut index = from;
    while index < to {
        let row = records[index].row();
        if test.takes(row.is_node, row.kind) {
            return Some(Found { index, row });
        }
        index += row.size;
    }
    None
}
