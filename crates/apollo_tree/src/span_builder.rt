ghost use Rattle.std.specs.Prelude.{◌≡◌, ◌⊎◌, ℕ, suc, ◌+◌, ◌^◌, ◌<◌, ◌≤◌, [], ◌∷◌, ◌++◌, length, take, drop, true};
ghost use Rattle.std.specs.Prelude.{OnErr, OnOk, IfOk, string_bytes};
ghost use Rattle.apollo_tree.specs.Sound.{CanFinish, Fits};
ghost use Rattle.apollo_tree.specs.Open.{IsComplete, start_behind, up_at};
ghost use Rattle.apollo_tree.specs.Brackets.{Opening, Single, Closing, brackets, written, open_at};
ghost use Rattle.apollo_tree.specs.Children.{tiled};
ghost use Rattle.apollo_tree.specs.Adopted.{after_adoption};
ghost use Rattle.document_grammar.specs.Forests.{Forest, none, leaf as leaf_of};
ghost use Rattle.document_grammar.specs.Builds.{nothing, start, add_leaf, finish, wrap, CanOpenAt, built_count};
ghost use Rattle.document_grammar.specs.Builds.{built_text};

use crate::borrowed::BorrowedSubtree;
use crate::record::Record;
use crate::subtree::Subtree;
use crate::table::RecordTable;
use document_grammar::SyntaxKind;
use ghost_value::{Bytes, Ghost};
use std::alloc::{AllocError, Allocator, Global};
use std::marker::Model;

/// An index between the elements built so far, where a node can be opened later: the number of elements before it.
#[derive(Clone, Copy)]
pub struct Checkpoint {
    pub index: usize,
}

/// Builds a tree of a text that is at hand elsewhere, from its leaves and the starts and ends of its nodes, called in
/// document order. It keeps how long the leaves are, and no text: the finished tree borrows it.
///
/// Contracts see it as the trees in the innermost open node, and the open nodes from there outward. Each call also says
/// which brackets have been written: a start opens, a finish closes, and a wrap opens at the index of its checkpoint.
/// The text of all leaves has to be shorter than 2 ^ 64 bytes, as it is where each leaf is a part of one source and
/// none is added twice. A call fails only when memory is refused, and then leaves what has been built as it was;
/// `leaf_node` may have opened its node.
#[derive(Drop)]
pub struct SpanBuilder<A: Allocator = Global> {
    records: RecordTable<A>,
    unfinished: Vec<usize, A>,
    len: usize,
    // the text of the leaves, which contracts alone see
    leaf_text: Ghost<Bytes>,
}

impl<A: Allocator> Model for SpanBuilder<A> {
    ghost use Rattle.std.specs.Prelude.{◌≡◌, length};
    ghost use Rattle.document_grammar.specs.Builds.{Building};
    ghost use Rattle.apollo_tree.specs.Codes.{building_code};

    ghost Value = { Building };

    ghost coded = { building_code };

    ghost use Rattle.apollo_tree.specs.Records.{built};
    ghost use Rattle.apollo_tree.specs.Open.{Holds};

    ghost view = { λ a. built a.leaf_text.value a.records };

    ghost invariant = { λ a. Holds (built a.leaf_text.value a.records) a.records a.unfinished.items a.leaf_text.value
        × (a.len ≡ length a.leaf_text.value) };
}

impl<A: Allocator + Copy> SpanBuilder<A> {
    /// A builder that has built nothing. It takes no memory yet.
    pub fn new(alloc: A) -> SpanBuilder<A>
        ensures { result ≡ nothing }
    {
        SpanBuilder {
            records: RecordTable::new(alloc),
            unfinished: Vec::new(alloc),
            len: 0,
            leaf_text: Ghost::empty(),
        }
    }

    /// Takes memory for this many elements more, and for this many more open nodes.
    pub fn reserve(&mut self, elements: usize, open_nodes: usize) -> Result<(), AllocError>
        ensures { self.new ≡ self.old }
    {
        self.unfinished.reserve(open_nodes)?;
        self.records.reserve(elements)
    }

    // Opens a node as `start_node` does, where memory may have to grow. In one function the compiler would save
    // registers for this on every call.
    #[cold]
    #[inline(never)]
    fn start_node_growing(&mut self, kind: SyntaxKind) -> Result<(), AllocError>
        ensures ok { OnOk result (self.new ≡ start kind self.old) }
        ensures calls { OnOk result (written self.new ≡ written self.old ++ Opening kind ∷ []) }
        ensures err { OnErr result (self.new ≡ self.old) }
    {
        let index = self.checkpoint().index;
        let node = Record::node(kind, self.len, 0, self.to_parent(index));
        self.unfinished.reserve(1)?;
        self.records.push(node)?;
        self.unfinished.push(index)?;
        Ok(())
    }

    /// Opens a node after the trees built so far. Its children are what is built until it is closed.
    pub fn start_node(&mut self, kind: SyntaxKind) -> Result<(), AllocError>
        ensures ok { OnOk result (self.new ≡ start kind self.old) }
        ensures calls { OnOk result (written self.new ≡ written self.old ++ Opening kind ∷ []) }
        ensures err { OnErr result (self.new ≡ self.old) }
    {
        let index = self.checkpoint().index;
        if self.unfinished.len() < self.unfinished.capacity() {
            let node = Record::node(kind, self.len, 0, self.to_parent(index));
            if self.records.push_in_place(node) {
                self.unfinished.push_reserved(index);
                return Ok(());
            }
        }
        self.start_node_growing(kind)
    }

    /// A checkpoint behind all that is built, for a later `wrap`.
    pub fn checkpoint(&self) -> Checkpoint
        ensures index { result.index ≡ built_count self.now }
        ensures can_open { CanOpenAt result.index self.now }
    {
        Checkpoint {
            index: self.records.len(),
        }
    }

    /// Opens a node at an earlier index of the innermost open node, round all that has been built in it since.
    pub fn wrap(&mut self, checkpoint: Checkpoint, kind: SyntaxKind) -> Result<(), AllocError>
        requires { CanOpenAt checkpoint.index self.old }
        ensures ok { OnOk result (self.new ≡ wrap checkpoint.index kind self.old) }
        ensures calls { OnOk result (written self.new ≡ open_at checkpoint.index kind (written self.old)) }
        ensures err { OnErr result (self.new ≡ self.old) }
    {
        let index = checkpoint.index;
        let start = self.start_behind(index);
        let to_parent = self.to_parent(index);
        self.unfinished.reserve(1)?;
        self.records
            .insert(index, Record::node(kind, start, 0, to_parent))?;
        adopt(&mut self.records, index);
        self.unfinished.push(index)?;
        Ok(())
    }

    // The byte offset in the text at which the element at an index begins, or the text's length when the index is the
    // end.
    fn start_behind(&self, index: usize) -> usize
        requires { CanOpenAt index self.now }
        ensures { result ≡ start_behind index self.now }
    {
        if index < self.records.len() {
            self.records.get(index).start
        } else {
            self.len
        }
    }

    // How many records before an index the innermost open node is; 0 when none is open.
    fn to_parent(&self, index: usize) -> usize
        requires { CanOpenAt index self.now }
        ensures up { result ≡ up_at index self.now }
        ensures within { result ≤ index }
    {
        match self.unfinished.last() {
            Some(parent) => index - *parent,
            None => 0,
        }
    }

    // Adds a leaf as `token` does, where memory may have to grow.
    #[cold]
    #[inline(never)]
    fn token_growing(&mut self, kind: SyntaxKind, text: &str) -> Result<(), AllocError>
        requires { length (built_text self.old) + length text.now < 2 ^ 64 }
        ensures ok { OnOk result (self.new ≡ add_leaf kind text.now self.old) }
        ensures calls { OnOk result (written self.new ≡ written self.old ++ Single kind text.now ∷ []) }
        ensures err { OnErr result (self.new ≡ self.old) }
    {
        let to_parent = self.to_parent(self.checkpoint().index);
        self.records.push(Record::leaf(kind, self.len, to_parent))?;
        self.leaf_text = self.leaf_text.joined(text);
        self.len += text.len();
        Ok(())
    }

    /// Adds a leaf after the trees built so far. The leaves' texts, joined, are the tree's text, which has to stay
    /// shorter than 2 ^ 64 bytes.
    pub fn token(&mut self, kind: SyntaxKind, text: &str) -> Result<(), AllocError>
        requires { length (built_text self.old) + length text.now < 2 ^ 64 }
        ensures ok { OnOk result (self.new ≡ add_leaf kind text.now self.old) }
        ensures calls { OnOk result (written self.new ≡ written self.old ++ Single kind text.now ∷ []) }
        ensures err { OnErr result (self.new ≡ self.old) }
    {
        let to_parent = self.to_parent(self.checkpoint().index);
        let leaf = Record::leaf(kind, self.len, to_parent);
        if self.records.push_in_place(leaf) {
            self.leaf_text = self.leaf_text.joined(text);
            self.len += text.len();
            return Ok(());
        }
        self.token_growing(kind, text)
    }

    // Adds a node of one leaf as `leaf_node` does, where memory may have to grow.
    #[cold]
    #[inline(never)]
    fn leaf_node_growing(
        &mut self,
        node: SyntaxKind,
        leaf: SyntaxKind,
        text: &str,
    ) -> Result<(), AllocError>
        requires leaf { Fits node (leaf_of leaf text.now none) }
        requires len { length (built_text self.old) + length text.now < 2 ^ 64 }
        ensures ok { OnOk result (self.new ≡ finish (add_leaf leaf text.now (start node self.old))) }
        ensures calls { OnOk result
            (written self.new ≡ written self.old ++ Opening node ∷ Single leaf text.now ∷ Closing ∷ []) }
        ensures err { OnErr result ((self.new ≡ self.old) ⊎ (self.new ≡ start node self.old)) }
    {
        self.start_node(node)?;
        self.token(leaf, text)?;
        self.finish_node();
        Ok(())
    }

    /// Adds a node of one leaf, as `start_node`, `token` and `finish_node` do together, and asks what `token` and
    /// `finish_node` ask. When it fails the node may have been opened.
    pub fn leaf_node(
        &mut self,
        node: SyntaxKind,
        leaf: SyntaxKind,
        text: &str,
    ) -> Result<(), AllocError>
        requires leaf { Fits node (leaf_of leaf text.now none) }
        requires len { length (built_text self.old) + length text.now < 2 ^ 64 }
        ensures ok { OnOk result (self.new ≡ finish (add_leaf leaf text.now (start node self.old))) }
        ensures calls { OnOk result
            (written self.new ≡ written self.old ++ Opening node ∷ Single leaf text.now ∷ Closing ∷ []) }
        ensures err { OnErr result ((self.new ≡ self.old) ⊎ (self.new ≡ start node self.old)) }
    {
        let to_parent = self.to_parent(self.checkpoint().index);
        let first = Record::node(node, self.len, 2, to_parent);
        let second = Record::leaf(leaf, self.len, 1);
        if self.records.push_both_in_place(first, second) {
            self.leaf_text = self.leaf_text.joined(text);
            self.len += text.len();
            return Ok(());
        }
        self.leaf_node_growing(node, leaf, text)
    }

    /// Closes the innermost open node. It takes no memory and can't fail.
    ///
    /// A node of the kind NAME, INT_VALUE, STRING_VALUE or BOOLEAN_VALUE must hold one leaf, the one of its row, whose
    /// text is a token of its kind.
    pub fn finish_node(&mut self)
        requires { CanFinish self.old }
        ensures after { self.new ≡ finish self.old }
        ensures calls { written self.new ≡ written self.old ++ Closing ∷ [] }
        ensures counted { built_count self.new < 2 ^ 64 }
    {
        let index = self.unfinished.pop().unwrap();
        let size = self.records.len() - index;
        self.records.set_size(index, size);
    }

    /// The finished tree over its text, once all nodes are closed and there is one root.
    pub(crate) fn finish_over(self, text: String<A>) -> Subtree<A>
        requires complete { IsComplete self }
        requires text { string_bytes text ≡ built_text self }
        ensures value { result ≡ self.here }
        ensures calls { brackets result ≡ written self }
        ensures only { (f : Forest) → brackets f ≡ written self → f ≡ result }
    {
        let SpanBuilder { records, .. } = self;
        Subtree { records, text }
    }

    /// The finished tree, once all nodes are closed and there is one root. It borrows its text from a source that
    /// begins with it.
    pub fn finish(self, source: &str) -> BorrowedSubtree<'_, A>
        requires complete { IsComplete self }
        requires source { take (length (built_text self)) source.now ≡ built_text self }
        ensures value { result ≡ self.here }
        ensures calls { brackets result ≡ written self }
        ensures only { (f : Forest) → brackets f ≡ written self → f ≡ result }
    {
        let SpanBuilder { records, len, .. } = self;
        BorrowedSubtree {
            records,
            text: &source[..len],
        }
    }
}

// Makes a record the parent of the trees that follow it.
fn adopt<A: Allocator>(records: &mut RecordTable<A>, parent: usize)
    requires inside { parent < length records.old }
    requires trees { tiled 0 (drop (suc parent) records.old) ≡ true }
    ensures { records.new ≡ after_adoption parent records.old }
{
    let len = records.len();
    let mut child = parent + 1;
    while child < len {
        let size = records.get(child).size;
        records.set_parent(child, child - parent);
        child += size;
    }
}
