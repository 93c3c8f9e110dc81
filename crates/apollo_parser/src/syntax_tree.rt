// What a parse gives.
ghost use Rattle.std.specs.Prelude.{◌≡◌, ◌||◌, Bool, true};
ghost use Rattle.document_grammar.specs.declared.kind.SyntaxKind.{SyntaxKind};
ghost use Rattle.document_grammar.specs.declared.kind.SyntaxKind.TheVariants.{DOCUMENT, SELECTION_SET, ERROR};
ghost use Rattle.document_grammar.specs.Choices.{Types};
ghost use Rattle.apollo_cst_core.specs.Cast.{one_of};
ghost use Rattle.document_grammar.specs.Numbers.{is_kind};
ghost use Rattle.apollo_parser.specs.Roots.{root_kind};

use apollo_cst_core::CstNode;
use apollo_cst_executable::{SelectionSet, Ty};
use apollo_cst_type_system::Document;
use apollo_lexer::{Error, LimitTracker};
use apollo_tree::{CompactElement, IndexedElement, Subtree, SyntaxNode};
use std::alloc::{AllocError, Allocator, Global};
use std::fmt;
use std::marker::{Model, PhantomData};
use std::slice::Iter;

/// What a tree is of: its marker says which kinds the root may have.
pub trait Root {
    ghost roots: { SyntaxKind → Bool };
}

/// Marks the tree of a document, whose root is a DOCUMENT.
pub struct DocumentRoot;

impl Root for DocumentRoot {
    ghost roots = { is_kind DOCUMENT };
}

/// Marks the tree of a selection set, whose root is a SELECTION_SET.
pub struct SelectionSetRoot;

impl Root for SelectionSetRoot {
    ghost roots = { is_kind SELECTION_SET };
}

/// Marks the tree of a type, whose root is a type, or an ERROR where none starts.
pub struct TypeRoot;

impl Root for TypeRoot {
    ghost roots = { λ k. one_of Types k || is_kind ERROR k };
}

/// The tree of a text, the errors that were found in it, and how the limits were used. `R` marks what the root is.
#[derive(Drop)]
pub struct SyntaxTree<R: Root, A: Allocator = Global> {
    pub(crate) tree: Subtree<A>,
    pub(crate) errors: Vec<Error<A>, A>,
    pub(crate) recursion_limit: LimitTracker,
    pub(crate) token_limit: LimitTracker,
    pub(crate) root: PhantomData<R>,
    ghost rooted: { R.roots (root_kind tree) ≡ true },
}

impl<R: Root, A: Allocator> Model for SyntaxTree<R, A> {
    ghost use Rattle.std.specs.Coded.{codes};
    ghost use Rattle.apollo_tree.specs.Codes.{forest_code};
    ghost use Rattle.apollo_parser.specs.Parsed.{Parsed};

    ghost Value = { Parsed };

    ghost coded = { Prim.hlevel (codes, forest_code) };

    ghost view = { λ t. record {
      tree = t.tree;
      errors = t.errors.items;
      recursion_limit = t.recursion_limit;
      token_limit = t.token_limit;
    } };
}

impl<R: Root, A: Allocator> SyntaxTree<R, A> {
    ghost use Rattle.std.specs.Prelude.{◌≡◌};
    ghost use Rattle.std.specs.Slice.Iter.{iter_rest};
    ghost use Rattle.std.specs.Prelude.{◌<◌, ◌^◌, length};
    ghost use Rattle.document_grammar.specs.Forests.{text};
    ghost use Rattle.apollo_tree.specs.Compact.{compact_elements};
    ghost use Rattle.apollo_tree.specs.Filled.{filled};
    ghost use Rattle.apollo_tree.specs.Order.{order, text_at};
    ghost use Rattle.apollo_tree.specs.Indexed.{element_at};
    ghost use Rattle.apollo_tree.specs.References.{node_place};

    /// The root, which holds all of the text.
    pub fn root(&self) -> SyntaxNode<'_>
        ensures place { node_place result ≡ record { whole = self.now.tree; index = 0 } }
        ensures text { text_at (node_place result) ≡ text self.now.tree }
    {
        self.tree.root()
    }

    /// The errors, in the order in which they were found.
    pub fn errors(&self) -> Iter<'_, Error<A>>
        ensures { iter_rest result ≡ self.now.errors }
    {
        self.errors.iter()
    }

    /// The recursion limit, and the greatest nesting that was tried.
    pub fn recursion_limit(&self) -> LimitTracker
        ensures { result ≡ self.now.recursion_limit }
    {
        self.recursion_limit
    }

    /// The token limit, and the number of items that were tried.
    pub fn token_limit(&self) -> LimitTracker
        ensures { result ≡ self.now.token_limit }
    {
        self.token_limit
    }

    /// How many elements the tree has, nodes and leaves.
    pub fn element_count(&self) -> usize
        ensures { result ≡ length (order self.now.tree) }
    {
        self.tree.element_count()
    }

    /// The element with an index, in constant time. The index counts the elements before it in document order: the root
    /// has 0. `None` where there are no more elements than that.
    pub fn element(&self, index: usize) -> Option<IndexedElement>
        ensures { result ≡ element_at self.now.tree index }
    {
        self.tree.element(index)
    }

    /// Writes the elements in document order, in twelve bytes each, as far as there is room. The tree ends, and gives
    /// back what it can while it writes.
    pub fn into_compact(self, rows: &mut [CompactElement])
        requires few { length (order self.tree) < 2 ^ 28 }
        requires short { length (text self.tree) < 2 ^ 31 }
        ensures { rows.new ≡ filled rows.old (compact_elements self.tree) }
    {
        self.tree.into_compact(rows);
    }
}

impl<A: Allocator> SyntaxTree<DocumentRoot, A> {
    ghost use Rattle.apollo_tree.specs.References.{node_place};

    /// The document (GraphQL October 2021, section 2.2), as the typed node of the root. Every tree of `parse` has it,
    /// also with errors.
    pub fn document(&self) -> Document<'_>
        ensures { node_place result.syntax ≡ record { whole = self.now.tree; index = 0 } }
    {
        Document::cast(self.tree.root()).unwrap()
    }
}

impl<A: Allocator> SyntaxTree<SelectionSetRoot, A> {
    ghost use Rattle.apollo_tree.specs.References.{node_place};

    /// The selection set (GraphQL October 2021, section 2.4), as the typed node of the root. Every tree of
    /// `parse_selection_set` has it, also with errors.
    pub fn field_set(&self) -> SelectionSet<'_>
        ensures { node_place result.syntax ≡ record { whole = self.now.tree; index = 0 } }
    {
        SelectionSet::cast(self.tree.root()).unwrap()
    }
}

impl<A: Allocator> SyntaxTree<TypeRoot, A> {
    ghost use Rattle.apollo_cst_core.specs.Cast.{CastsTo};
    ghost use Rattle.apollo_cst_executable.specs.Ty.{ty_node};
    ghost use Rattle.apollo_tree.specs.References.{node_place};

    /// The type (GraphQL October 2021, section 2.11), as the typed node of the root. `None` only where no type starts.
    pub fn ty(&self) -> Option<Ty<'_>>
        ensures { CastsTo (one_of Types (root_kind self.now.tree)) (λ t. node_place (ty_node t))
            (record { whole = self.now.tree; index = 0 }) result }
    {
        Ty::cast(self.tree.root())
    }
}

impl<R: Root, A: Allocator + Copy> SyntaxTree<R, A> {
    ghost use Rattle.std.specs.Prelude.{◌≡◌, IfOk};

    /// The same tree, errors and limits, in memory of their own. It fails only where memory is refused.
    pub fn try_clone(&self, alloc: A) -> Result<SyntaxTree<R, A>, AllocError>
        ensures { IfOk result (λ t. t ≡ self.now) }
    {
        let tree = self.tree.try_clone(alloc)?;
        let mut errors = Vec::new(alloc);
        for error in &self.errors {
            errors.push(error.try_clone(alloc)?)?;
        }
        Ok(SyntaxTree {
            tree,
            errors,
            recursion_limit: self.recursion_limit,
            token_limit: self.token_limit,
            root: PhantomData,
        })
    }
}

/// The printed form: a line for each element of the tree in document order, four spaces a level; a line `- ` with the
/// printed form for each error; and then, without a line feed, the printed recursion limit.
impl<R: Root, A: Allocator> fmt::Debug for SyntaxTree<R, A> {
    fn fmt<W: fmt::Write>(&self, f: &mut fmt::Formatter<W>) -> fmt::Result {
        let tree = &self.tree;
        write!(f, "{tree:?}")?;
        for error in self.errors() {
            writeln!(f, "- {error}")?;
        }
        let limit = self.recursion_limit;
        write!(f, "{limit}")
    }
}
