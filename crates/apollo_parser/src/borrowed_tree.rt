// What a parse gives while the source is at hand.
ghost use Rattle.std.specs.Prelude.{◌≡◌, true, map, length, IfOk};
ghost use Rattle.std.specs.Slice.Iter.{iter_rest};
ghost use Rattle.document_grammar.specs.Forests.{text};
ghost use Rattle.apollo_tree.specs.Indexed.{element_at};
ghost use Rattle.apollo_tree.specs.Order.{order, text_at};
ghost use Rattle.apollo_tree.specs.References.{node_place};
ghost use Rattle.parser_state.specs.Errors.{error_of};
ghost use Rattle.apollo_parser.specs.Roots.{root_kind};

use crate::syntax_tree::{Root, SyntaxTree};
use apollo_lexer::{Error, LimitTracker};
use apollo_tree::{BorrowedSubtree, IndexedElement, SyntaxNode};
use parser_state::{BorrowedError, Finished};
use std::alloc::{AllocError, Allocator, Global};
use std::marker::{Model, PhantomData};
use std::slice::Iter;

/// The tree of a text, the errors that were found in it, and how the limits were used. Tree and errors borrow the text,
/// so a long token is in memory once. `R` marks what the root is.
#[derive(Drop)]
pub struct BorrowedSyntaxTree<'i, R: Root, A: Allocator = Global> {
    tree: BorrowedSubtree<'i, A>,
    errors: Vec<BorrowedError<'i>, A>,
    recursion_limit: LimitTracker,
    token_limit: LimitTracker,
    root: PhantomData<R>,
    ghost rooted: { R.roots (root_kind tree) ≡ true },
}

impl<'i, R: Root, A: Allocator> Model for BorrowedSyntaxTree<'i, R, A> {
    ghost use Rattle.std.specs.Coded.{codes};
    ghost use Rattle.std.specs.Prelude.{map};
    ghost use Rattle.apollo_tree.specs.Codes.{forest_code};
    ghost use Rattle.parser_state.specs.Errors.{error_of};
    ghost use Rattle.apollo_parser.specs.Parsed.{Parsed};

    ghost Value = { Parsed };

    ghost coded = { Prim.hlevel (codes, forest_code) };

    ghost view = { λ t. record {
      tree = t.tree;
      errors = map error_of t.errors.items;
      recursion_limit = t.recursion_limit;
      token_limit = t.token_limit;
    } };
}

/// The same errors with texts of their own. It fails only where memory is refused.
pub fn own_errors<A: Allocator + Copy>(
    alloc: A,
    errors: &[BorrowedError<'_>],
) -> Result<Vec<Error<A>, A>, AllocError>
    ensures { IfOk result (λ own. own.items ≡ map error_of errors.now) }
{
    let mut own = Vec::with_capacity(alloc, errors.len())?;
    for error in errors {
        own.push(error.to_error(alloc)?)?;
    }
    Ok(own)
}

impl<'i, R: Root, A: Allocator> BorrowedSyntaxTree<'i, R, A> {
    // What a finished parse has.
    pub(crate) fn of(finished: Finished<'i, A>) -> Self
        requires { R.roots (root_kind finished.tree) ≡ true }
        ensures { result ≡ record {
          tree = finished.entry.tree;
          errors = map error_of finished.entry.errors.items;
          recursion_limit = finished.entry.recursion_limit;
          token_limit = finished.entry.token_limit;
        } }
    {
        BorrowedSyntaxTree {
            tree: finished.tree,
            errors: finished.errors,
            recursion_limit: finished.recursion_limit,
            token_limit: finished.token_limit,
            root: PhantomData,
        }
    }

    /// The root, which holds all of the text.
    pub fn root(&self) -> SyntaxNode<'_>
        ensures place { node_place result ≡ record { whole = self.now.tree; index = 0 } }
        ensures text { text_at (node_place result) ≡ text self.now.tree }
    {
        self.tree.root()
    }

    /// The errors, in the order in which they were found.
    pub fn errors(&self) -> Iter<'_, BorrowedError<'i>>
        ensures { map error_of (iter_rest result) ≡ self.now.errors }
    {
        self.errors.iter()
    }

    /// The recursion limit, and the greatest nesting that was tried.
    pub fn recursion_limit(&self) -> LimitTracker
        ensures { result ≡ self.now.recursion_limit }
    {
        self.recursion_limit
    }

    /// The token limit, and the number of items that were tried.
    pub fn token_limit(&self) -> LimitTracker
        ensures { result ≡ self.now.token_limit }
    {
        self.token_limit
    }

    /// How many elements the tree has, nodes and leaves.
    pub fn element_count(&self) -> usize
        ensures { result ≡ length (order self.now.tree) }
    {
        self.tree.element_count()
    }

    /// The element with an index, in constant time. The index counts the elements before it in document order: the root
    /// has 0. `None` where there are no more elements than that.
    pub fn element(&self, index: usize) -> Option<IndexedElement>
        ensures { result ≡ element_at self.now.tree index }
    {
        self.tree.element(index)
    }
}

impl<'i, R: Root, A: Allocator + Copy> BorrowedSyntaxTree<'i, R, A> {
    /// The same tree, errors and limits, which borrow nothing. It fails only where memory is refused.
    pub fn into_owned(self, alloc: A) -> Result<SyntaxTree<R, A>, AllocError>
        ensures { IfOk result (λ t. t ≡ self.entry) }
    {
        let BorrowedSyntaxTree {
            tree,
            errors,
            recursion_limit,
            token_limit,
            ..
        } = self;
        let own = own_errors(alloc, errors.as_slice())?;
        // their memory is free before the text is copied
        drop(errors);
        let tree = tree.into_owned(alloc)?;
        Ok(SyntaxTree {
            tree,
            errors: own,
            recursion_limit,
            token_limit,
            root: PhantomData,
        })
    }
}
