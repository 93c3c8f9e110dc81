//! Formats a GraphQL document: the same document with another layout, or the errors of a text that is no document.
//!
//! `format_or_errors` parses the text and writes it anew, or gives the errors of that parse which people see first. It
//! keeps significant tokens and comments, in their order. Only the optional sign before a first member may come or go,
//! and block strings may be spelled anew, with the same value. `gqlfmt_run` calls it through the trait
//! `DocumentFormatter`, so that it is proved without the code of the parser. `format_within`, which `gqlls_server` and
//! `c_parsing` call, does the same without the errors, and `format_comments` is for texts without definitions.
#![tactic(auto)]

ghost use Rattle.std.specs.Prelude.{◌≡◌, ◌<◌, ◌≤◌, ℕ, true, false, List, None, length, map, IfErr, IfOk, IfSome};
ghost use Rattle.std.specs.Prelude.{string_bytes};
ghost use Rattle.lexical_grammar.specs.Reads.{items_of};
ghost use Rattle.document_grammar.specs.Derivation.{nest};
ghost use Rattle.apollo_parser.specs.Errors.{error_of};
ghost use Rattle.format_layout.specs.declared.style.WriteError.TheVariants.{TooLong};
ghost use Rattle.format_layout.specs.Lengths.{longest_layout, most_items};
ghost use Rattle.formatter.specs.Comments.{HasNoDefinitions, HasSameComments};
ghost use Rattle.formatter.specs.Finding.{AreFirstOf};
ghost use Rattle.formatter.specs.Formatted.{IsDocument, IsFormatted, IsNoDocument, MayExceed};

mod comments;
pub mod laws;
mod line_ends;

use apollo_parser::{BorrowedSyntaxTree, DocumentRoot, IndexedElement, Lexer, Limits, Parser};
pub use comments::{format_comments, has_no_definitions};
use first_errors::{FirstErrors, first_errors};
pub use format_layout::WriteError;
use format_layout::{Elements, Gaps, format_document};
pub use line_ends::{LineEnd, first_line_end, keeps_document, with_line_end};
use std::alloc::{AllocError, Allocator};

// A tree, as the layout reads it.
#[derive(Drop)]
struct TreeElements<'t, 's, A: Allocator> {
    tree: &'t BorrowedSyntaxTree<'s, DocumentRoot, A>,
}

impl<'t, 's, A: Allocator> Elements for TreeElements<'t, 's, A> {
    fn element_count(&self) -> usize {
        self.tree.element_count()
    }

    // where it is inlined, nothing is worked out that the walk does not use
    #[inline(always)]
    fn element(&self, index: usize) -> Option<IndexedElement> {
        self.tree.element(index)
    }
}

// How a document is laid out.
#[derive(Drop)]
struct Plan<A: Allocator> {
    gaps: Gaps<A>,
    // how deep the document nests
    nesting: usize,
}

// The plan of a document's layout, or the first errors of a text that is no document within both limits. The tree is
// let go before the layout is written.
fn plan_of<'s, A: Allocator + Copy>(
    alloc: A,
    source: &'s str,
    limits: Limits,
    shown: usize,
) -> Result<Result<Plan<A>, FirstErrors<'s, A>>, AllocError>
    ensures document { IfOk result (λ r. IfOk r (λ plan. IsDocument source.now limits.recursion limits.tokens)) }
    ensures nesting { IfOk result
        (λ r. IfOk r (λ plan. (d : IsDocument source.now limits.recursion limits.tokens)
        → nest d.tree ≡ plan.nesting)) }
    ensures refused { IfOk result (λ r. IfErr r (λ first. IsNoDocument source.now limits.recursion limits.tokens)) }
    ensures first { IfOk result
        (λ r. IfErr r (λ first. AreFirstOf limits source.now shown (map error_of first.errors.items) first.more)) }
{
    let tree = Parser::within(source, limits).parse_borrowed(alloc)?;
    let errors = tree.errors().as_slice();
    if !errors.is_empty() {
        let first = first_errors(alloc, &tree.root(), errors, shown)?;
        return Ok(Err(first));
    }
    let gaps = Gaps::of(alloc, source, &TreeElements { tree: &tree })?;
    // without errors, the greatest nesting that was tried is the tree's
    let nesting = tree.recursion_limit().high;
    Ok(Ok(Plan { gaps, nesting }))
}

/// What formats documents.
pub trait DocumentFormatter {
    /// The document with another layout, of at most `most` bytes. Where the text is no document within both limits, the
    /// errors of its parse, as the function `first_errors` chooses them, at most `shown`. It fails where memory is
    /// refused, or the formatted text has more bytes, which is found before it is built: after at most some two times
    /// `most` bytes. Where `most` is at least `longest_layout` of how deep the document nests, which no formatted text
    /// exceeds, it fails for memory alone.
    ///
    /// The token limit is one on the text, and none on the formatted text (`stays_within`).
    ///
    /// The layout alone changes: the significant tokens and the comments are those of the text, in their order, but
    /// that the optional sign `|` or `&` before the first of some members may come or go, and a block string may be
    /// spelled anew with the same value, for the indent of its line.
    fn format_or_errors<'s, A: Allocator + Copy>(
        &self,
        alloc: A,
        source: &'s str,
        limits: Limits,
        most: usize,
        shown: usize,
    ) -> Result<Result<String<A>, FirstErrors<'s, A>>, WriteError>
        ensures formatted { IfOk result
            (λ r. IfOk r (λ text. IsFormatted source.now limits.recursion limits.tokens (string_bytes text))) }
        ensures short { IfOk result (λ r. IfOk r (λ text. length (string_bytes text) ≤ most)) }
        ensures longest { IfOk result
            (λ r. IfOk r (λ text. (d : IsDocument source.now limits.recursion limits.tokens)
            → length (string_bytes text) ≤ longest_layout (nest d.tree) (length source.now))) }
        ensures items { IfOk result
            (λ r. IfOk r (λ text. length (items_of (string_bytes text)) ≤ most_items (length (items_of source.now)))) }
        ensures refused { IfOk result (λ r. IfErr r (λ first. IsNoDocument source.now limits.recursion limits.tokens)) }
        ensures first { IfOk result
            (λ r. IfErr r (λ first. AreFirstOf limits source.now shown (map error_of first.errors.items) first.more)) }
        ensures long { IfErr result
            (λ error. error ≡ TooLong → MayExceed source.now limits.recursion limits.tokens most) };

    /// A text without definitions with another layout, or `None`, as the function `format_comments` has it.
    fn format_comments<A: Allocator + Copy>(
        &self,
        alloc: A,
        source: &str,
        most: usize,
    ) -> Result<Option<String<A>>, WriteError>
        ensures same { IfOk result (λ o. IfSome o (λ text. HasSameComments source.now (string_bytes text))) }
        ensures short { IfOk result (λ o. IfSome o (λ text. length (string_bytes text) ≤ most)) }
        ensures longest { IfOk result
            (λ o. IfSome o (λ text. length (string_bytes text) ≤ longest_layout 0 (length source.now))) }
        ensures items { IfOk result
            (λ o. IfSome o (λ text. length (items_of (string_bytes text))
            ≤ most_items (length (items_of source.now)))) }
        ensures other { IfOk result (λ o. o ≡ None → ¬ HasNoDefinitions source.now) }
        ensures long { IfErr result (λ error. error ≡ TooLong → HasNoDefinitions source.now) }
        ensures small { IfErr result (λ error. error ≡ TooLong → most < longest_layout 0 (length source.now)) };
}

/// The layout of this crate.
#[derive(Clone, Copy)]
pub struct Formatter;

impl DocumentFormatter for Formatter {
    fn format_or_errors<'s, A: Allocator + Copy>(
        &self,
        alloc: A,
        source: &'s str,
        limits: Limits,
        most: usize,
        shown: usize,
    ) -> Result<Result<String<A>, FirstErrors<'s, A>>, WriteError> {
        match plan_of(alloc, source, limits, shown)? {
            Ok(plan) => {
                let Plan { gaps, nesting } = plan;
                let text = format_document(alloc, source, gaps, nesting, most)?;
                Ok(Ok(text))
            }
            Err(first) => Ok(Err(first)),
        }
    }

    fn format_comments<A: Allocator + Copy>(
        &self,
        alloc: A,
        source: &str,
        most: usize,
    ) -> Result<Option<String<A>>, WriteError> {
        format_comments(alloc, source, most)
    }
}

/// `DocumentFormatter::format_or_errors` of `Formatter` without the errors: `None` where the text is no document within
/// both limits.
pub fn format_within<A: Allocator + Copy>(
    alloc: A,
    source: &str,
    limits: Limits,
    most: usize,
) -> Result<Option<String<A>>, WriteError>
    ensures formatted { IfOk result
        (λ o. IfSome o (λ text. IsFormatted source.now limits.recursion limits.tokens (string_bytes text))) }
    ensures short { IfOk result (λ o. IfSome o (λ text. length (string_bytes text) ≤ most)) }
    ensures longest { IfOk result
        (λ o. IfSome o (λ text. (d : IsDocument source.now limits.recursion limits.tokens)
        → length (string_bytes text) ≤ longest_layout (nest d.tree) (length source.now))) }
    ensures items { IfOk result
        (λ o. IfSome o (λ text. length (items_of (string_bytes text)) ≤ most_items (length (items_of source.now)))) }
    ensures refused { IfOk result (λ o. o ≡ None → IsNoDocument source.now limits.recursion limits.tokens) }
    ensures long { IfErr result (λ error. error ≡ TooLong → MayExceed source.now limits.recursion limits.tokens most) }
{
    match Formatter.format_or_errors(alloc, source, limits, most, 0)? {
        Ok(text) => Ok(Some(text)),
        Err(_) => Ok(None),
    }
}

/// Whether a formatted text has at most as many items as the limit, ignored ones and the end among them. It can then be
/// formatted again within the limits of its source. It may have more items than its source has, since the layout parts
/// tokens by white space.
pub fn stays_within(text: &str, token_limit: usize) -> bool
    ensures yes { result ≡ true → (source : List ℕ) (r : ℕ) → IsFormatted source r token_limit text.now
        → IsDocument text.now r token_limit }
    ensures few { result ≡ true → length (items_of text.now) ≤ token_limit }
    ensures no { result ≡ false → token_limit < length (items_of text.now) }
{
    // each item but the end has a byte
    text.len() < token_limit || Lexer::new(text).count() <= token_limit
}
