// Where a name is defined and where it is used.
ghost use Rattle.std.specs.Prelude.{◌≡◌, IfOk, map, option_map};
ghost use Rattle.std.specs.List.{filter, find};
ghost use Rattle.apollo_tree.specs.Above.{at_or_above};
ghost use Rattle.apollo_tree.specs.Below.{at_or_below};
ghost use Rattle.apollo_tree.specs.Order.{parent_place, range_at};
ghost use Rattle.apollo_tree.specs.References.{node_place, token_place};
ghost use Rattle.apollo_tree.specs.Yields.{element_place};
ghost use Rattle.document_grammar.specs.declared.kind.SyntaxKind.TheVariants.{OPERATION_DEFINITION};
ghost use Rattle.apollo_cst_core.specs.Kinds.{is_of};
ghost use Rattle.editor_answers.specs.Names.{above, definition_elsewhere, definition_in, is_definition, is_name};
ghost use Rattle.editor_answers.specs.Names.{is_reference, references_elsewhere, references_in, scope_of, wanted};
ghost use Rattle.editor_answers.specs.Names.{wanted_at, wanted_elsewhere};
ghost use Rattle.editor_answers.specs.Parts.{bounds};

use crate::labels::identifier_at;
use crate::names::{NameKind, is_defined_by, is_name_of, kind_of};
use crate::span::{Span, span_of};
use apollo_tree::{SyntaxElement, SyntaxKind, SyntaxNode, SyntaxToken};
use std::alloc::{AllocError, Global};

// A name that is looked for: its meaning, its text, and the node in which it means this.
#[derive(Clone, Copy)]
struct Target<'t> {
    kind: NameKind,
    text: &'t str,
    scope: SyntaxNode<'t>,
}

// The operation that a node is, or is in.
fn operation_from<'t>(node: SyntaxNode<'t>) -> Option<SyntaxNode<'t>>
    ensures { option_map node_place result ≡ find (is_of OPERATION_DEFINITION) (at_or_above (node_place node.entry)) }
{
    for outer in node.ancestors() {
        if outer.kind().is(SyntaxKind::OPERATION_DEFINITION) {
            return Some(outer);
        }
    }
    None
}

// The operation that a leaf is in.
fn operation_around<'t>(leaf: SyntaxToken<'t>) -> Option<SyntaxNode<'t>>
    ensures { option_map node_place result
        ≡ find (is_of OPERATION_DEFINITION) (above (parent_place (token_place leaf.entry))) }
{
    operation_from(leaf.parent()?)
}

// Where a name has its meaning: a variable's name in the operation that it is in, any other in the whole document.
fn scope_of<'t>(root: SyntaxNode<'t>, leaf: SyntaxToken<'t>, kind: NameKind) -> SyntaxNode<'t>
    ensures { node_place result ≡ scope_of (node_place root.entry) (token_place leaf.entry) kind }
{
    match kind {
        NameKind::Variable => match operation_around(leaf) {
            Some(operation) => operation,
            None => root,
        },
        NameKind::Operation | NameKind::Fragment | NameKind::Type | NameKind::Directive => root,
    }
}

// The name at an offset.
fn target_at<'t>(root: SyntaxNode<'t>, offset: usize) -> Option<Target<'t>>
    ensures { option_map (λ target. wanted target.kind target.text.now (node_place target.scope)) result
        ≡ wanted_at (node_place root.entry) offset }
{
    let leaf = identifier_at(root, offset)?;
    let kind = kind_of(leaf)?;
    Some(Target {
        kind,
        text: leaf.text(),
        scope: scope_of(root, leaf, kind),
    })
}

// Whether an element is the leaf of the name that is looked for.
fn is_name(element: SyntaxElement<'_>, target: Target<'_>) -> bool
    ensures { result ≡ is_name target.entry.kind target.entry.text.now (element_place element.entry) }
{
    match element.into_token() {
        Some(leaf) => {
            leaf.kind().is(SyntaxKind::IDENT)
                && is_name_of(leaf, target.kind)
                && leaf.text() == target.text
        }
        None => false,
    }
}

// Whether it is this in a definition.
fn is_definition(element: SyntaxElement<'_>, target: Target<'_>) -> bool
    ensures { result ≡ is_definition target.entry.kind target.entry.text.now (element_place element.entry) }
{
    match element.into_token() {
        Some(leaf) => is_name(element, target) && is_defined_by(leaf, target.kind),
        None => false,
    }
}

// Whether it is a use of the name, or a definition where these are looked for too.
fn is_reference(element: SyntaxElement<'_>, target: Target<'_>, with_definition: bool) -> bool
    ensures { result ≡ is_reference with_definition target.entry.kind target.entry.text.now
        (element_place element.entry) }
{
    is_name(element, target) && (with_definition || !is_definition(element, target))
}

// Where the name is defined that is looked for.
fn first_definition(target: Target<'_>) -> Option<Span>
    ensures { option_map bounds result
        ≡ option_map range_at (find (is_definition target.entry.kind target.entry.text.now)
        (at_or_below (node_place target.entry.scope))) }
{
    for element in target.scope.descendants_with_tokens() {
        if is_definition(element, target) {
            return Some(span_of(element.text_range()));
        }
    }
    None
}

/// Where the operation, fragment, variable, type or directive is defined whose name is at an offset of a text, or ends
/// there, by the root of the text's tree: the part that the name takes in the definition. `None` where there is no such
/// name or no definition. The first counts where there are several.
pub fn definition(root: SyntaxNode<'_>, offset: usize) -> Option<Span>
    ensures { option_map bounds result ≡ option_map range_at (definition_in (node_place root.entry) offset) }
{
    first_definition(target_at(root, offset)?)
}

// The name at an offset, as it is looked for in another document.
fn target_elsewhere<'t>(
    root: SyntaxNode<'t>,
    offset: usize,
    other: SyntaxNode<'t>,
) -> Option<Target<'t>>
    ensures { option_map (λ target. wanted target.kind target.text.now (node_place target.scope)) result
        ≡ wanted_elsewhere (node_place root.entry) offset (node_place other.entry) }
{
    let target = target_at(root, offset)?;
    match target.kind {
        NameKind::Operation | NameKind::Variable => None,
        NameKind::Fragment | NameKind::Type | NameKind::Directive => Some(Target {
            kind: target.kind,
            text: target.text,
            scope: other,
        }),
    }
}

/// Where a document, by the root of its tree, defines the name at an offset of another; `None` where it doesn't, and
/// for the name of an operation or a variable.
pub fn definition_elsewhere(
    root: SyntaxNode<'_>,
    offset: usize,
    other: SyntaxNode<'_>,
) -> Option<Span>
    ensures { option_map bounds result
        ≡ option_map range_at (definition_elsewhere (node_place root.entry) offset (node_place other.entry)) }
{
    first_definition(target_elsewhere(root, offset, other)?)
}

// Where the name is used that is looked for, in the order of the text.
fn all_references(
    alloc: Global,
    target: Target<'_>,
    with_definition: bool,
) -> Result<Vec<Span>, AllocError>
    ensures { IfOk result (λ found. map bounds found.items ≡ map range_at
        (filter (is_reference with_definition target.entry.kind target.entry.text.now)
        (at_or_below (node_place target.entry.scope)))) }
{
    let mut found = Vec::new(alloc);
    for element in target.scope.descendants_with_tokens() {
        if is_reference(element, target, with_definition) {
            found.push(span_of(element.text_range()))?;
        }
    }
    Ok(found)
}

/// Where the name is used that is at an offset of a text, or ends there, in the order of the text; where it is defined
/// too when `with_definition` says so. It fails only where memory is refused.
pub fn references(
    alloc: Global,
    root: SyntaxNode<'_>,
    offset: usize,
    with_definition: bool,
) -> Result<Vec<Span>, AllocError>
    ensures { IfOk result (λ found. map bounds found.items
        ≡ map range_at (references_in (node_place root.entry) offset with_definition)) }
{
    match target_at(root, offset) {
        Some(target) => all_references(alloc, target, with_definition),
        None => Ok(Vec::new(alloc)),
    }
}

/// Where a document, by the root of its tree, uses the name at an offset of another, in the order of its text; where it
/// defines it too when `with_definition` says so. The names of operations and variables are used in their own document
/// alone. It fails only where memory is refused.
pub fn references_elsewhere(
    alloc: Global,
    root: SyntaxNode<'_>,
    offset: usize,
    other: SyntaxNode<'_>,
    with_definition: bool,
) -> Result<Vec<Span>, AllocError>
    ensures { IfOk result (λ found. map bounds found.items ≡ map range_at
        (references_elsewhere (node_place root.entry) offset (node_place other.entry) with_definition)) }
{
    match target_elsewhere(root, offset, other) {
        Some(target) => all_references(alloc, target, with_definition),
        None => Ok(Vec::new(alloc)),
    }
}
