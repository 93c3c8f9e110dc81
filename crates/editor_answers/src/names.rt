// What the names of a document mean.
ghost use Rattle.std.specs.Prelude.{◌≡◌, None, if◌then◌else◌, option_and_then, option_map};
ghost use Rattle.std.specs.List.{list_any};
ghost use Rattle.document_grammar.specs.Numbers.{is_kind};
ghost use Rattle.document_grammar.specs.declared.kind.SyntaxKind.TheVariants.{IDENT};
ghost use Rattle.apollo_tree.specs.Order.{parent_place};
ghost use Rattle.apollo_tree.specs.References.{node_place, token_place};
ghost use Rattle.apollo_cst_core.specs.Kinds.{is_of};
ghost use Rattle.editor_answers.specs.Names.{defines, holds, kind_in, meaning_at, named_by, names};

use apollo_cst_core::is_one_of;
use apollo_tree::{SyntaxKind, SyntaxNode, SyntaxToken};

/// The meaning of a name.
#[derive(Clone, Copy, PartialEq, Eq)]
pub enum NameKind {
    Operation,
    Fragment,
    Variable,
    Type,
    Directive,
}

/// A name that has a definition: its meaning, and whether it is the one in the definition.
#[derive(Clone, Copy)]
pub struct Meaning {
    pub kind: NameKind,
    pub defines: bool,
}

const TYPE_DEFINITIONS: [SyntaxKind; 6] = [
    SyntaxKind::SCALAR_TYPE_DEFINITION,
    SyntaxKind::OBJECT_TYPE_DEFINITION,
    SyntaxKind::INTERFACE_TYPE_DEFINITION,
    SyntaxKind::UNION_TYPE_DEFINITION,
    SyntaxKind::ENUM_TYPE_DEFINITION,
    SyntaxKind::INPUT_OBJECT_TYPE_DEFINITION,
];

const TYPE_EXTENSIONS: [SyntaxKind; 6] = [
    SyntaxKind::SCALAR_TYPE_EXTENSION,
    SyntaxKind::OBJECT_TYPE_EXTENSION,
    SyntaxKind::INTERFACE_TYPE_EXTENSION,
    SyntaxKind::UNION_TYPE_EXTENSION,
    SyntaxKind::ENUM_TYPE_EXTENSION,
    SyntaxKind::INPUT_OBJECT_TYPE_EXTENSION,
];

/// Whether a node defines a type.
pub(crate) fn defines_type(kind: SyntaxKind) -> bool
    ensures { result ≡ list_any (λ one. is_kind one kind) TYPE_DEFINITIONS }
{
    is_one_of(kind, &TYPE_DEFINITIONS)
}

/// Whether a node extends a type.
pub(crate) fn extends_type(kind: SyntaxKind) -> bool
    ensures { result ≡ list_any (λ one. is_kind one kind) TYPE_EXTENSIONS }
{
    is_one_of(kind, &TYPE_EXTENSIONS)
}

/// Whether the parent of a node is of a kind.
pub(crate) fn is_in(node: SyntaxNode<'_>, kind: SyntaxKind) -> bool
    ensures { result ≡ holds (is_of kind) (parent_place (node_place node.entry)) }
{
    match node.parent() {
        Some(parent) => parent.kind().is(kind),
        None => false,
    }
}

// Whether the name in a node has this meaning.
fn names(node: SyntaxNode<'_>, kind: NameKind) -> bool
    ensures { result ≡ names kind (node_place node.entry) }
{
    let at = node.kind();
    match kind {
        NameKind::Operation => at.is(SyntaxKind::OPERATION_DEFINITION),
        NameKind::Fragment => at.is(SyntaxKind::FRAGMENT_NAME),
        NameKind::Variable => at.is(SyntaxKind::VARIABLE),
        NameKind::Type => at.is(SyntaxKind::NAMED_TYPE) || defines_type(at) || extends_type(at),
        NameKind::Directive => {
            at.is(SyntaxKind::DIRECTIVE) || at.is(SyntaxKind::DIRECTIVE_DEFINITION)
        }
    }
}

// Whether the thing is defined there.
fn defines(node: SyntaxNode<'_>, kind: NameKind) -> bool
    ensures { result ≡ defines kind (node_place node.entry) }
{
    match kind {
        NameKind::Operation => node.kind().is(SyntaxKind::OPERATION_DEFINITION),
        NameKind::Fragment => is_in(node, SyntaxKind::FRAGMENT_DEFINITION),
        NameKind::Variable => is_in(node, SyntaxKind::VARIABLE_DEFINITION),
        NameKind::Type => defines_type(node.kind()),
        NameKind::Directive => node.kind().is(SyntaxKind::DIRECTIVE_DEFINITION),
    }
}

// The meaning of the name in a node.
fn kind_in(node: SyntaxNode<'_>) -> Option<NameKind>
    ensures { result ≡ kind_in (node_place node.entry) }
{
    if names(node, NameKind::Operation) {
        Some(NameKind::Operation)
    } else if names(node, NameKind::Fragment) {
        Some(NameKind::Fragment)
    } else if names(node, NameKind::Variable) {
        Some(NameKind::Variable)
    } else if names(node, NameKind::Type) {
        Some(NameKind::Type)
    } else if names(node, NameKind::Directive) {
        Some(NameKind::Directive)
    } else {
        None
    }
}

/// The node that a leaf names, or is in the name of.
pub(crate) fn named_by<'t>(leaf: SyntaxToken<'t>) -> Option<SyntaxNode<'t>>
    ensures { option_map node_place result ≡ named_by (token_place leaf.entry) }
{
    leaf.parent()?.parent()
}

/// Whether a leaf is the name of such a thing.
pub(crate) fn is_name_of(leaf: SyntaxToken<'_>, kind: NameKind) -> bool
    ensures { result ≡ holds (names kind) (named_by (token_place leaf.entry)) }
{
    match named_by(leaf) {
        Some(node) => names(node, kind),
        None => false,
    }
}

/// Whether a leaf is the name in the definition of such a thing.
pub(crate) fn is_defined_by(leaf: SyntaxToken<'_>, kind: NameKind) -> bool
    ensures { result ≡ holds (defines kind) (named_by (token_place leaf.entry)) }
{
    match named_by(leaf) {
        Some(node) => defines(node, kind),
        None => false,
    }
}

/// The meaning of a leaf that is a name.
pub(crate) fn kind_of(leaf: SyntaxToken<'_>) -> Option<NameKind>
    ensures { result ≡ option_and_then kind_in (named_by (token_place leaf.entry)) }
{
    kind_in(named_by(leaf)?)
}

/// The meaning of an identifier, where it is the name of something that a document defines.
pub fn meaning_of(leaf: SyntaxToken<'_>) -> Option<Meaning>
    ensures { result ≡ (if is_of IDENT (token_place leaf.entry) then meaning_at (token_place leaf.entry) else None) }
{
    if !leaf.kind().is(SyntaxKind::IDENT) {
        return None;
    }
    let kind = kind_of(leaf)?;
    Some(Meaning {
        kind,
        defines: is_defined_by(leaf, kind),
    })
}
