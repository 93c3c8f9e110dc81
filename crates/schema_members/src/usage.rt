// Where the documents name a member.
ghost use Rattle.std.specs.Prelude.{◌≡◌, IfOk, IfSome, OnOk, option_map};
ghost use Rattle.std.specs.List.{All, find, list_any};
ghost use Rattle.apollo_tree.specs.Above.{at_or_above};
ghost use Rattle.apollo_tree.specs.Order.{text_at};
ghost use Rattle.apollo_tree.specs.References.{node_place, token_place};
ghost use Rattle.apollo_cst_core.specs.Kinds.{is_of_one};
ghost use Rattle.validation_names.specs.Sites.{as_located, located};
ghost use Rattle.schema_members.specs.Members.{defined_in, has_interface, has_interface_named, is_shared_in};
ghost use Rattle.schema_members.specs.Members.{name_at};
ghost use Rattle.schema_members.specs.Uses.{IsDefinedOrNamed, IsIdentifier, defined_by};

use crate::definitions::{Schema, TYPES, is_same, name_in, type_in};
use crate::places::{member_at, operation_word};
use crate::table::Table;
use apollo_cst_core::{child, is_one_of};
use apollo_cst_executable::Name;
use apollo_tree::{SyntaxKind, SyntaxNode, SyntaxToken};
use std::alloc::{AllocError, Global};
use validation_names::Site;

// What the names in a part of a document mean, up to where the part ends: the name of the type that fields are selected
// from, the field or the directive that arguments are for, and the name of the type of values.
#[derive(Clone, Copy)]
struct Scope<'t> {
    end: usize,
    selects: &'t str,
    owner: Option<Site<'t>>,
    value: &'t str,
}

const INTERFACES: [SyntaxKind; 2] = [
    SyntaxKind::INTERFACE_TYPE_DEFINITION,
    SyntaxKind::INTERFACE_TYPE_EXTENSION,
];

// The nodes in which names mean something else than around them.
const SCOPES: [SyntaxKind; 9] = [
    SyntaxKind::OPERATION_DEFINITION,
    SyntaxKind::FRAGMENT_DEFINITION,
    SyntaxKind::INLINE_FRAGMENT,
    SyntaxKind::FIELD,
    SyntaxKind::DIRECTIVE,
    SyntaxKind::ARGUMENT,
    SyntaxKind::OBJECT_FIELD,
    SyntaxKind::VARIABLE_DEFINITION,
    SyntaxKind::INPUT_VALUE_DEFINITION,
];

// The node of the member that a node defines by its name.
fn defined_in<'t>(node: SyntaxNode<'t>) -> Option<SyntaxNode<'t>>
    ensures { option_map node_place result ≡ defined_in (node_place node.entry) }
{
    let kind = node.kind();
    if kind.is(SyntaxKind::FIELD_DEFINITION) || kind.is(SyntaxKind::INPUT_VALUE_DEFINITION) {
        return Some(node);
    }
    if !kind.is(SyntaxKind::ENUM_VALUE) {
        return None;
    }
    let value = node.parent()?;
    if value.kind().is(SyntaxKind::ENUM_VALUE_DEFINITION) {
        Some(value)
    } else {
        None
    }
}

// The member that a node of a document defines by its name.
fn defined<'t>(document: usize, node: SyntaxNode<'t>) -> Option<Site<'t>>
    ensures { option_map as_located result ≡ option_map (located document) (defined_in (node_place node.entry)) }
{
    let node = defined_in(node)?;
    Some(Site { document, node })
}

// The member that a name in a document defines.
fn defined_by<'t>(document: usize, leaf: SyntaxToken<'t>) -> Option<Site<'t>>
    ensures { option_map as_located result ≡ defined_by document (token_place leaf.entry) }
{
    defined(document, leaf.parent()?.parent()?)
}

// The name of a member's type; empty where there is no member.
fn type_of<'t>(member: Option<Site<'t>>) -> &'t str {
    match member {
        Some(member) => type_in(member.node),
        None => "",
    }
}

// The type from which an inline fragment selects, by the one around it and its own condition, which may be missing.
fn narrowed<'t>(around: &'t str, condition: &'t str) -> &'t str {
    if condition.is_empty() {
        around
    } else {
        condition
    }
}

// The identifier that is the name in a node, if it has a text.
fn identifier_in<'t>(node: SyntaxNode<'t>, text: &str) -> Option<SyntaxToken<'t>>
    ensures { IfSome result (λ leaf. IsIdentifier text.now (token_place leaf)) }
{
    let leaf = child::<Name<'t>>(&node)?.ident_token()?;
    if leaf.kind().is(SyntaxKind::IDENT) && leaf.text() == text {
        Some(leaf)
    } else {
        None
    }
}

// Adds it, if it is there.
fn push_identifier<'t>(
    found: &mut Vec<SyntaxToken<'t>>,
    node: SyntaxNode<'t>,
    text: &str,
) -> Result<(), AllocError>
    ensures { OnOk result (All (λ leaf. IsIdentifier text.now (token_place leaf)) found.old.items
        → All (λ leaf. IsIdentifier text.now (token_place leaf)) found.new.items) }
{
    match identifier_in(node, text) {
        Some(leaf) => {
            found.push(leaf)?;
            Ok(())
        }
        None => Ok(()),
    }
}

// Takes the scopes away that end before an offset.
fn leave(scopes: &mut Vec<Scope<'_>>, offset: usize) {
    while let Some(scope) = scopes.last().copied() {
        if offset < scope.end {
            break;
        }
        scopes.pop();
    }
}

// The innermost scope; where there is none, names have no meaning.
fn innermost<'t>(scopes: &[Scope<'t>]) -> Scope<'t> {
    match scopes.last() {
        Some(scope) => *scope,
        None => Scope {
            end: usize::MAX,
            selects: "",
            owner: None,
            value: "",
        },
    }
}

/// The member that an identifier in one of the documents defines, or else the one that it names. It fails only where
/// memory is refused.
pub fn member_named<'t>(
    alloc: Global,
    schema: Schema<'_, 't>,
    document: usize,
    leaf: SyntaxToken<'t>,
) -> Result<Option<Site<'t>>, AllocError>
    ensures { IfOk result (λ found. IsDefinedOrNamed (defined_by document (token_place leaf.entry))
        (text_at (token_place leaf.entry)) (option_map as_located found)) }
{
    match defined_by(document, leaf) {
        Some(member) => Ok(Some(member)),
        None => member_at(alloc, schema, leaf),
    }
}

// Whether a definition is of an interface, or names one that its type implements.
fn has_interface(definition: SyntaxNode<'_>) -> bool
    ensures { result ≡ has_interface (node_place definition.entry) }
{
    if is_one_of(definition.kind(), &INTERFACES) {
        return true;
    }
    for part in definition.children() {
        if part.kind().is(SyntaxKind::IMPLEMENTS_INTERFACES) {
            return true;
        }
    }
    false
}

// Whether a document has such a definition of a type with a name.
fn has_interface_named(root: SyntaxNode<'_>, name: &str) -> bool
    ensures { result ≡ has_interface_named name.now (node_place root.entry) }
{
    for definition in root.children() {
        if is_one_of(definition.kind(), &TYPES)
            && name_in(definition) == name
            && has_interface(definition)
        {
            return true;
        }
    }
    false
}

// Whether one of some documents has one.
fn any_has_interface(roots: &[SyntaxNode<'_>], name: &str) -> bool
    ensures { result ≡ list_any (λ root. has_interface_named name.now (node_place root)) roots.now }
{
    roots.iter().any(|root| has_interface_named(*root, name))
}

// The definition of a type that a node is in.
fn type_around<'t>(node: SyntaxNode<'t>) -> Option<SyntaxNode<'t>>
    ensures { option_map node_place result ≡ find (is_of_one TYPES) (at_or_above (node_place node.entry)) }
{
    for outer in node.ancestors() {
        if is_one_of(outer.kind(), &TYPES) {
            return Some(outer);
        }
    }
    None
}

/// A search for the names that mean one member.
#[derive(Drop)]
pub struct Uses<'s, 't> {
    pub member: Site<'t>,
    /// Its name.
    pub name: &'t str,
    /// The documents.
    pub schema: Schema<'s, 't>,
    table: Table<'t>,
}

impl<'s, 't> Uses<'s, 't> {
    /// A search in the documents of a schema. It fails only where memory is refused.
    pub fn new(
        alloc: Global,
        schema: Schema<'s, 't>,
        member: Site<'t>,
    ) -> Result<Uses<'s, 't>, AllocError>
        ensures member { IfOk result (λ uses. uses.member ≡ member.entry) }
        ensures name { IfOk result (λ uses. uses.name.now ≡ name_at (node_place member.entry.node)) }
        ensures schema { IfOk result (λ uses. uses.schema ≡ schema.entry) }
    {
        let table = Table::new(alloc, schema)?;
        Ok(Uses {
            member,
            name: name_in(member.node),
            schema,
            table,
        })
    }

    /// Whether it is a field of an interface or of a type that implements one, or an argument of such a field: other
    /// types may have to have the same.
    pub fn is_shared(&self) -> bool
        ensures { result ≡ is_shared_in self.now.schema.roots.now (node_place self.now.member.node) }
    {
        match type_around(self.member.node) {
            Some(definition) => any_has_interface(self.schema.roots, name_in(definition)),
            None => false,
        }
    }

    // The member that a node names in a scope.
    fn named(&self, scope: Scope<'t>, node: SyntaxNode<'t>) -> Option<Site<'t>> {
        let kind = node.kind();
        if kind.is(SyntaxKind::FIELD) {
            self.table.field(scope.selects, name_in(node))
        } else if kind.is(SyntaxKind::ARGUMENT) {
            self.table.member_in(scope.owner?, name_in(node))
        } else if kind.is(SyntaxKind::OBJECT_FIELD) || kind.is(SyntaxKind::ENUM_VALUE) {
            self.table.member(scope.value, name_in(node))
        } else {
            None
        }
    }

    // What names mean in a node that names a member in a scope.
    fn scope_in(
        &self,
        scope: Scope<'t>,
        node: SyntaxNode<'t>,
        named: Option<Site<'t>>,
    ) -> Scope<'t> {
        let kind = node.kind();
        let mut inner = scope;
        inner.end = node.text_range().end();
        if kind.is(SyntaxKind::OPERATION_DEFINITION) {
            inner.selects = self.table.root_type(operation_word(node));
        } else if kind.is(SyntaxKind::FRAGMENT_DEFINITION) {
            inner.selects = type_in(node);
        } else if kind.is(SyntaxKind::INLINE_FRAGMENT) {
            inner.selects = narrowed(scope.selects, type_in(node));
        } else if kind.is(SyntaxKind::FIELD) {
            inner.selects = type_of(named);
            inner.owner = named;
        } else if kind.is(SyntaxKind::DIRECTIVE) {
            inner.owner = self.table.directive(name_in(node));
        } else if kind.is(SyntaxKind::ARGUMENT) || kind.is(SyntaxKind::OBJECT_FIELD) {
            inner.value = type_of(named);
        } else {
            inner.value = type_in(node);
        }
        inner
    }

    // Whether a node names the member, or defines it where definitions are looked for too.
    fn means(
        &self,
        document: usize,
        node: SyntaxNode<'t>,
        named: Option<Site<'t>>,
        with_definition: bool,
    ) -> bool {
        if let Some(member) = named {
            return is_same(member, self.member);
        }
        match defined(document, node) {
            Some(member) => with_definition && is_same(member, self.member),
            None => false,
        }
    }

    /// The names that mean the member in the document with an index, in their order; also in its definition, if
    /// `with_definition` says so. It fails only where memory is refused.
    pub fn in_document(
        &self,
        alloc: Global,
        document: usize,
        with_definition: bool,
    ) -> Result<Vec<SyntaxToken<'t>>, AllocError>
        ensures { IfOk result (λ found. All (λ leaf. IsIdentifier self.now.name.now (token_place leaf)) found.items) }
    {
        let mut found = Vec::new(alloc);
        let Some(root) = self.schema.roots.get(document) else {
            return Ok(found);
        };
        let mut scopes = Vec::new(alloc);
        for node in root.descendants() {
            leave(&mut scopes, node.text_range().start());
            let scope = innermost(scopes.as_slice());
            let named = self.named(scope, node);
            if self.means(document, node, named, with_definition) {
                push_identifier(&mut found, node, self.name)?;
            }
            if is_one_of(node.kind(), &SCOPES) {
                scopes.push(self.scope_in(scope, node, named))?;
            }
        }
        Ok(found)
    }
}
