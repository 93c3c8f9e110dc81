// The definitions of some documents.
ghost use Rattle.std.specs.Prelude.{◌≡◌, ◌++◌, IfOk, OnOk, map, option_map};
ghost use Rattle.apollo_tree.specs.References.{node_place};
ghost use Rattle.validation_names.specs.Sites.{as_located, located};
ghost use Rattle.schema_members.specs.Members.{members_in, members_of_block, name_at, name_node, name_start};

use apollo_cst_core::{child_of, is_one_of};
use apollo_tree::{SyntaxKind, SyntaxNode};
use std::alloc::{AllocError, Global};
use type_system::{EACH_TYPE, QUERY_ROOT};
use validation_names::Site;

/// The roots of the trees of some documents, in which types and directives are looked for. The first that defines a
/// name counts. Where one of them is the tree of `STANDARD` of `type_system`, the types, directives and meta-fields of
/// the standard are found too.
#[derive(Clone, Copy)]
pub struct Schema<'s, 't> {
    pub roots: &'s [SyntaxNode<'t>],
}

pub(crate) const TYPES: [SyntaxKind; 10] = [
    SyntaxKind::OBJECT_TYPE_DEFINITION,
    SyntaxKind::INTERFACE_TYPE_DEFINITION,
    SyntaxKind::UNION_TYPE_DEFINITION,
    SyntaxKind::ENUM_TYPE_DEFINITION,
    SyntaxKind::INPUT_OBJECT_TYPE_DEFINITION,
    SyntaxKind::OBJECT_TYPE_EXTENSION,
    SyntaxKind::INTERFACE_TYPE_EXTENSION,
    SyntaxKind::UNION_TYPE_EXTENSION,
    SyntaxKind::ENUM_TYPE_EXTENSION,
    SyntaxKind::INPUT_OBJECT_TYPE_EXTENSION,
];

pub(crate) const DIRECTIVES: [SyntaxKind; 1] = [SyntaxKind::DIRECTIVE_DEFINITION];

const SCHEMAS: [SyntaxKind; 2] = [SyntaxKind::SCHEMA_DEFINITION, SyntaxKind::SCHEMA_EXTENSION];

pub(crate) const MEMBERS: [SyntaxKind; 3] = [
    SyntaxKind::FIELD_DEFINITION,
    SyntaxKind::INPUT_VALUE_DEFINITION,
    SyntaxKind::ENUM_VALUE_DEFINITION,
];

// What a node is named by.
const NAMES: [SyntaxKind; 2] = [SyntaxKind::NAME, SyntaxKind::ENUM_VALUE];

// The node that is the name in a definition or in a mention of one.
fn name_node<'t>(node: SyntaxNode<'t>) -> Option<SyntaxNode<'t>>
    ensures { option_map node_place result ≡ name_node (node_place node.entry) }
{
    child_of(node, &NAMES)
}

/// The name in a node, such as a member; empty where there is none.
pub fn name_in<'t>(node: SyntaxNode<'t>) -> &'t str
    ensures { result.now ≡ name_at (node_place node.entry) }
{
    match name_node(node) {
        Some(name) => name.text(),
        None => "",
    }
}

/// The byte offset at which the name in a definition begins, or where that is missing the definition.
pub fn name_offset(definition: SyntaxNode<'_>) -> usize
    ensures { result ≡ name_start (node_place definition.entry) }
{
    match name_node(definition) {
        Some(name) => name.text_range().start(),
        None => definition.text_range().start(),
    }
}

/// Whether two members of the same documents are the same.
pub(crate) fn is_same(one: Site<'_>, other: Site<'_>) -> bool {
    one.document == other.document
        && one.node.text_range().start() == other.node.text_range().start()
}

/// The arguments of a field or a directive, in their order. It fails only where memory is refused.
pub fn arguments_of<'t>(alloc: Global, definition: Site<'t>) -> Result<Vec<Site<'t>>, AllocError>
    ensures { IfOk result (λ found. map as_located found.items
        ≡ map (located definition.entry.document) (members_in (node_place definition.entry.node))) }
{
    let mut found = Vec::new(alloc);
    push_members(definition, &mut found)?;
    Ok(found)
}

/// The name of the type that a node gives, whatever lists it is in; empty where it gives none.
pub(crate) fn type_in<'t>(node: SyntaxNode<'t>) -> &'t str {
    for part in node.children() {
        if is_one_of(
            part.kind(),
            &[
                SyntaxKind::NAMED_TYPE,
                SyntaxKind::LIST_TYPE,
                SyntaxKind::NON_NULL_TYPE,
                SyntaxKind::TYPE_CONDITION,
            ],
        ) {
            return named_type(part);
        }
    }
    ""
}

// The name of the first type in a node.
fn named_type<'t>(node: SyntaxNode<'t>) -> &'t str {
    for part in node.descendants() {
        if part.kind().is(SyntaxKind::NAMED_TYPE) {
            return name_in(part);
        }
    }
    ""
}

// Adds the members in a block of a definition.
fn push_block<'t>(
    document: usize,
    block: SyntaxNode<'t>,
    found: &mut Vec<Site<'t>>,
) -> Result<(), AllocError>
    ensures { OnOk result (map as_located found.new.items
        ≡ map as_located found.old.items ++ map (located document) (members_of_block (node_place block.entry))) }
{
    for node in block.children() {
        if is_one_of(node.kind(), &MEMBERS) {
            found.push(Site { document, node })?;
        }
    }
    Ok(())
}

/// Adds the members of a definition: the fields or values of a type, the arguments of a field or of a directive.
pub(crate) fn push_members<'t>(
    definition: Site<'t>,
    found: &mut Vec<Site<'t>>,
) -> Result<(), AllocError>
    ensures { OnOk result (map as_located found.new.items
        ≡ map as_located found.old.items
        ++ map (located definition.entry.document) (members_in (node_place definition.entry.node))) }
{
    for block in definition.node.children() {
        push_block(definition.document, block, found)?;
    }
    Ok(())
}

// Adds the definitions of some kinds that have a name, in one document.
fn push_named<'t>(
    document: usize,
    root: SyntaxNode<'t>,
    kinds: &[SyntaxKind],
    name: &str,
    found: &mut Vec<Site<'t>>,
) -> Result<(), AllocError> {
    for node in root.children() {
        if is_one_of(node.kind(), kinds) && name_in(node) == name {
            found.push(Site { document, node })?;
        }
    }
    Ok(())
}

// The type of an operation in a definition of the schema.
fn root_type_in<'t>(definition: SyntaxNode<'t>, operation: &str) -> Option<&'t str> {
    for part in definition.children() {
        if part.kind().is(SyntaxKind::ROOT_OPERATION_TYPE_DEFINITION)
            && part.text().starts_with(operation)
        {
            return Some(type_in(part));
        }
    }
    None
}

// The type of an operation in a document.
fn root_type_of<'t>(root: SyntaxNode<'t>, operation: &str) -> Option<&'t str> {
    for definition in root.children() {
        if is_one_of(definition.kind(), &SCHEMAS)
            && let Some(name) = root_type_in(definition, operation)
        {
            return Some(name);
        }
    }
    None
}

impl<'t> Schema<'_, 't> {
    // All definitions of some kinds that have a name.
    fn definitions(
        self,
        alloc: Global,
        kinds: &[SyntaxKind],
        name: &str,
    ) -> Result<Vec<Site<'t>>, AllocError> {
        let mut found = Vec::new(alloc);
        for (document, root) in self.roots.iter().enumerate() {
            push_named(document, *root, kinds, name, &mut found)?;
        }
        Ok(found)
    }

    // Adds the members of a type, and of its extensions, by its name.
    fn push_members_of(
        self,
        alloc: Global,
        name: &str,
        found: &mut Vec<Site<'t>>,
    ) -> Result<(), AllocError> {
        for definition in &self.definitions(alloc, &TYPES, name)? {
            push_members(*definition, found)?;
        }
        Ok(())
    }

    /// The members of a type, and of its extensions, by its name.
    pub(crate) fn members_of_type(
        self,
        alloc: Global,
        name: &str,
    ) -> Result<Vec<Site<'t>>, AllocError> {
        let mut found = Vec::new(alloc);
        self.push_members_of(alloc, name, &mut found)?;
        Ok(found)
    }

    /// The fields that may be selected from a type, by its name: its own, and the meta-fields of the standard.
    pub(crate) fn fields_of_type(
        self,
        alloc: Global,
        name: &str,
    ) -> Result<Vec<Site<'t>>, AllocError> {
        let mut found = self.members_of_type(alloc, name)?;
        self.push_members_of(alloc, EACH_TYPE, &mut found)?;
        if name == self.root_type("query") {
            self.push_members_of(alloc, QUERY_ROOT, &mut found)?;
        }
        Ok(found)
    }

    /// The first definition of a directive, by its name.
    pub(crate) fn directive(
        self,
        alloc: Global,
        name: &str,
    ) -> Result<Option<Site<'t>>, AllocError> {
        let found = self.definitions(alloc, &DIRECTIVES, name)?;
        Ok(found.as_slice().first().copied())
    }

    /// The name of the type in which an operation begins: `query`, `mutation` or `subscription` (GraphQL, October 2021,
    /// section 3.3.1).
    pub(crate) fn root_type(self, operation: &str) -> &'t str {
        for root in self.roots {
            if let Some(name) = root_type_of(*root, operation) {
                return name;
            }
        }
        match operation {
            "mutation" => "Mutation",
            "subscription" => "Subscription",
            _ => "Query",
        }
    }
}
