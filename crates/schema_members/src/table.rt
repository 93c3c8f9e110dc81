// The definitions of some documents by their names, to look up many.
use crate::definitions::{DIRECTIVES, MEMBERS, Schema, TYPES, name_in};
use apollo_cst_core::is_one_of;
use apollo_tree::{SyntaxKind, SyntaxNode};
use std::alloc::{AllocError, Global};
use type_system::{EACH_TYPE, QUERY_ROOT};
use validation_names::Site;

// A definition or an extension, with its name.
#[derive(Clone, Copy)]
struct Named<'t> {
    name: &'t str,
    definition: Site<'t>,
}

// A member with its name, its document and the byte offset at which the definition begins that has it.
#[derive(Clone, Copy)]
struct Owned<'t> {
    document: usize,
    owner: usize,
    name: &'t str,
    member: Site<'t>,
}

/// The types and the directives of a schema by their names, those of one name in the order of the documents; and the
/// members of each definition by their names.
#[derive(Drop)]
pub(crate) struct Table<'t> {
    definitions: Vec<Named<'t>>,
    members: Vec<Owned<'t>>,
    // the names of the types in which operations begin
    query: &'t str,
    mutation: &'t str,
    subscription: &'t str,
}

// Adds the types and the directives of a document.
fn push_definitions<'t>(
    document: usize,
    root: SyntaxNode<'t>,
    definitions: &mut Vec<Named<'t>>,
) -> Result<(), AllocError> {
    for node in root.children() {
        let kind = node.kind();
        let name = name_in(node);
        if (is_one_of(kind, &TYPES) || is_one_of(kind, &DIRECTIVES)) && !name.is_empty() {
            let definition = Site { document, node };
            definitions.push(Named { name, definition })?;
        }
    }
    Ok(())
}

// The definition that has a member: a block is between them.
fn owner_of<'t>(member: SyntaxNode<'t>) -> Option<SyntaxNode<'t>> {
    member.parent()?.parent()
}

// Adds the members of a document.
fn push_members<'t>(
    document: usize,
    root: SyntaxNode<'t>,
    members: &mut Vec<Owned<'t>>,
) -> Result<(), AllocError> {
    for node in root.descendants() {
        if is_one_of(node.kind(), &MEMBERS)
            && let Some(owner) = owner_of(node)
        {
            let member = Site { document, node };
            members.push(Owned {
                document,
                owner: owner.text_range().start(),
                name: name_in(member.node),
                member,
            })?;
        }
    }
    Ok(())
}

// Whether a member comes before those of a definition that have a name.
fn is_before(member: &Owned<'_>, document: usize, owner: usize, name: &str) -> bool {
    if member.document != document {
        member.document < document
    } else if member.owner != owner {
        member.owner < owner
    } else {
        member.name < name
    }
}

// The definitions of a schema in the order of their names.
fn sorted_definitions<'t>(
    alloc: Global,
    schema: Schema<'_, 't>,
) -> Result<Vec<Named<'t>>, AllocError> {
    let mut definitions = Vec::new(alloc);
    for (document, root) in schema.roots.iter().enumerate() {
        push_definitions(document, *root, &mut definitions)?;
    }
    definitions.sort_by(|one, other| one.name.cmp(other.name))?;
    Ok(definitions)
}

// The members of a schema in the order of their documents, of the definitions that have them, and of their names.
fn sorted_members<'t>(alloc: Global, schema: Schema<'_, 't>) -> Result<Vec<Owned<'t>>, AllocError> {
    let mut members = Vec::new(alloc);
    for (document, root) in schema.roots.iter().enumerate() {
        push_members(document, *root, &mut members)?;
    }
    members.sort_by(|one, other| {
        one.document
            .cmp(&other.document)
            .then(one.owner.cmp(&other.owner))
            .then(one.name.cmp(other.name))
    })?;
    Ok(members)
}

impl<'t> Table<'t> {
    pub(crate) fn new(alloc: Global, schema: Schema<'_, 't>) -> Result<Table<'t>, AllocError> {
        Ok(Table {
            definitions: sorted_definitions(alloc, schema)?,
            members: sorted_members(alloc, schema)?,
            query: schema.root_type("query"),
            mutation: schema.root_type("mutation"),
            subscription: schema.root_type("subscription"),
        })
    }

    // The definitions of a name.
    fn named(&self, name: &str) -> &[Named<'t>] {
        let all = self.definitions.as_slice();
        let start = all.partition_point(|it| it.name < name);
        let rest = all.get(start..).unwrap_or_default();
        let count = rest.iter().take_while(|it| it.name == name).count();
        rest.get(..count).unwrap_or_default()
    }

    /// The member of a definition that has a name: the field or the value of a type, the argument of a field or a
    /// directive.
    pub(crate) fn member_in(&self, definition: Site<'_>, name: &str) -> Option<Site<'t>> {
        let document = definition.document;
        let owner = definition.node.text_range().start();
        let all = self.members.as_slice();
        let start = all.partition_point(|it| is_before(it, document, owner, name));
        let found = all.get(start)?;
        if found.document == document && found.owner == owner && found.name == name {
            Some(found.member)
        } else {
            None
        }
    }

    /// The name of the type in which an operation begins.
    pub(crate) fn root_type(&self, operation: &str) -> &'t str {
        match operation {
            "mutation" => self.mutation,
            "subscription" => self.subscription,
            _ => self.query,
        }
    }

    /// The first definition of a directive.
    pub(crate) fn directive(&self, name: &str) -> Option<Site<'t>> {
        for it in self.named(name) {
            if is_one_of(it.definition.node.kind(), &DIRECTIVES) {
                return Some(it.definition);
            }
        }
        None
    }

    /// The member of a type that has a name: an input field or a value, or a field that isn't one of the standard's for
    /// each type.
    pub(crate) fn member(&self, type_name: &str, name: &str) -> Option<Site<'t>> {
        for it in self.named(type_name) {
            if is_one_of(it.definition.node.kind(), &TYPES)
                && let Some(member) = self.member_in(it.definition, name)
            {
                return Some(member);
            }
        }
        None
    }

    /// The field that may be selected from a type and has a name.
    pub(crate) fn field(&self, type_name: &str, name: &str) -> Option<Site<'t>> {
        if type_name.is_empty() {
            return None;
        }
        if let Some(field) = self.member(type_name, name) {
            return Some(field);
        }
        match self.member(EACH_TYPE, name) {
            None if type_name == self.query => self.member(QUERY_ROOT, name),
            field => field,
        }
    }
}
