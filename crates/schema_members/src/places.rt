// The types of the places in a document.
ghost use Rattle.std.specs.Prelude.{◌≡◌, ◌≤◌, IfOk, IfSome, length};
ghost use Rattle.apollo_tree.specs.Order.{text_at};
ghost use Rattle.apollo_tree.specs.References.{node_place, token_place};
ghost use Rattle.schema_members.specs.Locations.{operation_word};
ghost use Rattle.schema_members.specs.Members.{members_in, name_at};

use crate::definitions::{Schema, arguments_of, name_in, type_in};
use apollo_cst_core::child_of;
use apollo_tree::{SyntaxKind, SyntaxNode, SyntaxToken};
use std::alloc::{AllocError, Global};
use validation_names::Site;

// The member that has a name.
fn named<'t>(members: &[Site<'t>], name: &str) -> Option<Site<'t>>
    ensures { IfSome result (λ member. name_at (node_place member.node) ≡ name.now) }
{
    for member in members {
        if name_in(member.node) == name {
            return Some(*member);
        }
    }
    None
}

// The nodes of a kind that a node is or is in, the innermost first, up to a node of another list, and that node.
#[derive(Drop)]
struct Path<'t> {
    step: SyntaxKind,
    nodes: Vec<SyntaxNode<'t>>,
    end: Option<SyntaxNode<'t>>,
}

// Where the type of a selection set is said, or of a value.
fn says_type(node: SyntaxNode<'_>) -> bool {
    let kind = node.kind();
    if kind.is(SyntaxKind::INLINE_FRAGMENT) {
        return !type_in(node).is_empty();
    }
    kind.is(SyntaxKind::OPERATION_DEFINITION)
        || kind.is(SyntaxKind::FRAGMENT_DEFINITION)
        || kind.is(SyntaxKind::ARGUMENT)
        || kind.is(SyntaxKind::VARIABLE_DEFINITION)
        || kind.is(SyntaxKind::INPUT_VALUE_DEFINITION)
}

// The path from a node to where a type is said.
fn path_from<'t>(
    alloc: Global,
    from: SyntaxNode<'t>,
    step: SyntaxKind,
) -> Result<Path<'t>, AllocError> {
    let mut nodes = Vec::new(alloc);
    for node in from.ancestors() {
        if says_type(node) {
            return Ok(Path {
                step,
                nodes,
                end: Some(node),
            });
        }
        if node.kind().is(step) {
            nodes.push(node)?;
        }
    }
    Ok(Path {
        step,
        nodes,
        end: None,
    })
}

// What a search needs: memory, and the documents with the types.
#[derive(Clone, Copy)]
struct Search<'s, 't> {
    alloc: Global,
    schema: Schema<'s, 't>,
}

impl<'t> Search<'_, 't> {
    // The members of a type, as a path goes on: in a selection set the fields that each type has too.
    fn members_of(self, name: &str, step: SyntaxKind) -> Result<Vec<Site<'t>>, AllocError> {
        if step.is(SyntaxKind::FIELD) {
            self.schema.fields_of_type(self.alloc, name)
        } else {
            self.schema.members_of_type(self.alloc, name)
        }
    }

    // The members of the type that is reached from another by the names on a path, the last of them first.
    fn members_below(self, start: &str, path: &Path<'_>) -> Result<Vec<Site<'t>>, AllocError> {
        let mut members = self.members_of(start, path.step)?;
        for node in path.nodes.iter().rev() {
            let Some(member) = named(members.as_slice(), name_in(*node)) else {
                return Ok(Vec::new(self.alloc));
            };
            members = self.members_of(type_in(member.node), path.step)?;
        }
        Ok(members)
    }

    // The fields that may be in a selection set.
    fn selected(self, set: SyntaxNode<'_>) -> Result<Vec<Site<'t>>, AllocError> {
        let path = path_from(self.alloc, set, SyntaxKind::FIELD)?;
        let Some(end) = path.end else {
            return Ok(Vec::new(self.alloc));
        };
        if end.kind().is(SyntaxKind::OPERATION_DEFINITION) {
            let root = self.schema.root_type(operation_word(end));
            return self.members_below(root, &path);
        }
        self.members_below(type_in(end), &path)
    }

    // The definition of a field of a selection set.
    fn field(self, field: SyntaxNode<'_>) -> Result<Option<Site<'t>>, AllocError> {
        let Some(set) = field.parent() else {
            return Ok(None);
        };
        let fields = self.selected(set)?;
        Ok(named(fields.as_slice(), name_in(field)))
    }

    // The definition of the field or the directive that some arguments are for.
    fn owner(self, arguments: SyntaxNode<'_>) -> Result<Option<Site<'t>>, AllocError> {
        match arguments.parent() {
            Some(owner) if owner.kind().is(SyntaxKind::FIELD) => self.field(owner),
            Some(owner) => self.schema.directive(self.alloc, name_in(owner)),
            None => Ok(None),
        }
    }

    // The arguments that may be where an argument is.
    fn arguments(self, argument: SyntaxNode<'_>) -> Result<Vec<Site<'t>>, AllocError> {
        let Some(list) = argument.parent() else {
            return Ok(Vec::new(self.alloc));
        };
        match self.owner(list)? {
            Some(owner) => arguments_of(self.alloc, owner),
            None => Ok(Vec::new(self.alloc)),
        }
    }

    // The members of the type of a value: the values of an enum, or the fields of an input object.
    fn members_of_value(self, value: SyntaxNode<'_>) -> Result<Vec<Site<'t>>, AllocError> {
        let path = path_from(self.alloc, value, SyntaxKind::OBJECT_FIELD)?;
        let Some(end) = path.end else {
            return Ok(Vec::new(self.alloc));
        };
        if !end.kind().is(SyntaxKind::ARGUMENT) {
            return self.members_below(type_in(end), &path);
        }
        let arguments = self.arguments(end)?;
        match named(arguments.as_slice(), name_in(end)) {
            Some(argument) => self.members_below(type_in(argument.node), &path),
            None => Ok(Vec::new(self.alloc)),
        }
    }

    // The members that may be what a node names.
    fn members_for(self, node: SyntaxNode<'_>) -> Result<Vec<Site<'t>>, AllocError> {
        let Some(parent) = node.parent() else {
            return Ok(Vec::new(self.alloc));
        };
        let kind = node.kind();
        if kind.is(SyntaxKind::FIELD) {
            self.selected(parent)
        } else if kind.is(SyntaxKind::ARGUMENT) {
            self.arguments(node)
        } else if kind.is(SyntaxKind::OBJECT_FIELD) {
            self.members_of_value(parent)
        } else if kind.is(SyntaxKind::ENUM_VALUE) {
            self.members_of_value(node)
        } else {
            Ok(Vec::new(self.alloc))
        }
    }
}

/// The word with which an operation begins, `query` where there is none.
pub(crate) fn operation_word<'p>(operation: SyntaxNode<'p>) -> &'p str
    ensures { result.now ≡ operation_word (node_place operation.entry) }
{
    match child_of(operation, &[SyntaxKind::OPERATION_TYPE]) {
        Some(word) => word.text(),
        None => "query",
    }
}

/// The members that may be at the place of a name, a leaf of any tree: the fields of the type that it selects from, the
/// arguments of its field or its directive, the fields of its input object, or the values of its enum. They are in the
/// order of the documents. There are none at another place, or where the documents lack a type. It fails only where
/// memory is refused.
pub fn members_at<'t>(
    alloc: Global,
    schema: Schema<'_, 't>,
    leaf: SyntaxToken<'_>,
) -> Result<Vec<Site<'t>>, AllocError> {
    let Some(name) = leaf.parent() else {
        return Ok(Vec::new(alloc));
    };
    match name.parent() {
        Some(node) => Search { alloc, schema }.members_for(node),
        None => Ok(Vec::new(alloc)),
    }
}

/// The member that is at the place of a name and has this name: its definition. It fails only where memory is refused.
pub fn member_at<'t>(
    alloc: Global,
    schema: Schema<'_, 't>,
    leaf: SyntaxToken<'_>,
) -> Result<Option<Site<'t>>, AllocError>
    ensures { IfOk result (λ found. IfSome found
        (λ member. name_at (node_place member.node) ≡ text_at (token_place leaf.entry))) }
{
    let members = members_at(alloc, schema, leaf)?;
    Ok(named(members.as_slice(), leaf.text()))
}

/// A field or a directive whose arguments a place is in.
#[derive(Clone, Copy)]
pub struct Call<'t> {
    /// Its definition.
    pub definition: Site<'t>,
    /// The index of the argument at the place: the one whose value is there, or else the first that isn't given yet; or
    /// how many there are.
    pub active: usize,
}

// The node of a kind that a leaf is in.
fn around<'p>(leaf: SyntaxToken<'p>, kind: SyntaxKind) -> Option<SyntaxNode<'p>> {
    for node in leaf.parent()?.ancestors() {
        if node.kind().is(kind) {
            return Some(node);
        }
    }
    None
}

// Whether one of some arguments has a name.
fn gives(arguments: SyntaxNode<'_>, name: &str) -> bool {
    for argument in arguments.children() {
        if name_in(argument) == name {
            return true;
        }
    }
    false
}

// The index of the parameter that a leaf in some arguments is about.
fn active_in(parameters: &[Site<'_>], arguments: SyntaxNode<'_>, leaf: SyntaxToken<'_>) -> usize
    ensures { result ≤ length parameters.now }
{
    let value_of = match around(leaf, SyntaxKind::ARGUMENT) {
        Some(argument) if argument.text_range().start() < leaf.text_range().start() => {
            name_in(argument)
        }
        _ => "",
    };
    for (index, parameter) in parameters.iter().enumerate() {
        let name = name_in(parameter.node);
        if name == value_of || (value_of.is_empty() && !gives(arguments, name)) {
            return index;
        }
    }
    parameters.len()
}

/// The field or the directive whose arguments a leaf of any tree is in. `None` at another place, or where the documents
/// lack a definition. It fails only where memory is refused.
pub fn call_at<'t>(
    alloc: Global,
    schema: Schema<'_, 't>,
    leaf: SyntaxToken<'_>,
) -> Result<Option<Call<'t>>, AllocError>
    ensures { IfOk result (λ found. IfSome found
        (λ call. call.active ≤ length (members_in (node_place call.definition.node)))) }
{
    let Some(arguments) = around(leaf, SyntaxKind::ARGUMENTS) else {
        return Ok(None);
    };
    let Some(definition) = Search { alloc, schema }.owner(arguments)? else {
        return Ok(None);
    };
    let parameters = arguments_of(alloc, definition)?;
    Ok(Some(Call {
        definition,
        active: active_in(parameters.as_slice(), arguments, leaf),
    }))
}
