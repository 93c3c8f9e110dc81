// The operations and fragments of documents that are judged together.
ghost use Rattle.std.specs.Prelude.{◌≡◌, ◌++◌, IfOk, OnOk, map, option_map};
ghost use Rattle.std.specs.List.{filter_map};
ghost use Rattle.apollo_tree.specs.Children.{child_nodes};
ghost use Rattle.apollo_tree.specs.References.{node_place};
ghost use Rattle.validation_names.specs.Names.{AreFirstNumbers};
ghost use Rattle.validation_names.specs.Definitions.{as_defined, defined, defined_at, fragment_names, named};
ghost use Rattle.validation_names.specs.Definitions.{named_definitions};
ghost use Rattle.validation_names.specs.Mentions.{as_named};
ghost use Rattle.validation_names.specs.Sites.{as_located, located};

use crate::name_mentions::{Mention, name, name_of_fragment};
use crate::names::enter;
use crate::sites::Site;
use apollo_tree::{SyntaxKind, SyntaxNode};
use std::alloc::{AllocError, Allocator};
use std::collections::BTreeMap;

/// What an executable definition defines (GraphQL October 2021, section 2.2, "Document").
///
/// *ExecutableDefinition*:
/// - OperationDefinition
/// - FragmentDefinition
#[derive(Clone, Copy)]
pub enum DefinitionKind {
    Operation,
    Fragment,
}

/// An operation or a fragment.
#[derive(Clone, Copy)]
pub struct ExecutableDefinition<'t> {
    pub kind: DefinitionKind,
    /// Its document and its node, which has the kind OPERATION_DEFINITION or FRAGMENT_DEFINITION.
    pub site: Site<'t>,
    /// Its name. An operation may have none; a fragment has none only after a syntax error.
    pub name: Option<&'t str>,
}

impl<'t> ExecutableDefinition<'t> {
    ghost use Rattle.std.specs.Prelude.{◌≡◌, option_map};
    ghost use Rattle.validation_names.specs.Definitions.{as_defined, fragment_name, operation_name};

    /// The operation's name, or `None` for a fragment and for an operation without a name.
    pub fn operation_name(&self) -> Option<&'t str>
        ensures { option_map (λ n. n.now) result ≡ operation_name (as_defined self.now) }
    {
        match self.kind {
            DefinitionKind::Operation => self.name,
            DefinitionKind::Fragment => None,
        }
    }

    /// The fragment's name, or `None` for an operation.
    pub fn fragment_name(&self) -> Option<&'t str>
        ensures { option_map (λ n. n.now) result ≡ fragment_name (as_defined self.now) }
    {
        match self.kind {
            DefinitionKind::Operation => None,
            DefinitionKind::Fragment => self.name,
        }
    }
}

// The definition that a node is.
fn definition<'t>(site: Site<'t>) -> Option<ExecutableDefinition<'t>>
    ensures { option_map as_defined result ≡ defined_at (as_located site.entry) }
{
    let kind = site.node.kind();
    if kind.is(SyntaxKind::OPERATION_DEFINITION) {
        return Some(ExecutableDefinition {
            kind: DefinitionKind::Operation,
            site,
            name: name(&site.node),
        });
    }
    if kind.is(SyntaxKind::FRAGMENT_DEFINITION) {
        return Some(ExecutableDefinition {
            kind: DefinitionKind::Fragment,
            site,
            name: name_of_fragment(&site.node),
        });
    }
    None
}

// Adds the operations and fragments of the document with a number.
fn push_definitions<'t, A: Allocator>(
    definitions: &mut Vec<ExecutableDefinition<'t>, A>,
    number: usize,
    document: &SyntaxNode<'t>,
) -> Result<(), AllocError>
    ensures { OnOk result (map as_defined definitions.new.items
        ≡ map as_defined definitions.old.items
        ++ filter_map defined_at (map (located number) (child_nodes (node_place document.now)))) }
{
    for node in document.children() {
        let site = Site {
            document: number,
            node,
        };
        if let Some(definition) = definition(site) {
            definitions.push(definition)?;
        }
    }
    Ok(())
}

/// The operations and fragments of some documents, by the roots of their trees, in order.
pub fn definitions<'t, A: Allocator + Copy>(
    alloc: A,
    documents: &[SyntaxNode<'t>],
) -> Result<Vec<ExecutableDefinition<'t>, A>, AllocError>
    ensures { IfOk result (λ definitions. map as_defined definitions.items ≡ defined (map node_place documents.now)) }
{
    let mut definitions = Vec::new(alloc);
    for (number, document) in documents.iter().enumerate() {
        push_definitions(&mut definitions, number, document)?;
    }
    Ok(definitions)
}

// A definition with its name, if it is of a kind.
fn named<'t>(definition: &ExecutableDefinition<'t>, kind: DefinitionKind) -> Option<Mention<'t>>
    ensures { option_map as_named result ≡ named kind (as_defined definition.now) }
{
    let name = match kind {
        DefinitionKind::Operation => definition.operation_name(),
        DefinitionKind::Fragment => definition.fragment_name(),
    };
    Some(Mention {
        site: definition.site,
        name: name?,
    })
}

/// The definitions of a kind that have a name, with their names.
pub fn named_definitions<'t, A: Allocator + Copy>(
    alloc: A,
    definitions: &[ExecutableDefinition<'t>],
    kind: DefinitionKind,
) -> Result<Vec<Mention<'t>, A>, AllocError>
    ensures { IfOk result (λ found. map as_named found.items
        ≡ named_definitions kind (map as_defined definitions.now)) }
{
    let mut found = Vec::new(alloc);
    for definition in definitions {
        if let Some(mention) = named(definition, kind) {
            found.push(mention)?;
        }
    }
    Ok(found)
}

/// The first fragment of each name, as its number among the definitions.
pub fn fragments<'t, A: Allocator + Copy>(
    alloc: A,
    definitions: &[ExecutableDefinition<'t>],
) -> Result<BTreeMap<&'t str, usize, A>, AllocError>
    ensures { IfOk result (λ fragments. AreFirstNumbers fragments (fragment_names (map as_defined definitions.now))) }
{
    let mut fragments: BTreeMap<&'t str, usize, A> = BTreeMap::new(alloc);
    for (number, definition) in definitions.iter().enumerate() {
        if let Some(name) = definition.fragment_name() {
            enter(&mut fragments, name, number)?;
        }
    }
    Ok(fragments)
}
