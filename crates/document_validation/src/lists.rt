// Lists in a tree whose items have to have different names, and definitions that are not executable.
ghost use Rattle.std.specs.Prelude.{◌≡◌, IfOk, OnOk, map, option_map};
ghost use Rattle.std.specs.List.{flat_map, list_any};
ghost use Rattle.apollo_tree.specs.Children.{child_nodes};
ghost use Rattle.apollo_tree.specs.References.{node_place};
ghost use Rattle.validation_names.specs.Mentions.{as_named};
ghost use Rattle.validation_names.specs.Sites.{as_located, located, nodes};
ghost use Rattle.validation_rules.specs.Violations.{Adds};
ghost use Rattle.document_validation.specs.Lists.{document_kind, has_item, is_executable, item_of, items_of, list_of};
ghost use Rattle.document_validation.specs.Breaches.{foreign_as, foreign_at, foreign_in, is_judged, judged_list};
ghost use Rattle.document_validation.specs.Breaches.{of_each, repeats_at, repeats_in, rule_of};

use apollo_tree::{SyntaxKind, SyntaxNode};
use std::alloc::{AllocError, Global};
use validation_names::{Mention, Site, own_name};
use validation_rules::{Rule, Violations, add_repeats};

/// What a document is judged as.
#[derive(Clone, Copy)]
pub enum DocumentKind {
    /// Operations and fragments.
    Executable,
    /// Definitions of the type system, and extensions.
    TypeSystem,
}

// A list of items with names.
#[derive(Clone, Copy)]
pub(crate) enum NamedList {
    Arguments,
    ObjectFields,
    Variables,
    FieldDefinitions,
    InputFieldDefinitions,
    ArgumentDefinitions,
    EnumValues,
    UnionMembers,
    Interfaces,
}

// The list that a node is.
fn list_of(node: &SyntaxNode<'_>) -> Option<NamedList>
    ensures { result ≡ list_of (node_place node.now) }
{
    let kind = node.kind();
    if kind.is(SyntaxKind::ARGUMENTS) {
        return Some(NamedList::Arguments);
    }
    if kind.is(SyntaxKind::OBJECT_VALUE) {
        return Some(NamedList::ObjectFields);
    }
    if kind.is(SyntaxKind::VARIABLE_DEFINITIONS) {
        return Some(NamedList::Variables);
    }
    if kind.is(SyntaxKind::FIELDS_DEFINITION) {
        return Some(NamedList::FieldDefinitions);
    }
    if kind.is(SyntaxKind::INPUT_FIELDS_DEFINITION) {
        return Some(NamedList::InputFieldDefinitions);
    }
    if kind.is(SyntaxKind::ARGUMENTS_DEFINITION) {
        return Some(NamedList::ArgumentDefinitions);
    }
    if kind.is(SyntaxKind::ENUM_VALUES_DEFINITION) {
        return Some(NamedList::EnumValues);
    }
    if kind.is(SyntaxKind::UNION_MEMBER_TYPES) {
        return Some(NamedList::UnionMembers);
    }
    if kind.is(SyntaxKind::IMPLEMENTS_INTERFACES) {
        return Some(NamedList::Interfaces);
    }
    None
}

// Whether documents of a kind are judged by a list.
fn is_judged(list: NamedList, kind: DocumentKind) -> bool
    ensures { result ≡ is_judged list kind }
{
    match list {
        NamedList::Arguments | NamedList::ObjectFields => true,
        NamedList::Variables => matches!(kind, DocumentKind::Executable),
        NamedList::FieldDefinitions
        | NamedList::InputFieldDefinitions
        | NamedList::ArgumentDefinitions
        | NamedList::EnumValues
        | NamedList::UnionMembers
        | NamedList::Interfaces => matches!(kind, DocumentKind::TypeSystem),
    }
}

// The list that a node is, if documents of a kind are judged by it.
fn judged_list(node: &SyntaxNode<'_>, kind: DocumentKind) -> Option<NamedList>
    ensures { result ≡ judged_list kind (node_place node.now) }
{
    let list = list_of(node)?;
    if is_judged(list, kind) {
        return Some(list);
    }
    None
}

// The rule that a list is for.
fn rule_of(list: NamedList) -> Rule
    ensures { result ≡ rule_of list }
{
    match list {
        NamedList::Arguments => Rule::UniqueArgumentNames,
        NamedList::ObjectFields => Rule::UniqueInputFieldNames,
        NamedList::Variables => Rule::UniqueVariableNames,
        NamedList::FieldDefinitions | NamedList::InputFieldDefinitions => {
            Rule::UniqueFieldDefinitionNames
        }
        NamedList::ArgumentDefinitions => Rule::UniqueArgumentDefinitionNames,
        NamedList::EnumValues => Rule::UniqueEnumValueNames,
        NamedList::UnionMembers => Rule::UniqueUnionMemberTypes,
        NamedList::Interfaces => Rule::UniqueImplementedInterfaces,
    }
}

fn item_of<'t>(site: Site<'t>) -> Option<Mention<'t>>
    ensures { option_map as_named result ≡ item_of (as_located site.entry) }
{
    let name = own_name(&site.node)?;
    Some(Mention { site, name })
}

// The items of a list that have a name.
fn items_of<'t>(alloc: Global, site: &Site<'t>) -> Result<Vec<Mention<'t>>, AllocError>
    ensures { IfOk result (λ items. map as_named items.items ≡ items_of (as_located site.now)) }
{
    let mut items = Vec::new(alloc);
    for node in site.node.children() {
        let child = Site {
            document: site.document,
            node,
        };
        if let Some(item) = item_of(child) {
            items.push(item)?;
        }
    }
    Ok(items)
}

// Adds the items of a node, if it is such a list, that have the name of an earlier one.
fn add_list<'t>(
    alloc: Global,
    violations: &mut Violations<'t>,
    site: &Site<'t>,
    kind: DocumentKind,
) -> Result<(), AllocError>
    ensures { OnOk result (Adds (repeats_at kind (as_located site.now)) violations.old violations.new) }
{
    if let Some(list) = judged_list(&site.node, kind) {
        let items = items_of(alloc, site)?;
        add_repeats(alloc, violations, rule_of(list), &items)?;
    }
    Ok(())
}

// Adds the items with the name of an earlier one, in all lists of the document with a number by which documents of a
// kind are judged.
fn add_lists_as<'t>(
    alloc: Global,
    violations: &mut Violations<'t>,
    number: usize,
    document: &SyntaxNode<'t>,
    kind: DocumentKind,
) -> Result<(), AllocError>
    ensures { OnOk result (Adds (flat_map (λ p. repeats_at kind (located number p)) (nodes (node_place document.now)))
        violations.old violations.new) }
{
    for node in document.descendants() {
        let site = Site {
            document: number,
            node,
        };
        add_list(alloc, violations, &site, kind)?;
    }
    Ok(())
}

// The same in all documents, each judged as its kind is.
pub(crate) fn add_lists<'t>(
    alloc: Global,
    violations: &mut Violations<'t>,
    documents: &[SyntaxNode<'t>],
) -> Result<(), AllocError>
    ensures { OnOk result (Adds (of_each repeats_in (map node_place documents.now)) violations.old violations.new) }
{
    for (number, document) in documents.iter().enumerate() {
        add_lists_as(alloc, violations, number, document, document_kind(document))?;
    }
    Ok(())
}

fn is_executable(node: &SyntaxNode<'_>) -> bool
    ensures { result ≡ is_executable (node_place node.now) }
{
    let kind = node.kind();
    kind.is(SyntaxKind::OPERATION_DEFINITION) || kind.is(SyntaxKind::FRAGMENT_DEFINITION)
}

// Adds a definition, if it is neither an operation nor a fragment.
fn add_if_foreign<'t>(violations: &mut Violations<'t>, site: Site<'t>) -> Result<(), AllocError>
    ensures { OnOk result (Adds (foreign_at (as_located site.entry)) violations.old violations.new) }
{
    if !is_executable(&site.node) {
        violations.add(Rule::ExecutableDefinitions, site, None)?;
    }
    Ok(())
}

// Adds the definitions of the document with a number that are neither operations nor fragments.
fn add_foreign_of<'t>(
    violations: &mut Violations<'t>,
    number: usize,
    document: &SyntaxNode<'t>,
) -> Result<(), AllocError>
    ensures { OnOk result (Adds (flat_map (λ p. foreign_at (located number p)) (child_nodes (node_place document.now)))
        violations.old violations.new) }
{
    for node in document.children() {
        let site = Site {
            document: number,
            node,
        };
        add_if_foreign(violations, site)?;
    }
    Ok(())
}

// The same, unless the document is one of the type system.
fn add_foreign_as<'t>(
    violations: &mut Violations<'t>,
    number: usize,
    document: &SyntaxNode<'t>,
    kind: DocumentKind,
) -> Result<(), AllocError>
    ensures { OnOk result (Adds (foreign_as kind number (node_place document.now)) violations.old violations.new) }
{
    match kind {
        DocumentKind::Executable => add_foreign_of(violations, number, document)?,
        DocumentKind::TypeSystem => {}
    }
    Ok(())
}

// The same for all documents.
pub(crate) fn add_foreign<'t>(
    violations: &mut Violations<'t>,
    documents: &[SyntaxNode<'t>],
) -> Result<(), AllocError>
    ensures { OnOk result (Adds (of_each foreign_in (map node_place documents.now)) violations.old violations.new) }
{
    for (number, document) in documents.iter().enumerate() {
        add_foreign_as(violations, number, document, document_kind(document))?;
    }
    Ok(())
}

fn has_executable(document: &SyntaxNode<'_>) -> bool
    ensures { result ≡ list_any is_executable (child_nodes (node_place document.now)) }
{
    for node in document.children() {
        if is_executable(&node) {
            return true;
        }
    }
    false
}

fn has_definition(document: &SyntaxNode<'_>) -> bool
    ensures { result ≡ has_item (child_nodes (node_place document.now)) }
{
    document.children().next().is_some()
}

/// What a document is judged as: as one of the type system if it has definitions, and none of them is an operation or a
/// fragment.
pub fn document_kind(document: &SyntaxNode<'_>) -> DocumentKind
    ensures { result ≡ document_kind (node_place document.now) }
{
    if has_definition(document) && !has_executable(document) {
        DocumentKind::TypeSystem
    } else {
        DocumentKind::Executable
    }
}
