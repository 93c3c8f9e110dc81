// What holds at a node of an operation or a fragment, by the nodes above it.
ghost use Rattle.std.specs.Prelude.{◌≡◌, ◌∷◌, [], IfOk, map, option_and_then, option_map};
ghost use Rattle.apollo_tree.specs.Above.{at_or_above};
ghost use Rattle.apollo_tree.specs.References.{node_place};
ghost use Rattle.validation_names.specs.Sites.{as_located};
ghost use Rattle.type_system.specs.Schemas.{as_typed, as_with_arguments, types};
ghost use Rattle.query_validation.specs.Contexts.{argument_of, around, as_context, as_definition, as_wanted};
ghost use Rattle.query_validation.specs.Contexts.{composite, condition, directive_at, field_at, field_of, inline};
ghost use Rattle.query_validation.specs.Contexts.{input_of, inside, is_composite, input_only, is_defined_as, is_enum};
ghost use Rattle.query_validation.specs.Contexts.{is_input, is_input_object, is_leaf, step, type_name};
ghost use Rattle.query_validation.specs.Contexts.{type_of_variable};
ghost use Rattle.query_validation.specs.Contexts.{step_in_selection, step_in_value, type_definition};
ghost use Rattle.query_validation.specs.Contexts.{type_named_in, type_of, wanted_by, wanted_in, wanted_item};
ghost use Rattle.query_validation.specs.Contexts.{wanted_of_variable};

use apollo_cst_core::{child_of, is_one_of};
use apollo_tree::{SyntaxKind, SyntaxNode};
use std::alloc::{AllocError, Global};
use type_system::{
    COMPOSITE_TYPES, DefinitionWithArguments, INPUT_TYPES, LEAF_TYPES, OperationType, Schema,
    TypedDefinition, item_type, named_in, named_type, operation_type, type_reference,
};
use validation_names::{Site, name};

/// The type that a value is to have.
#[derive(Clone, Copy)]
pub struct Wanted<'s, 't> {
    /// The reference to it, in the schema or in the definition of a variable.
    pub reference: SyntaxNode<'s>,
    /// The number of the named type in it, if it is known.
    pub type_number: Option<usize>,
    /// The definition of the argument or the input field. A variable's default value has none.
    pub definition: Option<Site<'t>>,
}

/// What holds at a place in an operation or a fragment.
#[derive(Clone, Copy)]
pub struct Context<'s, 't> {
    /// The number of the composite type from which fields are selected, if it is known.
    pub parent: Option<usize>,
    /// What arguments are given to, if it is known: a field, a directive, or an input object with its fields.
    pub definition: Option<&'s DefinitionWithArguments<'t>>,
    /// The type that a value is to have, if it is known.
    pub wanted: Option<Wanted<'s, 't>>,
}

// The nodes that decide which type a value is to have.
const WITH_VALUES: [SyntaxKind; 5] = [
    SyntaxKind::VARIABLE_DEFINITION,
    SyntaxKind::ARGUMENT,
    SyntaxKind::LIST_VALUE,
    SyntaxKind::OBJECT_VALUE,
    SyntaxKind::OBJECT_FIELD,
];

// The first definition of a type.
pub(crate) fn type_definition<'t>(schema: &Schema<'t>, number: Option<usize>) -> Option<Site<'t>>
    ensures { option_map as_located result ≡ type_definition (types schema.now) number }
{
    schema.definition_at(number?)
}

pub(crate) fn is_composite(schema: &Schema<'_>, number: Option<usize>) -> bool
    ensures { result ≡ is_composite (types schema.now) number }
{
    match type_definition(schema, number) {
        Some(site) => is_one_of(site.node.kind(), &COMPOSITE_TYPES),
        None => false,
    }
}

pub(crate) fn is_leaf(schema: &Schema<'_>, number: Option<usize>) -> bool
    ensures { result ≡ is_leaf (types schema.now) number }
{
    match type_definition(schema, number) {
        Some(site) => is_one_of(site.node.kind(), &LEAF_TYPES),
        None => false,
    }
}

fn is_defined_as(schema: &Schema<'_>, number: Option<usize>, kind: SyntaxKind) -> bool
    ensures { result ≡ is_defined_as (kind ∷ []) (type_definition (types schema.now) number) }
{
    match type_definition(schema, number) {
        Some(site) => site.node.kind().is(kind),
        None => false,
    }
}

// Whether values may have the type.
fn is_input(schema: &Schema<'_>, number: Option<usize>) -> bool
    ensures { result ≡ is_input (types schema.now) number }
{
    match type_definition(schema, number) {
        Some(site) => is_one_of(site.node.kind(), &INPUT_TYPES),
        None => false,
    }
}

pub(crate) fn is_enum(schema: &Schema<'_>, number: Option<usize>) -> bool
    ensures { result ≡ is_enum (types schema.now) number }
{
    is_defined_as(schema, number, SyntaxKind::ENUM_TYPE_DEFINITION)
}

pub(crate) fn is_input_object(schema: &Schema<'_>, number: Option<usize>) -> bool
    ensures { result ≡ is_input_object (types schema.now) number }
{
    is_defined_as(schema, number, SyntaxKind::INPUT_OBJECT_TYPE_DEFINITION)
}

// The name of a type.
pub(crate) fn type_name<'t>(schema: &Schema<'t>, number: Option<usize>) -> Option<&'t str>
    ensures { option_map (λ n. n.now) result ≡ type_name (types schema.now) number }
{
    let definition = type_definition(schema, number)?;
    name(&definition.node)
}

// The type, if it is composite.
fn composite(schema: &Schema<'_>, number: Option<usize>) -> Option<usize>
    ensures { result ≡ composite (types schema.now) number }
{
    if is_composite(schema, number) {
        return number;
    }
    None
}

// The type with a name, if there is a name.
pub(crate) fn type_named_in(schema: &Schema<'_>, name: Option<&str>) -> Option<usize>
    ensures { result ≡ type_named_in (types schema.now) (option_map (λ n. n.now) name.entry) }
{
    schema.type_named(name?)
}

// The condition of a fragment: the name of its type.
fn condition<'t>(node: &SyntaxNode<'t>) -> Option<&'t str>
    ensures { option_map (λ n. n.now) result ≡ condition (node_place node.now) }
{
    let condition = child_of(*node, &[SyntaxKind::TYPE_CONDITION])?;
    named_type(&condition)
}

// A field that may be selected from a type.
fn field_of<'s, 't>(
    schema: &'s Schema<'t>,
    owner: usize,
    name: &str,
) -> Option<&'s DefinitionWithArguments<'t>>
    ensures { option_map (λ f. as_with_arguments f.now) result ≡ field_of (types schema.now) owner name.now }
{
    if let Some(field) = schema.field_named(owner, name) {
        return Some(field);
    }
    if let Some(field) = schema.each_field(name) {
        return Some(field);
    }
    if schema.root(OperationType::Query) == Some(owner) {
        return schema.query_field(name);
    }
    None
}

// The definition of a field that is selected in a context.
fn field_at<'s, 't>(
    schema: &'s Schema<'t>,
    around: &Context<'s, 't>,
    node: &SyntaxNode<'_>,
) -> Option<&'s DefinitionWithArguments<'t>>
    ensures { option_map (λ f. as_with_arguments f.now) result
        ≡ field_at (types schema.now) (as_context around.now) (node_place node.now) }
{
    let owner = around.parent?;
    let name = name(node)?;
    field_of(schema, owner, name)
}

fn directive_at<'s, 't>(
    schema: &'s Schema<'t>,
    node: &SyntaxNode<'_>,
) -> Option<&'s DefinitionWithArguments<'t>>
    ensures { option_map (λ d. as_with_arguments d.now) result
        ≡ directive_at (types schema.now) (node_place node.now) }
{
    let name = name(node)?;
    schema.directive_named(name)
}

// The number of the type of a definition.
pub(crate) fn type_of(definition: Option<&DefinitionWithArguments<'_>>) -> Option<usize>
    ensures { result ≡ type_of (option_map (λ d. as_with_arguments d.now) definition.entry) }
{
    definition?.definition.type_number
}

// The type in an inline fragment.
fn inline<'t>(
    schema: &Schema<'t>,
    around: &Context<'_, 't>,
    condition: Option<&str>,
) -> Option<usize>
    ensures { result
        ≡ inline (types schema.now) (as_context around.now) (option_map (λ n. n.now) condition.entry) }
{
    match condition {
        Some(name) => composite(schema, schema.type_named(name)),
        None => around.parent,
    }
}

// An argument of a definition, or a field of an input object.
fn argument_of<'t>(
    definition: Option<&DefinitionWithArguments<'t>>,
    name: Option<&str>,
) -> Option<TypedDefinition<'t>>
    ensures { option_map as_typed result
        ≡ argument_of (as_definition definition.entry) (option_map (λ n. n.now) name.entry) }
{
    definition?.argument(name?)
}

// The type of an argument or an input field.
fn wanted_by<'s, 't: 's>(definition: &TypedDefinition<'t>) -> Option<Wanted<'s, 't>>
    ensures { option_map as_wanted result ≡ wanted_by (as_typed definition.now) }
{
    let reference = type_reference(&definition.site.node)?;
    Some(Wanted {
        reference,
        type_number: definition.type_number,
        definition: Some(definition.site),
    })
}

// A type, if it is an input type.
fn input_only<'s, 't>(schema: &Schema<'_>, wanted: Wanted<'s, 't>) -> Option<Wanted<'s, 't>>
    ensures { option_map as_wanted result ≡ input_only (types schema.now) (as_wanted wanted.entry) }
{
    if is_input(schema, wanted.type_number) {
        return Some(wanted);
    }
    None
}

// The type of an argument or an input field that is given.
fn wanted_in<'s, 't: 's>(
    schema: &Schema<'_>,
    around: &Context<'s, 't>,
    node: &SyntaxNode<'_>,
) -> Option<Wanted<'s, 't>>
    ensures { option_map as_wanted result
        ≡ wanted_in (types schema.now) (as_context around.now) (node_place node.now) }
{
    let argument = argument_of(around.definition, name(node))?;
    input_only(schema, wanted_by(&argument)?)
}

// The type of a variable.
fn type_of_variable<'s, 't>(schema: &Schema<'t>, node: &SyntaxNode<'s>) -> Option<Wanted<'s, 't>>
    ensures { option_map as_wanted result ≡ type_of_variable (types schema.now) (node_place node.now) }
{
    let reference = type_reference(node)?;
    Some(Wanted {
        reference,
        type_number: type_named_in(schema, named_in(&reference)),
        definition: None,
    })
}

// The type of a variable, if it is an input type.
fn wanted_of_variable<'s, 't>(schema: &Schema<'t>, node: &SyntaxNode<'s>) -> Option<Wanted<'s, 't>>
    ensures { option_map as_wanted result ≡ wanted_of_variable (types schema.now) (node_place node.now) }
{
    input_only(schema, type_of_variable(schema, node)?)
}

// The type of the items, where a list is wanted.
fn wanted_item<'s, 't>(wanted: &Wanted<'s, 't>) -> Option<Wanted<'s, 't>>
    ensures { option_map as_wanted result ≡ wanted_item (as_wanted wanted.now) }
{
    let reference = item_type(&wanted.reference)?;
    Some(Wanted {
        reference,
        type_number: wanted.type_number,
        definition: wanted.definition,
    })
}

// What an input object is given, where one is wanted.
fn input_of<'s, 't>(
    schema: &'s Schema<'t>,
    wanted: &Wanted<'_, 't>,
) -> Option<&'s DefinitionWithArguments<'t>>
    ensures { as_definition result ≡ input_of (types schema.now) (as_wanted wanted.now) }
{
    if is_input_object(schema, wanted.type_number) {
        return schema.input_at(wanted.type_number?);
    }
    None
}

fn input_if_wanted<'s, 't>(
    schema: &'s Schema<'t>,
    wanted: Option<Wanted<'_, 't>>,
) -> Option<&'s DefinitionWithArguments<'t>>
    ensures { as_definition result
        ≡ option_and_then (input_of (types schema.now)) (option_map as_wanted wanted.entry) }
{
    input_of(schema, &wanted?)
}

fn item_if_wanted<'s, 't>(wanted: Option<Wanted<'s, 't>>) -> Option<Wanted<'s, 't>>
    ensures { option_map as_wanted result ≡ option_and_then wanted_item (option_map as_wanted wanted.entry) }
{
    wanted_item(&wanted?)
}

// The context in a value, an argument, or the definition of a variable.
fn step_in_value<'s, 't>(
    schema: &'s Schema<'t>,
    around: &Context<'s, 't>,
    node: &SyntaxNode<'s>,
) -> Context<'s, 't>
    ensures { as_context result ≡ step_in_value (types schema.now) (as_context around.now) (node_place node.now) }
{
    let kind = node.kind();
    let (definition, wanted) = if kind.is(SyntaxKind::OBJECT_VALUE) {
        (input_if_wanted(schema, around.wanted), None)
    } else if kind.is(SyntaxKind::LIST_VALUE) {
        (None, item_if_wanted(around.wanted))
    } else if kind.is(SyntaxKind::VARIABLE_DEFINITION) {
        (None, wanted_of_variable(schema, node))
    } else {
        (around.definition, wanted_in(schema, around, node))
    };
    Context {
        parent: around.parent,
        definition,
        wanted,
    }
}

// The context in a field, a fragment, an operation or a directive.
fn step_in_selection<'s, 't>(
    schema: &'s Schema<'t>,
    around: &Context<'s, 't>,
    node: &SyntaxNode<'_>,
) -> Context<'s, 't>
    ensures { as_context result
        ≡ step_in_selection (types schema.now) (as_context around.now) (node_place node.now) }
{
    let kind = node.kind();
    let wanted = None;
    if kind.is(SyntaxKind::FIELD) {
        let definition = field_at(schema, around, node);
        let parent = composite(schema, type_of(definition));
        return Context {
            parent,
            definition,
            wanted,
        };
    }
    if kind.is(SyntaxKind::DIRECTIVE) {
        let definition = directive_at(schema, node);
        let parent = around.parent;
        return Context {
            parent,
            definition,
            wanted,
        };
    }
    let parent = if kind.is(SyntaxKind::INLINE_FRAGMENT) {
        inline(schema, around, condition(node))
    } else if kind.is(SyntaxKind::FRAGMENT_DEFINITION) {
        composite(schema, type_named_in(schema, condition(node)))
    } else if kind.is(SyntaxKind::OPERATION_DEFINITION) {
        composite(schema, schema.root(operation_type(node)))
    } else {
        return *around;
    };
    Context {
        parent,
        definition: None,
        wanted,
    }
}

/// The context inside a node, by the context around it.
pub(crate) fn step<'s, 't>(
    schema: &'s Schema<'t>,
    around: &Context<'s, 't>,
    node: &SyntaxNode<'s>,
) -> Context<'s, 't>
    ensures { as_context result ≡ step (types schema.now) (as_context around.now) (node_place node.now) }
{
    if is_one_of(node.kind(), &WITH_VALUES) {
        return step_in_value(schema, around, node);
    }
    step_in_selection(schema, around, node)
}

// The nodes from a node up to the root.
fn ancestors<'t>(alloc: Global, node: &SyntaxNode<'t>) -> Result<Vec<SyntaxNode<'t>>, AllocError>
    ensures { IfOk result (λ found. map node_place found.items ≡ at_or_above (node_place node.now)) }
{
    let mut found = Vec::new(alloc);
    for outer in node.ancestors() {
        found.push(outer)?;
    }
    Ok(found)
}

// What holds in the first of some nodes, each of which is a child of the next.
fn inside<'s, 't>(schema: &'s Schema<'t>, chain: &[SyntaxNode<'s>]) -> Context<'s, 't>
    ensures { as_context result ≡ inside (types schema.now) (map node_place chain.now) }
{
    let mut context = Context {
        parent: None,
        definition: None,
        wanted: None,
    };
    let mut left = chain.len();
    while left > 0 {
        left -= 1;
        context = step(schema, &context, &chain[left]);
    }
    context
}

/// What holds in a node, by all nodes above it.
pub(crate) fn inside_of<'s, 't>(
    alloc: Global,
    schema: &'s Schema<'t>,
    node: &SyntaxNode<'s>,
) -> Result<Context<'s, 't>, AllocError>
    ensures { IfOk result (λ context.
        as_context context ≡ inside (types schema.now) (at_or_above (node_place node.now))) }
{
    let chain = ancestors(alloc, node)?;
    Ok(inside(schema, &chain))
}

/// What holds around a node, by all nodes above it.
pub(crate) fn around_of<'s, 't>(
    alloc: Global,
    schema: &'s Schema<'t>,
    node: &SyntaxNode<'s>,
) -> Result<Context<'s, 't>, AllocError>
    ensures { IfOk result (λ context. as_context context ≡ around (types schema.now) (node_place node.now)) }
{
    match node.parent() {
        Some(parent) => inside_of(alloc, schema, &parent),
        None => Ok(Context {
            parent: None,
            definition: None,
            wanted: None,
        }),
    }
}
