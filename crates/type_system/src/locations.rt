// Where directives may be, and how often (section 3.13).
ghost use Rattle.std.specs.Prelude.{◌≡◌};
ghost use Rattle.std.specs.List.{find, list_any};
ghost use Rattle.std.specs.Prelude.{bytes_eq};
ghost use Rattle.document_grammar.specs.Numbers.{is_kind};
ghost use Rattle.apollo_tree.specs.Children.{child_nodes};
ghost use Rattle.apollo_tree.specs.Order.{parent_place, text_at};
ghost use Rattle.apollo_tree.specs.References.{node_place};
ghost use Rattle.type_system.specs.Locations.{input_location, is_listed, is_repeatable, listed_location};
ghost use Rattle.type_system.specs.Locations.{location_of, may_be_at, operation_location};
ghost use Rattle.type_system.specs.declared.locations.TheConstants.{LOCATIONS};

use crate::definitions::operation_type;
use crate::kinds::OperationType;
use apollo_cst_core::token;
use apollo_tree::{SyntaxKind, SyntaxNode};

/// What a directive may be on (section 3.13, *DirectiveLocation*).
#[derive(Clone, Copy)]
pub enum DirectiveLocation {
    Query,
    Mutation,
    Subscription,
    Field,
    FragmentDefinition,
    FragmentSpread,
    InlineFragment,
    VariableDefinition,
    Schema,
    Scalar,
    Object,
    FieldDefinition,
    ArgumentDefinition,
    Interface,
    Union,
    Enum,
    EnumValue,
    InputObject,
    InputFieldDefinition,
}

// The locations of nodes that may have directives, by their kinds, but for operations and input values.
pub(crate) const LOCATIONS: [(SyntaxKind, DirectiveLocation); 21] = [
    (SyntaxKind::FIELD, DirectiveLocation::Field),
    (
        SyntaxKind::FRAGMENT_DEFINITION,
        DirectiveLocation::FragmentDefinition,
    ),
    (
        SyntaxKind::FRAGMENT_SPREAD,
        DirectiveLocation::FragmentSpread,
    ),
    (
        SyntaxKind::INLINE_FRAGMENT,
        DirectiveLocation::InlineFragment,
    ),
    (
        SyntaxKind::VARIABLE_DEFINITION,
        DirectiveLocation::VariableDefinition,
    ),
    (SyntaxKind::SCHEMA_DEFINITION, DirectiveLocation::Schema),
    (SyntaxKind::SCHEMA_EXTENSION, DirectiveLocation::Schema),
    (
        SyntaxKind::SCALAR_TYPE_DEFINITION,
        DirectiveLocation::Scalar,
    ),
    (SyntaxKind::SCALAR_TYPE_EXTENSION, DirectiveLocation::Scalar),
    (
        SyntaxKind::OBJECT_TYPE_DEFINITION,
        DirectiveLocation::Object,
    ),
    (SyntaxKind::OBJECT_TYPE_EXTENSION, DirectiveLocation::Object),
    (
        SyntaxKind::FIELD_DEFINITION,
        DirectiveLocation::FieldDefinition,
    ),
    (
        SyntaxKind::INTERFACE_TYPE_DEFINITION,
        DirectiveLocation::Interface,
    ),
    (
        SyntaxKind::INTERFACE_TYPE_EXTENSION,
        DirectiveLocation::Interface,
    ),
    (SyntaxKind::UNION_TYPE_DEFINITION, DirectiveLocation::Union),
    (SyntaxKind::UNION_TYPE_EXTENSION, DirectiveLocation::Union),
    (SyntaxKind::ENUM_TYPE_DEFINITION, DirectiveLocation::Enum),
    (SyntaxKind::ENUM_TYPE_EXTENSION, DirectiveLocation::Enum),
    (
        SyntaxKind::ENUM_VALUE_DEFINITION,
        DirectiveLocation::EnumValue,
    ),
    (
        SyntaxKind::INPUT_OBJECT_TYPE_DEFINITION,
        DirectiveLocation::InputObject,
    ),
    (
        SyntaxKind::INPUT_OBJECT_TYPE_EXTENSION,
        DirectiveLocation::InputObject,
    ),
];

impl DirectiveLocation {
    ghost use Rattle.std.specs.Prelude.{◌≡◌};
    ghost use Rattle.type_system.specs.LocationNames.{location_name};

    /// Its name in definitions of directives.
    pub fn name(self) -> &'static str
        ensures { result.now ≡ location_name self }
    {
        match self {
            DirectiveLocation::Query => "QUERY",
            DirectiveLocation::Mutation => "MUTATION",
            DirectiveLocation::Subscription => "SUBSCRIPTION",
            DirectiveLocation::Field => "FIELD",
            DirectiveLocation::FragmentDefinition => "FRAGMENT_DEFINITION",
            DirectiveLocation::FragmentSpread => "FRAGMENT_SPREAD",
            DirectiveLocation::InlineFragment => "INLINE_FRAGMENT",
            DirectiveLocation::VariableDefinition => "VARIABLE_DEFINITION",
            DirectiveLocation::Schema => "SCHEMA",
            DirectiveLocation::Scalar => "SCALAR",
            DirectiveLocation::Object => "OBJECT",
            DirectiveLocation::FieldDefinition => "FIELD_DEFINITION",
            DirectiveLocation::ArgumentDefinition => "ARGUMENT_DEFINITION",
            DirectiveLocation::Interface => "INTERFACE",
            DirectiveLocation::Union => "UNION",
            DirectiveLocation::Enum => "ENUM",
            DirectiveLocation::EnumValue => "ENUM_VALUE",
            DirectiveLocation::InputObject => "INPUT_OBJECT",
            DirectiveLocation::InputFieldDefinition => "INPUT_FIELD_DEFINITION",
        }
    }
}

// The location of an operation.
fn operation_location(operation: OperationType) -> DirectiveLocation
    ensures { result ≡ operation_location operation }
{
    match operation {
        OperationType::Query => DirectiveLocation::Query,
        OperationType::Mutation => DirectiveLocation::Mutation,
        OperationType::Subscription => DirectiveLocation::Subscription,
    }
}

// The location of an input value: in a field or a directive, or in an input object.
fn input_location(value: &SyntaxNode<'_>) -> DirectiveLocation
    ensures { result ≡ input_location (parent_place (node_place value.now)) }
{
    match value.parent() {
        Some(list) if list.kind().is(SyntaxKind::ARGUMENTS_DEFINITION) => {
            DirectiveLocation::ArgumentDefinition
        }
        _ => DirectiveLocation::InputFieldDefinition,
    }
}

// The first row of a kind.
fn row_of(kind: SyntaxKind) -> Option<(SyntaxKind, DirectiveLocation)>
    ensures { result ≡ find (λ row. is_kind row.0 kind) LOCATIONS }
{
    LOCATIONS.iter().copied().find(|row| kind.is(row.0))
}

// The location of another kind.
fn listed_location(kind: SyntaxKind) -> Option<DirectiveLocation>
    ensures { result ≡ listed_location kind }
{
    let (_, location) = row_of(kind)?;
    Some(location)
}

/// The location that a node is for directives. `None` where a node has none.
pub fn location_of(node: &SyntaxNode<'_>) -> Option<DirectiveLocation>
    ensures { result ≡ location_of (node_place node.now) }
{
    let kind = node.kind();
    if kind.is(SyntaxKind::OPERATION_DEFINITION) {
        return Some(operation_location(operation_type(node)));
    }
    if kind.is(SyntaxKind::INPUT_VALUE_DEFINITION) {
        return Some(input_location(node));
    }
    listed_location(kind)
}

// Whether some locations have one of a name.
fn has_location(locations: &SyntaxNode<'_>, name: &str) -> bool
    ensures { result ≡ list_any (λ one. bytes_eq (text_at one) name.now) (child_nodes (node_place locations.now)) }
{
    for location in locations.children() {
        if location.text() == name {
            return true;
        }
    }
    false
}

// Whether a directive's definition lists a location of a name.
fn is_listed(definition: &SyntaxNode<'_>, name: &str) -> bool
    ensures { result ≡ is_listed name.now (node_place definition.now) }
{
    for part in definition.children() {
        if part.kind().is(SyntaxKind::DIRECTIVE_LOCATIONS) && has_location(&part, name) {
            return true;
        }
    }
    false
}

/// Whether a directive may be at a location, by its definition.
pub fn may_be_at(definition: &SyntaxNode<'_>, location: DirectiveLocation) -> bool
    ensures { result ≡ may_be_at location (node_place definition.now) }
{
    is_listed(definition, location.name())
}

/// Whether a directive may be more than once at a location, by its definition.
pub fn is_repeatable(definition: &SyntaxNode<'_>) -> bool
    ensures { result ≡ is_repeatable (node_place definition.now) }
{
    token(definition, SyntaxKind::repeatable_KW).is_some()
}
