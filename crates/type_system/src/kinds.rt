// The kinds of definitions, and of operations.
ghost use Rattle.std.specs.Prelude.{◌≡◌};

use apollo_tree::SyntaxKind;

/// What an operation does (section 2.3, *OperationType*).
#[derive(Clone, Copy)]
pub enum OperationType {
    Query,
    Mutation,
    Subscription,
}

impl OperationType {
    ghost use Rattle.type_system.specs.Operations.{default_root_name, word_of};

    // Its word.
    pub(crate) fn word(self) -> &'static str
        ensures { result.now ≡ word_of self }
    {
        match self {
            OperationType::Query => "query",
            OperationType::Mutation => "mutation",
            OperationType::Subscription => "subscription",
        }
    }

    // The name of its root type, if the schema does not say another one (section 3.3.1, "Default Root Operation Type
    // Names").
    pub(crate) fn default_root_name(self) -> &'static str
        ensures { result.now ≡ default_root_name self }
    {
        match self {
            OperationType::Query => "Query",
            OperationType::Mutation => "Mutation",
            OperationType::Subscription => "Subscription",
        }
    }
}

/// The definitions of objects, interfaces and unions: the types from which fields are selected.
pub const COMPOSITE_TYPES: [SyntaxKind; 3] = [
    SyntaxKind::OBJECT_TYPE_DEFINITION,
    SyntaxKind::INTERFACE_TYPE_DEFINITION,
    SyntaxKind::UNION_TYPE_DEFINITION,
];

/// The definitions of scalars and enums: the types without selections.
pub const LEAF_TYPES: [SyntaxKind; 2] = [
    SyntaxKind::SCALAR_TYPE_DEFINITION,
    SyntaxKind::ENUM_TYPE_DEFINITION,
];

/// The definitions of scalars, enums and input objects: the types that values have (section 3.4.2, *IsInputType*).
pub const INPUT_TYPES: [SyntaxKind; 3] = [
    SyntaxKind::SCALAR_TYPE_DEFINITION,
    SyntaxKind::ENUM_TYPE_DEFINITION,
    SyntaxKind::INPUT_OBJECT_TYPE_DEFINITION,
];

// The definitions of types (section 3.4, *TypeDefinition*).
pub(crate) const TYPES: [SyntaxKind; 6] = [
    SyntaxKind::SCALAR_TYPE_DEFINITION,
    SyntaxKind::OBJECT_TYPE_DEFINITION,
    SyntaxKind::INTERFACE_TYPE_DEFINITION,
    SyntaxKind::UNION_TYPE_DEFINITION,
    SyntaxKind::ENUM_TYPE_DEFINITION,
    SyntaxKind::INPUT_OBJECT_TYPE_DEFINITION,
];

// These and their extensions (section 3.4.3, *TypeExtension*).
pub(crate) const TYPE_PARTS: [SyntaxKind; 12] = [
    SyntaxKind::SCALAR_TYPE_DEFINITION,
    SyntaxKind::OBJECT_TYPE_DEFINITION,
    SyntaxKind::INTERFACE_TYPE_DEFINITION,
    SyntaxKind::UNION_TYPE_DEFINITION,
    SyntaxKind::ENUM_TYPE_DEFINITION,
    SyntaxKind::INPUT_OBJECT_TYPE_DEFINITION,
    SyntaxKind::SCALAR_TYPE_EXTENSION,
    SyntaxKind::OBJECT_TYPE_EXTENSION,
    SyntaxKind::INTERFACE_TYPE_EXTENSION,
    SyntaxKind::UNION_TYPE_EXTENSION,
    SyntaxKind::ENUM_TYPE_EXTENSION,
    SyntaxKind::INPUT_OBJECT_TYPE_EXTENSION,
];

// The definition of a schema and its extensions (section 3.3).
pub(crate) const SCHEMAS: [SyntaxKind; 2] = [
    SyntaxKind::SCHEMA_DEFINITION,
    SyntaxKind::SCHEMA_EXTENSION,
];

// The definitions of directives (section 3.13).
pub(crate) const DIRECTIVES: [SyntaxKind; 1] = [SyntaxKind::DIRECTIVE_DEFINITION];

/// References to types (section 2.11, *Type*).
pub const TYPE_REFERENCES: [SyntaxKind; 3] = [
    SyntaxKind::NAMED_TYPE,
    SyntaxKind::LIST_TYPE,
    SyntaxKind::NON_NULL_TYPE,
];
