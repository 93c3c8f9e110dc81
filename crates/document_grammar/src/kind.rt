/// The kinds of the leaves and nodes of syntax trees, in the order of their numbers, which are this project's own.
///
/// Leaves come first. WHITESPACE, COMMENT and COMMA are those of ignored tokens (GraphQL October 2021, section 2.1.7),
/// ERROR of text that the grammar refuses. Then come the punctuators, IDENT, INT, FLOAT and STRING, and the keywords,
/// each a Name with the kind's name without `_KW` as its text. Nodes begin with DOCUMENT; their children are those of
/// the standard's sections 2 and 3.
///
/// Each node says what it is, and gives its section and its production. Terminals are in backquotes; a production whose
/// forms hold characters, and not tokens, is written with `::`, as in the standard. The typed nodes have the same
/// words.
#[derive(Clone, Copy, PartialEq, Eq, Hash, Debug)]
pub enum SyntaxKind {
    /// A run of white space and line terminators.
    WHITESPACE,
    /// A comment: `#` and what follows it in its line.
    COMMENT,
    COMMA,
    ERROR,
    BANG,
    DOLLAR,
    AMP,
    SPREAD,
    COLON,
    EQ,
    AT,
    L_PAREN,
    R_PAREN,
    L_BRACK,
    R_BRACK,
    L_CURLY,
    R_CURLY,
    PIPE,
    /// The word of a name.
    IDENT,
    /// An integer.
    INT,
    /// A number with a fraction, an exponent or both.
    FLOAT,
    /// A quoted string or a block string, with its quotes.
    STRING,
    query_KW,
    mutation_KW,
    subscription_KW,
    fragment_KW,
    on_KW,
    true_KW,
    false_KW,
    null_KW,
    extend_KW,
    schema_KW,
    scalar_KW,
    type_KW,
    interface_KW,
    union_KW,
    enum_KW,
    input_KW,
    directive_KW,
    implements_KW,
    repeatable_KW,
    QUERY_KW,
    MUTATION_KW,
    SUBSCRIPTION_KW,
    FIELD_KW,
    FRAGMENT_DEFINITION_KW,
    FRAGMENT_SPREAD_KW,
    INLINE_FRAGMENT_KW,
    VARIABLE_DEFINITION_KW,
    SCHEMA_KW,
    SCALAR_KW,
    OBJECT_KW,
    FIELD_DEFINITION_KW,
    ARGUMENT_DEFINITION_KW,
    INTERFACE_KW,
    UNION_KW,
    ENUM_KW,
    ENUM_VALUE_KW,
    INPUT_OBJECT_KW,
    INPUT_FIELD_DEFINITION_KW,
    /// A document (section 2.2, "Document").
    ///
    /// *Document*: Definition+
    DOCUMENT,
    /// A query, a mutation or a subscription (section 2.3, "Operations").
    ///
    /// *OperationDefinition*:
    /// - Description? OperationType Name? VariableDefinitions? Directives? SelectionSet
    /// - SelectionSet
    ///
    /// The description is this project's own: the standard of October 2021 has none here.
    OPERATION_DEFINITION,
    /// The type of an operation (section 2.3, "Operations").
    ///
    /// *OperationType*: one of `query` `mutation` `subscription`
    OPERATION_TYPE,
    /// A selection set (section 2.4, "Selection Sets").
    ///
    /// *SelectionSet*: `{` Selection+ `}`
    ///
    /// One that was parsed alone may lack both braces.
    SELECTION_SET,
    /// A selected field (section 2.5, "Fields").
    ///
    /// *Field*: Alias? Name Arguments? Directives? SelectionSet?
    FIELD,
    /// The alias of a field (section 2.7, "Field Alias").
    ///
    /// *Alias*: Name `:`
    ALIAS,
    /// A name (section 2.1.9, "Names").
    ///
    /// *Name*:: NameStart NameContinue* [lookahead ≠ NameContinue]
    NAME,
    /// A fragment that is selected by its name (section 2.8, "Fragments").
    ///
    /// *FragmentSpread*: `...` FragmentName Directives?
    FRAGMENT_SPREAD,
    /// A fragment where it is selected (section 2.8.2, "Inline Fragments").
    ///
    /// *InlineFragment*: `...` TypeCondition? Directives? SelectionSet
    INLINE_FRAGMENT,
    /// The definition of a fragment (section 2.8, "Fragments").
    ///
    /// *FragmentDefinition*: Description? `fragment` FragmentName TypeCondition Directives? SelectionSet
    ///
    /// The description is this project's own: the standard of October 2021 has none here.
    FRAGMENT_DEFINITION,
    /// The name of a fragment (section 2.8, "Fragments").
    ///
    /// *FragmentName*: Name but not `on`
    FRAGMENT_NAME,
    /// The type that a fragment applies to (section 2.8.1, "Type Conditions").
    ///
    /// *TypeCondition*: `on` NamedType
    TYPE_CONDITION,
    /// The arguments of a field or a directive (section 2.6, "Arguments").
    ///
    /// *Arguments[Const]*: `(` Argument[?Const]+ `)`
    ARGUMENTS,
    /// An argument (section 2.6, "Arguments").
    ///
    /// *Argument[Const]*: Name `:` Value[?Const]
    ARGUMENT,
    /// The directives of a node (section 2.12, "Directives").
    ///
    /// *Directives[Const]*: Directive[?Const]+
    DIRECTIVES,
    /// A directive where it is used (section 2.12, "Directives").
    ///
    /// *Directive[Const]*: `@` Name Arguments[?Const]?
    DIRECTIVE,
    /// The variables of an operation (section 2.10, "Variables").
    ///
    /// *VariableDefinitions*: `(` VariableDefinition+ `)`
    VARIABLE_DEFINITIONS,
    /// The definition of a variable (section 2.10, "Variables").
    ///
    /// *VariableDefinition*: Description? Variable `:` Type DefaultValue? Directives[Const]?
    ///
    /// The description is this project's own: the standard of October 2021 has none here.
    VARIABLE_DEFINITION,
    /// A variable (section 2.10, "Variables").
    ///
    /// *Variable*: `$` Name
    VARIABLE,
    /// The default value of a variable, an argument or an input field (section 2.10, "Variables").
    ///
    /// *DefaultValue*: `=` Value[Const]
    DEFAULT_VALUE,
    /// An integer (section 2.9.1, "Int Value").
    ///
    /// *IntValue*:: IntegerPart [lookahead ≠ {Digit, `.`, NameStart}]
    INT_VALUE,
    /// A number with a fraction, an exponent or both (section 2.9.2, "Float Value").
    ///
    /// *FloatValue*::
    /// - IntegerPart FractionalPart ExponentPart [lookahead ≠ {Digit, `.`, NameStart}]
    /// - IntegerPart FractionalPart [lookahead ≠ {Digit, `.`, NameStart}]
    /// - IntegerPart ExponentPart [lookahead ≠ {Digit, `.`, NameStart}]
    FLOAT_VALUE,
    /// A quoted string or a block string (section 2.9.4, "String Value").
    ///
    /// *StringValue*::
    /// - `""` [lookahead ≠ `"`]
    /// - `"` StringCharacter+ `"`
    /// - `"""` BlockStringCharacter* `"""`
    ///
    /// The escapes of quoted strings are those of September 2025.
    STRING_VALUE,
    /// A Boolean (section 2.9.3, "Boolean Value").
    ///
    /// *BooleanValue*: one of `true` `false`
    BOOLEAN_VALUE,
    /// The value `null` (section 2.9.5, "Null Value").
    ///
    /// *NullValue*: `null`
    NULL_VALUE,
    /// An enum value (section 2.9.6, "Enum Value").
    ///
    /// *EnumValue*: Name but not `true`, `false` or `null`
    ENUM_VALUE,
    /// A list of values (section 2.9.7, "List Value").
    ///
    /// *ListValue[Const]*:
    /// - `[` `]`
    /// - `[` Value[?Const]+ `]`
    LIST_VALUE,
    /// An input object (section 2.9.8, "Input Object Values").
    ///
    /// *ObjectValue[Const]*:
    /// - `{` `}`
    /// - `{` ObjectField[?Const]+ `}`
    OBJECT_VALUE,
    /// A field of an input object (section 2.9.8, "Input Object Values").
    ///
    /// *ObjectField[Const]*: Name `:` Value[?Const]
    OBJECT_FIELD,
    /// A type by its name (section 2.11, "Type References").
    ///
    /// *NamedType*: Name
    NAMED_TYPE,
    /// A list type (section 2.11, "Type References").
    ///
    /// *ListType*: `[` Type `]`
    LIST_TYPE,
    /// A non-null type (section 2.11, "Type References").
    ///
    /// *NonNullType*:
    /// - NamedType `!`
    /// - ListType `!`
    NON_NULL_TYPE,
    /// A description (section 3, "Descriptions").
    ///
    /// *Description*: StringValue
    DESCRIPTION,
    /// The definition of a schema (section 3, "Schema").
    ///
    /// *SchemaDefinition*: Description? `schema` Directives[Const]? `{` RootOperationTypeDefinition+ `}`
    SCHEMA_DEFINITION,
    /// The type of a root operation (section 3, "Schema").
    ///
    /// *RootOperationTypeDefinition*: OperationType `:` NamedType
    ROOT_OPERATION_TYPE_DEFINITION,
    /// The definition of a scalar type (section 3.5, "Scalars").
    ///
    /// *ScalarTypeDefinition*: Description? `scalar` Name Directives[Const]?
    SCALAR_TYPE_DEFINITION,
    /// The definition of an object type (section 3.6, "Objects").
    ///
    /// *ObjectTypeDefinition*:
    /// - Description? `type` Name ImplementsInterfaces? Directives[Const]? FieldsDefinition
    /// - Description? `type` Name ImplementsInterfaces? Directives[Const]? [lookahead ≠ `{`]
    OBJECT_TYPE_DEFINITION,
    /// The interfaces that a type implements (section 3.6, "Objects").
    ///
    /// *ImplementsInterfaces*:
    /// - ImplementsInterfaces `&` NamedType
    /// - `implements` `&`? NamedType
    IMPLEMENTS_INTERFACES,
    /// The fields of an object type or an interface (section 3.6, "Objects").
    ///
    /// *FieldsDefinition*: `{` FieldDefinition+ `}`
    FIELDS_DEFINITION,
    /// The definition of a field (section 3.6, "Objects").
    ///
    /// *FieldDefinition*: Description? Name ArgumentsDefinition? `:` Type Directives[Const]?
    FIELD_DEFINITION,
    /// The arguments that a field or a directive takes (section 3.6.1, "Field Arguments").
    ///
    /// *ArgumentsDefinition*: `(` InputValueDefinition+ `)`
    ARGUMENTS_DEFINITION,
    /// The definition of an argument or of an input object's field (section 3.6.1, "Field Arguments").
    ///
    /// *InputValueDefinition*: Description? Name `:` Type DefaultValue? Directives[Const]?
    INPUT_VALUE_DEFINITION,
    /// The definition of an interface (section 3.7, "Interfaces").
    ///
    /// *InterfaceTypeDefinition*:
    /// - Description? `interface` Name ImplementsInterfaces? Directives[Const]? FieldsDefinition
    /// - Description? `interface` Name ImplementsInterfaces? Directives[Const]? [lookahead ≠ `{`]
    INTERFACE_TYPE_DEFINITION,
    /// The definition of a union type (section 3.8, "Unions").
    ///
    /// *UnionTypeDefinition*: Description? `union` Name Directives[Const]? UnionMemberTypes?
    UNION_TYPE_DEFINITION,
    /// The member types of a union (section 3.8, "Unions").
    ///
    /// *UnionMemberTypes*:
    /// - UnionMemberTypes `|` NamedType
    /// - `=` `|`? NamedType
    UNION_MEMBER_TYPES,
    /// The definition of an enum type (section 3.9, "Enums").
    ///
    /// *EnumTypeDefinition*:
    /// - Description? `enum` Name Directives[Const]? EnumValuesDefinition
    /// - Description? `enum` Name Directives[Const]? [lookahead ≠ `{`]
    ENUM_TYPE_DEFINITION,
    /// The values of an enum type (section 3.9, "Enums").
    ///
    /// *EnumValuesDefinition*: `{` EnumValueDefinition+ `}`
    ENUM_VALUES_DEFINITION,
    /// The definition of an enum's value (section 3.9, "Enums").
    ///
    /// *EnumValueDefinition*: Description? EnumValue Directives[Const]?
    ENUM_VALUE_DEFINITION,
    /// The definition of an input object type (section 3.10, "Input Objects").
    ///
    /// *InputObjectTypeDefinition*:
    /// - Description? `input` Name Directives[Const]? InputFieldsDefinition
    /// - Description? `input` Name Directives[Const]? [lookahead ≠ `{`]
    INPUT_OBJECT_TYPE_DEFINITION,
    /// The fields of an input object type (section 3.10, "Input Objects").
    ///
    /// *InputFieldsDefinition*: `{` InputValueDefinition+ `}`
    INPUT_FIELDS_DEFINITION,
    /// The definition of a directive (section 3.13, "Directives").
    ///
    /// *DirectiveDefinition*: Description? `directive` `@` Name ArgumentsDefinition? `repeatable`? `on`
    /// DirectiveLocations
    DIRECTIVE_DEFINITION,
    /// The locations where a directive may be used (section 3.13, "Directives").
    ///
    /// *DirectiveLocations*:
    /// - DirectiveLocations `|` DirectiveLocation
    /// - `|`? DirectiveLocation
    DIRECTIVE_LOCATIONS,
    /// A location where a directive may be used (section 3.13, "Directives").
    ///
    /// *DirectiveLocation*:
    /// - ExecutableDirectiveLocation
    /// - TypeSystemDirectiveLocation
    DIRECTIVE_LOCATION,
    /// An extension of the schema (section 3, "Schema Extension").
    ///
    /// *SchemaExtension*:
    /// - `extend` `schema` Directives[Const]? `{` RootOperationTypeDefinition+ `}`
    /// - `extend` `schema` Directives[Const] [lookahead ≠ `{`]
    SCHEMA_EXTENSION,
    /// An extension of a scalar type (section 3.5, "Scalar Extensions").
    ///
    /// *ScalarTypeExtension*: `extend` `scalar` Name Directives[Const]
    SCALAR_TYPE_EXTENSION,
    /// An extension of an object type (section 3.6, "Object Extensions").
    ///
    /// *ObjectTypeExtension*:
    /// - `extend` `type` Name ImplementsInterfaces? Directives[Const]? FieldsDefinition
    /// - `extend` `type` Name ImplementsInterfaces? Directives[Const] [lookahead ≠ `{`]
    /// - `extend` `type` Name ImplementsInterfaces [lookahead ≠ `{`]
    OBJECT_TYPE_EXTENSION,
    /// An extension of an interface (section 3.7, "Interface Extensions").
    ///
    /// *InterfaceTypeExtension*:
    /// - `extend` `interface` Name ImplementsInterfaces? Directives[Const]? FieldsDefinition
    /// - `extend` `interface` Name ImplementsInterfaces? Directives[Const] [lookahead ≠ `{`]
    /// - `extend` `interface` Name ImplementsInterfaces [lookahead ≠ `{`]
    INTERFACE_TYPE_EXTENSION,
    /// An extension of a union type (section 3.8, "Union Extensions").
    ///
    /// *UnionTypeExtension*:
    /// - `extend` `union` Name Directives[Const]? UnionMemberTypes
    /// - `extend` `union` Name Directives[Const]
    UNION_TYPE_EXTENSION,
    /// An extension of an enum type (section 3.9, "Enum Extensions").
    ///
    /// *EnumTypeExtension*:
    /// - `extend` `enum` Name Directives[Const]? EnumValuesDefinition
    /// - `extend` `enum` Name Directives[Const] [lookahead ≠ `{`]
    ENUM_TYPE_EXTENSION,
    /// An extension of an input object type (section 3.10, "Input Object Extensions").
    ///
    /// *InputObjectTypeExtension*:
    /// - `extend` `input` Name Directives[Const]? InputFieldsDefinition
    /// - `extend` `input` Name Directives[Const] [lookahead ≠ `{`]
    INPUT_OBJECT_TYPE_EXTENSION,
}

mod lookup;

ghost use Rattle.std.specs.Prelude.{◌≡◌};
ghost use Rattle.document_grammar.specs.Numbers.{number, is_trivia, is_kind};

impl SyntaxKind {
    /// The number of the kind: its index in the list, from 0.
    pub fn to_u16(self) -> u16
        ensures { result ≡ number self }
    {
        self as u16
    }

    /// Whether the kind is WHITESPACE or COMMENT. COMMA, though the grammar ignores it too, is not.
    pub fn is_trivia(self) -> bool
        ensures { result ≡ is_trivia self }
    {
        matches!(self, SyntaxKind::WHITESPACE | SyntaxKind::COMMENT)
    }

    /// Whether two kinds are the same, by their numbers.
    pub fn is(self, other: SyntaxKind) -> bool
        ensures { result ≡ is_kind other self }
    {
        self.to_u16() == other.to_u16()
    }
}
