// What the parser finds fault with, and the words that say it.
ghost use Rattle.std.specs.Prelude.{◌≡◌};
ghost use Rattle.parser_rules.specs.Messages.{description, names_found};

/// What a report says.
#[derive(Clone, Copy)]
pub enum Message {
    /// The document has no token.
    UnexpectedEof,
    /// No definition starts with such a token.
    ExpectedDefinitionStart,
    /// No definition starts with this word, or with this string.
    ExpectedDefinition,
    /// No token is read after a string in the place of a definition.
    ExpectedDefinitionAfterString,
    /// A string before an operation.
    ExpectedOperation,
    /// Another word in the place of an operation's type.
    ExpectedOperationType,
    /// An operation or a fragment definition without a selection set.
    ExpectedSelectionSet,
    /// An inline fragment without a selection set.
    ExpectedInlineSelectionSet,
    /// A selection set without a selection.
    ExpectedSelection,
    /// A spread before a token that goes on with no fragment.
    ExpectedFragment,
    /// A fragment with the name `on`.
    FragmentNamedOn,
    /// A fragment without a name.
    ExpectedFragmentName,
    /// A type condition without `on`.
    ExpectedOn,
    /// A type condition without a type's name.
    ExpectedConditionName,
    /// Another token in the place of a name.
    ExpectedName,
    /// Parentheses without an argument.
    ExpectedArgument,
    /// Parentheses without a variable definition.
    ExpectedVariableDefinition,
    /// A variable definition without a type.
    ExpectedType,
    /// A list type without an item type.
    ExpectedItemType,
    /// Another token in the place of a value.
    ExpectedValue,
    /// A variable in a constant place.
    VariableInConst,
    /// `extend` before a word that it can't extend, or a string before it.
    InvalidExtension,
    /// A type definition without a name.
    ExpectedTypeName,
    /// Another token in the place of an interface's name.
    ExpectedInterface,
    /// Another token in the place of a union's member.
    ExpectedUnionMember,
    /// Braces without a field definition.
    ExpectedFieldDefinition,
    /// A field definition without `:`.
    ExpectedFieldType,
    /// Parentheses without an argument definition.
    ExpectedArgumentDefinition,
    /// Braces without an input field.
    ExpectedInputValueDefinition,
    /// Braces without an enum value.
    ExpectedEnumValueDefinition,
    /// An enum value with the name `true`, `false` or `null`.
    InvalidEnumValue,
    /// Another token in the place of an enum value.
    ExpectedEnumValue,
    /// A schema definition without a root operation.
    ExpectedRootOperation,
    /// A root operation without `:`, or without the name of a type.
    ExpectedRootType,
    /// A directive definition without `@`.
    ExpectedAt,
    /// A directive definition without `on`.
    ExpectedLocations,
    /// Another word in the place of a directive location, or no location.
    ExpectedValidLocation,
    /// Another token in the place of a directive location.
    ExpectedLocation,
    /// A schema extension that adds nothing.
    ExpectedSchemaExtension,
    /// A scalar extension without directives.
    ExpectedScalarExtension,
    /// An object type extension that adds nothing.
    ExpectedObjectExtension,
    /// An interface extension that adds nothing.
    ExpectedInterfaceExtension,
    /// A union extension that adds nothing.
    ExpectedUnionExtension,
    /// An enum extension that adds nothing.
    ExpectedEnumExtension,
    /// An input object extension that adds nothing.
    ExpectedInputExtension,
    /// A description of a variable before another token than `$`.
    ExpectedVariable,
    /// Another token in the place of `{`.
    ExpectedLCurly,
    /// Another token in the place of `:`.
    ExpectedColon,
    /// Another token in the place of `)`.
    ExpectedRParen,
    /// Another token in the place of `]`.
    ExpectedRBracket,
    /// Another token in the place of `}`.
    ExpectedRCurly,
}

impl Message {
    /// What is wrong, in words.
    pub fn description(self) -> &'static str
        ensures { result.now ≡ description self }
    {
        match self {
            Message::UnexpectedEof => "Unexpected <EOF>.",
            Message::ExpectedDefinitionStart =>
                "expected a StringValue, Name or OperationDefinition",
            Message::ExpectedDefinition => "expected definition",
            Message::ExpectedDefinitionAfterString =>
                "expected a definition after this StringValue",
            Message::ExpectedOperation => "expected an Operation Type or a Selection Set",
            Message::ExpectedOperationType =>
                "expected either a 'mutation', a 'query', or a 'subscription'",
            Message::ExpectedSelectionSet => "expected a Selection Set",
            Message::ExpectedInlineSelectionSet => "expected Selection Set",
            Message::ExpectedSelection => "expected at least one Selection in Selection Set",
            Message::ExpectedFragment => "expected an Inline Fragment or a Fragment Spread",
            Message::FragmentNamedOn => "Fragment Name cannot be 'on'",
            Message::ExpectedFragmentName => "expected Fragment Name",
            Message::ExpectedOn => "expected 'on'",
            Message::ExpectedConditionName => "expected a Name in Type Condition",
            Message::ExpectedName => "expected a Name",
            Message::ExpectedArgument => "expected an Argument",
            Message::ExpectedVariableDefinition => "expected a Variable Definition",
            Message::ExpectedType => "expected a Type",
            Message::ExpectedItemType => "expected item type",
            Message::ExpectedValue => "expected a valid Value",
            Message::VariableInConst => "unexpected variable value in a Const context",
            Message::InvalidExtension =>
                "Invalid Type System Extension. This extension cannot be applied.",
            Message::ExpectedTypeName => "expected a name",
            Message::ExpectedInterface => "expected an Interface name",
            Message::ExpectedUnionMember => "expected Union Member Type",
            Message::ExpectedFieldDefinition => "expected Field Definition",
            Message::ExpectedFieldType => "expected a type",
            Message::ExpectedArgumentDefinition => "expected an Argument Definition",
            Message::ExpectedInputValueDefinition => "expected an Input Value Definition",
            Message::ExpectedEnumValueDefinition => "expected Enum Value Definition",
            Message::InvalidEnumValue => "invalid Enum Value",
            Message::ExpectedEnumValue => "expected Enum Value",
            Message::ExpectedRootOperation => "expected Root Operation Type Definition",
            Message::ExpectedRootType => "expected a Name Type",
            Message::ExpectedAt => "expected @ symbol",
            Message::ExpectedLocations => "expected Directive Locations",
            Message::ExpectedValidLocation => "expected valid Directive Location",
            Message::ExpectedLocation => "expected Directive Location",
            Message::ExpectedSchemaExtension =>
                "expected directives or Root Operation Type Definition",
            Message::ExpectedScalarExtension => "expected Directives",
            Message::ExpectedObjectExtension =>
                "expected an Implements Interface, Directives or a Fields Definition",
            Message::ExpectedInterfaceExtension =>
                "exptected an Implements Interfaces, Directives, or a Fields Definition",
            Message::ExpectedUnionExtension => "expected Directives or Union Member Types",
            Message::ExpectedEnumExtension => "expected Directive or Enum Values Definition",
            Message::ExpectedInputExtension => "expected Directives or an Input Fields Definition",
            Message::ExpectedVariable => "expected a Variable",
            Message::ExpectedLCurly => "expected L_CURLY",
            Message::ExpectedColon => "expected COLON",
            Message::ExpectedRParen => "expected R_PAREN",
            Message::ExpectedRBracket => "expected R_BRACK",
            Message::ExpectedRCurly => "expected R_CURLY",
        }
    }

    /// Whether the words go on with the token that was found.
    pub fn names_found(self) -> bool
        ensures { result ≡ names_found self }
    {
        matches!(
            self,
            Message::ExpectedLCurly
                | Message::ExpectedColon
                | Message::ExpectedRParen
                | Message::ExpectedRBracket
                | Message::ExpectedRCurly
        )
    }
}
