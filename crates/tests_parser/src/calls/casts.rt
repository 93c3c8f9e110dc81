// Which kinds each type of node and of leaf takes, of all kinds.
use crate::answers::Answers;
use apollo_cst_core::{
    CommentToken, CstNode, CstToken, FloatToken, IdentToken, IntToken, StringToken, WhitespaceToken,
};
use apollo_cst_executable::{
    Alias, Argument, Arguments, BooleanValue, DefaultValue, Description, Directive, Directives,
    EnumValue, Field, FloatValue, FragmentDefinition, FragmentName, FragmentSpread, InlineFragment,
    IntValue, ListType, ListValue, Name, NamedType, NonNullType, NullValue, ObjectField,
    ObjectValue, OperationDefinition, OperationType, Selection, SelectionSet, StringValue, Ty,
    TypeCondition, Value, Variable, VariableDefinition, VariableDefinitions,
};
use apollo_cst_type_system::{
    ArgumentsDefinition, Definition, DirectiveDefinition, DirectiveLocation, DirectiveLocations,
    Document, EnumTypeDefinition, EnumTypeExtension, EnumValueDefinition, EnumValuesDefinition,
    FieldDefinition, FieldsDefinition, ImplementsInterfaces, InputFieldsDefinition,
    InputObjectTypeDefinition, InputObjectTypeExtension, InputValueDefinition,
    InterfaceTypeDefinition, InterfaceTypeExtension, ObjectTypeDefinition, ObjectTypeExtension,
    RootOperationTypeDefinition, ScalarTypeDefinition, ScalarTypeExtension, SchemaDefinition,
    SchemaExtension, UnionMemberTypes, UnionTypeDefinition, UnionTypeExtension,
};
use document_grammar::SyntaxKind;

// The only kind that a type of node takes.
fn kind_of<'t, N: CstNode<'t>>() -> Option<SyntaxKind> {
    let mut only = None;
    for number in 0..SyntaxKind::COUNT {
        if let Some(kind) = SyntaxKind::from_u16(number)
            && N::can_cast(kind)
        {
            if only.is_some() {
                return None;
            }
            only = Some(kind);
        }
    }
    only
}

// The only kind that a type of leaf takes.
fn leaf_kind_of<'t, T: CstToken<'t>>() -> Option<SyntaxKind> {
    let mut only = None;
    for number in 0..SyntaxKind::COUNT {
        if let Some(kind) = SyntaxKind::from_u16(number)
            && T::can_cast(kind)
        {
            if only.is_some() {
                return None;
            }
            only = Some(kind);
        }
    }
    only
}

type Row = (&'static str, Option<SyntaxKind>);

fn values_and_types() -> [Row; 20] {
    [
        ("Name", kind_of::<Name>()),
        ("Variable", kind_of::<Variable>()),
        ("EnumValue", kind_of::<EnumValue>()),
        ("IntValue", kind_of::<IntValue>()),
        ("FloatValue", kind_of::<FloatValue>()),
        ("StringValue", kind_of::<StringValue>()),
        ("BooleanValue", kind_of::<BooleanValue>()),
        ("NullValue", kind_of::<NullValue>()),
        ("ListValue", kind_of::<ListValue>()),
        ("ObjectValue", kind_of::<ObjectValue>()),
        ("ObjectField", kind_of::<ObjectField>()),
        ("DefaultValue", kind_of::<DefaultValue>()),
        ("Directives", kind_of::<Directives>()),
        ("Directive", kind_of::<Directive>()),
        ("Arguments", kind_of::<Arguments>()),
        ("Argument", kind_of::<Argument>()),
        ("Description", kind_of::<Description>()),
        ("NamedType", kind_of::<NamedType>()),
        ("ListType", kind_of::<ListType>()),
        ("NonNullType", kind_of::<NonNullType>()),
    ]
}

fn executable_definitions() -> [Row; 12] {
    [
        ("OperationDefinition", kind_of::<OperationDefinition>()),
        ("OperationType", kind_of::<OperationType>()),
        ("VariableDefinitions", kind_of::<VariableDefinitions>()),
        ("VariableDefinition", kind_of::<VariableDefinition>()),
        ("SelectionSet", kind_of::<SelectionSet>()),
        ("Field", kind_of::<Field>()),
        ("Alias", kind_of::<Alias>()),
        ("FragmentSpread", kind_of::<FragmentSpread>()),
        ("InlineFragment", kind_of::<InlineFragment>()),
        ("FragmentDefinition", kind_of::<FragmentDefinition>()),
        ("FragmentName", kind_of::<FragmentName>()),
        ("TypeCondition", kind_of::<TypeCondition>()),
    ]
}

fn type_definitions() -> [Row; 17] {
    [
        ("SchemaDefinition", kind_of::<SchemaDefinition>()),
        (
            "RootOperationTypeDefinition",
            kind_of::<RootOperationTypeDefinition>(),
        ),
        ("ScalarTypeDefinition", kind_of::<ScalarTypeDefinition>()),
        ("ObjectTypeDefinition", kind_of::<ObjectTypeDefinition>()),
        (
            "InterfaceTypeDefinition",
            kind_of::<InterfaceTypeDefinition>(),
        ),
        ("ImplementsInterfaces", kind_of::<ImplementsInterfaces>()),
        ("FieldsDefinition", kind_of::<FieldsDefinition>()),
        ("FieldDefinition", kind_of::<FieldDefinition>()),
        ("ArgumentsDefinition", kind_of::<ArgumentsDefinition>()),
        ("InputValueDefinition", kind_of::<InputValueDefinition>()),
        ("UnionTypeDefinition", kind_of::<UnionTypeDefinition>()),
        ("UnionMemberTypes", kind_of::<UnionMemberTypes>()),
        ("EnumTypeDefinition", kind_of::<EnumTypeDefinition>()),
        ("EnumValuesDefinition", kind_of::<EnumValuesDefinition>()),
        ("EnumValueDefinition", kind_of::<EnumValueDefinition>()),
        (
            "InputObjectTypeDefinition",
            kind_of::<InputObjectTypeDefinition>(),
        ),
        ("InputFieldsDefinition", kind_of::<InputFieldsDefinition>()),
    ]
}

fn documents_and_extensions() -> [Row; 11] {
    [
        ("Document", kind_of::<Document>()),
        ("DirectiveDefinition", kind_of::<DirectiveDefinition>()),
        ("DirectiveLocations", kind_of::<DirectiveLocations>()),
        ("DirectiveLocation", kind_of::<DirectiveLocation>()),
        ("SchemaExtension", kind_of::<SchemaExtension>()),
        ("ScalarTypeExtension", kind_of::<ScalarTypeExtension>()),
        ("ObjectTypeExtension", kind_of::<ObjectTypeExtension>()),
        (
            "InterfaceTypeExtension",
            kind_of::<InterfaceTypeExtension>(),
        ),
        ("UnionTypeExtension", kind_of::<UnionTypeExtension>()),
        ("EnumTypeExtension", kind_of::<EnumTypeExtension>()),
        (
            "InputObjectTypeExtension",
            kind_of::<InputObjectTypeExtension>(),
        ),
    ]
}

fn leaves() -> [Row; 6] {
    [
        ("IdentToken", leaf_kind_of::<IdentToken>()),
        ("StringToken", leaf_kind_of::<StringToken>()),
        ("IntToken", leaf_kind_of::<IntToken>()),
        ("FloatToken", leaf_kind_of::<FloatToken>()),
        ("CommentToken", leaf_kind_of::<CommentToken>()),
        ("WhitespaceToken", leaf_kind_of::<WhitespaceToken>()),
    ]
}

fn put_rows(found: &mut Answers, rows: &[Row]) {
    for (name, kind) in rows {
        found.push_text(name);
        found.put(kind);
        found.end_line();
    }
}

// The kinds that a choice takes.
fn put_choice<'t, N: CstNode<'t>>(found: &mut Answers, name: &str) {
    found.push_text(name);
    for number in 0..SyntaxKind::COUNT {
        if let Some(kind) = SyntaxKind::from_u16(number)
            && N::can_cast(kind)
        {
            found.put(&kind);
        }
    }
    found.end_line();
}

pub fn put_answers(found: &mut Answers) {
    put_choice::<Definition>(found, "Definition");
    put_choice::<Selection>(found, "Selection");
    put_choice::<Value>(found, "Value");
    put_choice::<Ty>(found, "Type");
    put_rows(found, &values_and_types());
    put_rows(found, &executable_definitions());
    put_rows(found, &type_definitions());
    put_rows(found, &documents_and_extensions());
    put_rows(found, &leaves());
}
