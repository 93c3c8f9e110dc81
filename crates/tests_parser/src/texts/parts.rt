// The parts of nodes that the accessors of the typed tree find.
use crate::answers::Answers;
use apollo_parser::SyntaxNode;
use apollo_parser::cst::{
    Arguments, ArgumentsDefinition, CstNode, Definition, DirectiveDefinition, DirectiveLocation,
    DirectiveLocations, EnumValueDefinition, EnumValuesDefinition, Field, FieldDefinition,
    FieldsDefinition, FragmentSpread, InlineFragment, InputValueDefinition, Name, NamedType,
    ObjectTypeDefinition, OperationDefinition, Selection, SelectionSet, StringValue, Type,
    UnionMemberTypes, UnionTypeDefinition, Value, VariableDefinition, VariableDefinitions,
};
use std::alloc::Global;

fn name_text(name: Option<Name<'_>>) -> Option<&str> {
    Some(name?.text().as_str())
}

fn variable_name(definition: VariableDefinition<'_>) -> Option<&str> {
    Some(definition.variable()?.text()?.as_str())
}

// The names of the variables.
fn put_variables(found: &mut Answers, list: VariableDefinitions<'_>) {
    found.push_text("variables: ");
    for definition in list.variable_definitions() {
        found.write(&variable_name(definition), " ");
    }
    found.end_line();
}

// Its name, and whether it has a type, a description and a selection set.
fn put_operation(found: &mut Answers, operation: OperationDefinition<'_>) {
    found.push_text("operation ");
    found.write(&name_text(operation.name()), ", type ");
    found.write(&operation.operation_type().is_some(), ", description ");
    found.write(&operation.description().is_some(), ", selections ");
    found.write(&operation.selection_set().is_some(), "\n");
}

// The name of a type that is no more than a name.
fn type_name(ty: Option<Type<'_>>) -> Option<&str> {
    match ty? {
        Type::NamedType(named) => name_text(named.name()),
        _ => None,
    }
}

fn put_string(alloc: Global, found: &mut Answers, string: StringValue<'_>) {
    found.made(string.to_string_in(alloc), " ");
}

fn described_as(definition: VariableDefinition<'_>) -> Option<StringValue<'_>> {
    definition.description()?.string_value()
}

fn put_variable(alloc: Global, found: &mut Answers, definition: VariableDefinition<'_>) {
    found.push_text("variable ");
    found.write(&variable_name(definition), ": ");
    found.write(&type_name(definition.ty()), " ");
    if let Some(description) = described_as(definition) {
        put_string(alloc, found, description);
    }
    found.end_line();
}

// The value of a string, an integer or a Boolean; of anything else the text.
fn put_literal(alloc: Global, found: &mut Answers, value: Value<'_>) {
    match value {
        Value::StringValue(string) => put_string(alloc, found, string),
        Value::IntValue(number) => found.write(&i32::try_from(number), " "),
        Value::BooleanValue(truth) => found.write(&bool::try_from(truth), " "),
        _ => found.write(&value.syntax().text(), " "),
    }
}

fn put_arguments(alloc: Global, found: &mut Answers, arguments: Arguments<'_>) {
    found.push_text("arguments: ");
    for argument in arguments.arguments() {
        if let Some(value) = argument.value() {
            put_literal(alloc, found, value);
        }
    }
    found.end_line();
}

fn alias_of(field: Field<'_>) -> Option<&str> {
    name_text(field.alias()?.name())
}

fn put_field(alloc: Global, found: &mut Answers, field: Field<'_>) {
    found.push_text("field ");
    found.write(&name_text(field.name()), ", alias ");
    found.write(&alias_of(field), "\n");
    match field.arguments() {
        Some(arguments) => put_arguments(alloc, found, arguments),
        None => {}
    }
}

fn fragment_of(spread: FragmentSpread<'_>) -> Option<&str> {
    name_text(spread.fragment_name()?.name())
}

fn condition_of(fragment: InlineFragment<'_>) -> Option<&str> {
    name_text(fragment.type_condition()?.named_type()?.name())
}

// What a selection is called: the name of the field or the fragment, or the type of an inline fragment.
fn put_selection(found: &mut Answers, selection: Selection<'_>) {
    match selection {
        Selection::Field(field) => found.write(&name_text(field.name()), " a field, "),
        Selection::FragmentSpread(spread) => found.write(&fragment_of(spread), " a spread, "),
        Selection::InlineFragment(fragment) => found.write(&condition_of(fragment), " inline, "),
    }
}

fn put_selections(found: &mut Answers, set: SelectionSet<'_>) {
    found.push_text("selections: ");
    for selection in set.selections() {
        put_selection(found, selection);
    }
    found.end_line();
}

fn put_members(found: &mut Answers, members: UnionMemberTypes<'_>) {
    found.push_text("members: ");
    for member in members.named_types() {
        found.write(&name_text(member.name()), " ");
    }
    found.end_line();
}

fn put_union(found: &mut Answers, union: UnionTypeDefinition<'_>) {
    found.push_text("union ");
    found.write(&name_text(union.name()), "\n");
    match union.union_member_types() {
        Some(members) => put_members(found, members),
        None => {}
    }
}

fn put_fields(found: &mut Answers, fields: FieldsDefinition<'_>) {
    found.push_text("fields: ");
    for field in fields.field_definitions() {
        found.write(&name_text(field.name()), " ");
    }
    found.end_line();
}

fn put_object(found: &mut Answers, object: ObjectTypeDefinition<'_>) {
    found.push_text("object type ");
    found.write(&name_text(object.name()), "\n");
    match object.fields_definition() {
        Some(fields) => put_fields(found, fields),
        None => {}
    }
}

// The first argument of a value's first directive, where that is a string.
fn string_of(definition: EnumValueDefinition<'_>) -> Option<StringValue<'_>> {
    let directive = definition.directives()?.directives().next()?;
    match directive.arguments()?.arguments().next()?.value()? {
        Value::StringValue(string) => Some(string),
        _ => None,
    }
}

// An enum value without a name is there, and has no text.
fn value_text(definition: EnumValueDefinition<'_>) -> &str {
    match definition.enum_value() {
        Some(value) => match value.text() {
            Some(text) => text.as_str(),
            None => "no text",
        },
        None => "no value",
    }
}

// Each value, with the string of its first directive.
fn put_enum_values(alloc: Global, found: &mut Answers, values: EnumValuesDefinition<'_>) {
    found.push_text("enum values: ");
    for value in values.enum_value_definitions() {
        found.write(&value_text(value), " ");
        if let Some(string) = string_of(value) {
            put_string(alloc, found, string);
        }
    }
    found.end_line();
}

fn location_text(location: DirectiveLocation<'_>) -> Option<&str> {
    Some(location.text()?.as_str())
}

// Each location, and whether it is `FIELD`.
fn put_locations(found: &mut Answers, locations: DirectiveLocations<'_>) {
    found.push_text("locations: ");
    for location in locations.directive_locations() {
        found.write(&location_text(location), " ");
        found.write(&location.field_token().is_some(), " ");
    }
    found.end_line();
}

fn put_directive(found: &mut Answers, directive: DirectiveDefinition<'_>) {
    found.push_text("directive ");
    found.write(&name_text(directive.name()), ", repeatable ");
    found.write(&directive.repeatable_token().is_some(), ", on ");
    found.write(&directive.on_token().is_some(), "\n");
    match directive.directive_locations() {
        Some(locations) => put_locations(found, locations),
        None => {}
    }
}

fn put_inputs(found: &mut Answers, arguments: ArgumentsDefinition<'_>) {
    found.push_text("arguments: ");
    for argument in arguments.input_value_definitions() {
        found.write(&name_text(argument.name()), " ");
    }
    found.end_line();
}

fn put_field_definition(found: &mut Answers, field: FieldDefinition<'_>) {
    found.push_text("field definition ");
    found.write(&name_text(field.name()), "\n");
    match field.arguments_definition() {
        Some(arguments) => put_inputs(found, arguments),
        None => {}
    }
}

fn default_text(input: InputValueDefinition<'_>) -> Option<&str> {
    Some(input.default_value()?.value()?.syntax().text())
}

fn type_text(input: InputValueDefinition<'_>) -> Option<&str> {
    Some(input.ty()?.syntax().text())
}

fn put_input(found: &mut Answers, input: InputValueDefinition<'_>) {
    found.push_text("input value ");
    found.write(&name_text(input.name()), ": ");
    found.write(&type_text(input), " = ");
    found.write(&default_text(input), "\n");
}

fn put_definition(found: &mut Answers, definition: Definition<'_>) {
    match definition {
        Definition::OperationDefinition(operation) => put_operation(found, operation),
        Definition::UnionTypeDefinition(union) => put_union(found, union),
        Definition::ObjectTypeDefinition(object) => put_object(found, object),
        Definition::DirectiveDefinition(directive) => put_directive(found, directive),
        _ => {}
    }
}

fn put_named_type(found: &mut Answers, ty: NamedType<'_>) {
    found.push_text("named type ");
    found.write(&name_text(ty.name()), "\n");
}

// The parts of a node of an executable definition.
fn put_executable(alloc: Global, found: &mut Answers, node: SyntaxNode<'_>) {
    if let Some(list) = VariableDefinitions::cast(node) {
        put_variables(found, list);
    }
    if let Some(variable) = VariableDefinition::cast(node) {
        put_variable(alloc, found, variable);
    }
    if let Some(set) = SelectionSet::cast(node) {
        put_selections(found, set);
    }
    if let Some(field) = Field::cast(node) {
        put_field(alloc, found, field);
    }
    if let Some(ty) = NamedType::cast(node) {
        put_named_type(found, ty);
    }
}

// The parts of a node of a definition of the type system.
fn put_type_system(alloc: Global, found: &mut Answers, node: SyntaxNode<'_>) {
    if let Some(field) = FieldDefinition::cast(node) {
        put_field_definition(found, field);
    }
    if let Some(input) = InputValueDefinition::cast(node) {
        put_input(found, input);
    }
    if let Some(values) = EnumValuesDefinition::cast(node) {
        put_enum_values(alloc, found, values);
    }
}

fn put_node(alloc: Global, found: &mut Answers, node: SyntaxNode<'_>) {
    if let Some(definition) = Definition::cast(node) {
        put_definition(found, definition);
    }
    put_executable(alloc, found, node);
    put_type_system(alloc, found, node);
}

/// A line or two for each node whose parts are looked at.
pub fn put_parts(alloc: Global, found: &mut Answers, root: SyntaxNode<'_>) {
    for node in root.descendants() {
        put_node(alloc, found, node);
    }
}
