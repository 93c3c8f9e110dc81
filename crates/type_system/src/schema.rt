// The schema that documents define, for looking up.
ghost use Rattle.std.specs.Prelude.{◌≡◌, map, option_map};
ghost use Rattle.validation_names.specs.Sites.{as_located};

use crate::kinds::OperationType;
use std::collections::BTreeMap;
use validation_names::Site;

/// A definition with a type: of a field, an argument or an input field.
#[derive(Clone, Copy)]
pub struct TypedDefinition<'t> {
    pub site: Site<'t>,
    /// The number of its named type; `None` if no type of the name is defined.
    pub type_number: Option<usize>,
}

/// A definition with arguments: of a field, which has a type too, or of a directive. Those of an input object are its
/// fields.
#[derive(Drop)]
pub struct DefinitionWithArguments<'t> {
    pub definition: TypedDefinition<'t>,
    pub(crate) arguments: BTreeMap<&'t str, TypedDefinition<'t>>,
    pub(crate) required: Vec<Site<'t>>,
}

impl<'t> DefinitionWithArguments<'t> {
    ghost use Rattle.std.specs.Prelude.{◌≡◌, map, option_map};
    ghost use Rattle.validation_names.specs.Sites.{as_located};
    ghost use Rattle.type_system.specs.Schemas.{as_typed, as_with_arguments};

    /// The first argument with a name.
    pub fn argument(&self, name: &str) -> Option<TypedDefinition<'t>>
        ensures { option_map as_typed result ≡ (as_with_arguments self.now).argument_named name.now }
    {
        self.arguments.get(name).copied()
    }

    /// The definitions of the arguments that have to be given: those of a non-null type without a default value.
    pub fn required(&self) -> &[Site<'t>]
        ensures { map as_located result.now ≡ (as_with_arguments self.now).required }
    {
        self.required.as_slice()
    }
}

// What a type has by its definitions and extensions: its fields, its values, and what it is given as an input object.
#[derive(Drop)]
pub(crate) struct TypeParts<'t> {
    pub fields: BTreeMap<&'t str, DefinitionWithArguments<'t>>,
    pub values: BTreeMap<&'t str, Site<'t>>,
    pub input: DefinitionWithArguments<'t>,
}

/// What documents define together. A type has the number of the first definition of its name, among all definitions of
/// all documents.
#[derive(Drop)]
pub struct Schema<'t> {
    pub(crate) definitions: Vec<Site<'t>>,
    pub(crate) types: BTreeMap<&'t str, usize>,
    // For each definition what the type with its number has.
    pub(crate) parts: Vec<TypeParts<'t>>,
    pub(crate) each_fields: BTreeMap<&'t str, DefinitionWithArguments<'t>>,
    pub(crate) query_fields: BTreeMap<&'t str, DefinitionWithArguments<'t>>,
    pub(crate) directives: BTreeMap<&'t str, DefinitionWithArguments<'t>>,
    pub(crate) query: Option<usize>,
    pub(crate) mutation: Option<usize>,
    pub(crate) subscription: Option<usize>,
}

impl<'t> Schema<'t> {
    ghost use Rattle.std.specs.Prelude.{◌≡◌, option_map};
    ghost use Rattle.validation_names.specs.Sites.{as_located};
    ghost use Rattle.type_system.specs.Schemas.{as_with_arguments, types};

    /// The number of the type with a name.
    pub fn type_named(&self, name: &str) -> Option<usize>
        ensures { result ≡ (types self.now).type_named name.now }
    {
        self.types.get(name).copied()
    }

    /// The first definition of the type with a number.
    pub fn definition_at(&self, number: usize) -> Option<Site<'t>>
        ensures { option_map as_located result ≡ (types self.now).definition_at number }
    {
        self.definitions.get(number).copied()
    }

    /// The field with a name of the type with a number.
    pub fn field_named(&self, number: usize, name: &str) -> Option<&DefinitionWithArguments<'t>>
        ensures { option_map (λ f. as_with_arguments f.now) result ≡ (types self.now).field_named number name.now }
    {
        self.parts.get(number)?.fields.get(name)
    }

    /// The value with a name of the enum with a number.
    pub fn value_named(&self, number: usize, name: &str) -> Option<Site<'t>>
        ensures { option_map as_located result ≡ (types self.now).value_named number name.now }
    {
        self.parts.get(number)?.values.get(name).copied()
    }

    /// What is given to the input object with a number: its fields are here in the place of arguments.
    pub fn input_at(&self, number: usize) -> Option<&DefinitionWithArguments<'t>>
        ensures { option_map (λ d. as_with_arguments d.now) result ≡ (types self.now).input_at number }
    {
        Some(&self.parts.get(number)?.input)
    }

    /// The field with a name that each type has from which fields are selected: `__typename` (section 4.1).
    pub fn each_field(&self, name: &str) -> Option<&DefinitionWithArguments<'t>>
        ensures { option_map (λ f. as_with_arguments f.now) result ≡ (types self.now).each_field name.now }
    {
        self.each_fields.get(name)
    }

    /// The field with a name that the root type of queries has besides its own: `__schema` or `__type` (section 4.2).
    pub fn query_field(&self, name: &str) -> Option<&DefinitionWithArguments<'t>>
        ensures { option_map (λ f. as_with_arguments f.now) result ≡ (types self.now).query_field name.now }
    {
        self.query_fields.get(name)
    }

    /// The directive with a name.
    pub fn directive_named(&self, name: &str) -> Option<&DefinitionWithArguments<'t>>
        ensures { option_map (λ d. as_with_arguments d.now) result ≡ (types self.now).directive_named name.now }
    {
        self.directives.get(name)
    }

    /// The number of the root type of operations.
    pub fn root(&self, operation: OperationType) -> Option<usize>
        ensures { result ≡ (types self.now).root operation }
    {
        match operation {
            OperationType::Query => self.query,
            OperationType::Mutation => self.mutation,
            OperationType::Subscription => self.subscription,
        }
    }
}
