// The calls of `Definition` that answer for all its kinds.
use crate::document::Definition;
use apollo_cst_executable::Name;

impl<'t> Definition<'t> {
    ghost use Rattle.std.specs.Prelude.{◌≡◌, option_map};
    ghost use Rattle.apollo_tree.specs.References.{node_place};
    ghost use Rattle.apollo_cst_type_system.specs.DefinitionQueries.{
      definition_name,
      is_executable,
      is_extension,
      kind_name,
    };

    /// The name of the definition, or of the type that it extends. `None` for a schema and its extension, which have no
    /// name, for an operation without a name, and when a syntax error left it out.
    pub fn name(&self) -> Option<Name<'t>>
        ensures { option_map (λ n. node_place n.syntax) result ≡ definition_name self.now }
    {
        match self {
            Definition::OperationDefinition(node) => node.name(),
            Definition::FragmentDefinition(node) => node.fragment_name()?.name(),
            Definition::DirectiveDefinition(node) => node.name(),
            Definition::SchemaDefinition(_) => None,
            Definition::ScalarTypeDefinition(node) => node.name(),
            Definition::ObjectTypeDefinition(node) => node.name(),
            Definition::InterfaceTypeDefinition(node) => node.name(),
            Definition::UnionTypeDefinition(node) => node.name(),
            Definition::EnumTypeDefinition(node) => node.name(),
            Definition::InputObjectTypeDefinition(node) => node.name(),
            Definition::SchemaExtension(_) => None,
            Definition::ScalarTypeExtension(node) => node.name(),
            Definition::ObjectTypeExtension(node) => node.name(),
            Definition::InterfaceTypeExtension(node) => node.name(),
            Definition::UnionTypeExtension(node) => node.name(),
            Definition::EnumTypeExtension(node) => node.name(),
            Definition::InputObjectTypeExtension(node) => node.name(),
        }
    }

    /// The name of its struct, such as `"OperationDefinition"`.
    pub fn kind(&self) -> &'static str
        ensures { result.now ≡ kind_name self.now }
    {
        match self {
            Definition::OperationDefinition(_) => "OperationDefinition",
            Definition::FragmentDefinition(_) => "FragmentDefinition",
            Definition::DirectiveDefinition(_) => "DirectiveDefinition",
            Definition::SchemaDefinition(_) => "SchemaDefinition",
            Definition::ScalarTypeDefinition(_) => "ScalarTypeDefinition",
            Definition::ObjectTypeDefinition(_) => "ObjectTypeDefinition",
            Definition::InterfaceTypeDefinition(_) => "InterfaceTypeDefinition",
            Definition::UnionTypeDefinition(_) => "UnionTypeDefinition",
            Definition::EnumTypeDefinition(_) => "EnumTypeDefinition",
            Definition::InputObjectTypeDefinition(_) => "InputObjectTypeDefinition",
            Definition::SchemaExtension(_) => "SchemaExtension",
            Definition::ScalarTypeExtension(_) => "ScalarTypeExtension",
            Definition::ObjectTypeExtension(_) => "ObjectTypeExtension",
            Definition::InterfaceTypeExtension(_) => "InterfaceTypeExtension",
            Definition::UnionTypeExtension(_) => "UnionTypeExtension",
            Definition::EnumTypeExtension(_) => "EnumTypeExtension",
            Definition::InputObjectTypeExtension(_) => "InputObjectTypeExtension",
        }
    }

    /// Whether it is an operation or a fragment definition.
    pub fn is_executable_definition(&self) -> bool
        ensures { result ≡ is_executable self.now }
    {
        matches!(
            self,
            Definition::OperationDefinition(_) | Definition::FragmentDefinition(_)
        )
    }

    /// Whether it is one of the seven extensions.
    pub fn is_extension_definition(&self) -> bool
        ensures { result ≡ is_extension self.now }
    {
        matches!(
            self,
            Definition::SchemaExtension(_)
                | Definition::ScalarTypeExtension(_)
                | Definition::ObjectTypeExtension(_)
                | Definition::InterfaceTypeExtension(_)
                | Definition::UnionTypeExtension(_)
                | Definition::EnumTypeExtension(_)
                | Definition::InputObjectTypeExtension(_)
        )
    }
}
