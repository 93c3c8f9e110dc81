// What each schema has by the standard.

/// A document with the types, the directives and the meta-fields of GraphQL, October 2021, that need no definition
/// (sections 3.5, 3.13, 4.1 and 4.2). The standard gives the meta-fields no type to be in: here they are in extensions
/// of two types that no schema may have.
pub const STANDARD: &str = r#""`true` or `false`."
scalar Boolean
"A finite number of double precision, by IEEE 754."
scalar Float
"A unique identifier, which is serialized as a String."
scalar ID
"A signed integer of 32 bits."
scalar Int
"Text, as a sequence of Unicode code points."
scalar String
"Marks what is no longer to be used."
directive @deprecated(reason: String = "No longer supported") on FIELD_DEFINITION | ENUM_VALUE
"Includes the selection only if the argument is true."
directive @include(if: Boolean!) on FIELD | FRAGMENT_SPREAD | INLINE_FRAGMENT
"Leaves the selection out if the argument is true."
directive @skip(if: Boolean!) on FIELD | FRAGMENT_SPREAD | INLINE_FRAGMENT
"Names the specification of a scalar type by its URL."
directive @specifiedBy(url: String!) on SCALAR
extend type __Each {
  "The name of the object's type."
  __typename: String!
}
extend type __Root {
  "The types and directives of the service."
  __schema: __Schema!
  "The type that has a name, if there is one."
  __type(name: String!): __Type
}
type __Schema {
  description: String
  types: [__Type!]!
  queryType: __Type!
  mutationType: __Type
  subscriptionType: __Type
  directives: [__Directive!]!
}
type __Type {
  kind: __TypeKind!
  name: String
  description: String
  fields(includeDeprecated: Boolean = false): [__Field!]
  interfaces: [__Type!]
  possibleTypes: [__Type!]
  enumValues(includeDeprecated: Boolean = false): [__EnumValue!]
  inputFields: [__InputValue!]
  ofType: __Type
  specifiedByURL: String
}
enum __TypeKind { SCALAR OBJECT INTERFACE UNION ENUM INPUT_OBJECT LIST NON_NULL }
type __Field {
  name: String!
  description: String
  args: [__InputValue!]!
  type: __Type!
  isDeprecated: Boolean!
  deprecationReason: String
}
type __InputValue { name: String! description: String type: __Type! defaultValue: String }
type __EnumValue { name: String! description: String isDeprecated: Boolean! deprecationReason: String }
type __Directive {
  name: String!
  description: String
  locations: [__DirectiveLocation!]!
  args: [__InputValue!]!
  isRepeatable: Boolean!
}
enum __DirectiveLocation {
  QUERY MUTATION SUBSCRIPTION FIELD FRAGMENT_DEFINITION FRAGMENT_SPREAD INLINE_FRAGMENT VARIABLE_DEFINITION
  SCHEMA SCALAR OBJECT FIELD_DEFINITION ARGUMENT_DEFINITION INTERFACE UNION ENUM ENUM_VALUE INPUT_OBJECT
      INPUT_FIELD_DEFINITION
}
"#;

/// The type of `STANDARD` whose fields may be selected from each type.
pub const EACH_TYPE: &str = "__Each";

/// The type of `STANDARD` whose fields may be selected where a query begins.
pub const QUERY_ROOT: &str = "__Root";
