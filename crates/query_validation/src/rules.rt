// The rules, each as a test on one node.
ghost use Rattle.std.specs.Prelude.{◌≡◌, ◌++◌, IfOk, OnOk, Some, map, option_map};
ghost use Rattle.std.specs.List.{filter};
ghost use Rattle.apollo_tree.specs.References.{node_place};
ghost use Rattle.validation_names.specs.Sites.{as_located};
ghost use Rattle.type_system.specs.Schemas.{as_with_arguments, types};
ghost use Rattle.type_system.specs.Tables.{AreFirst};
ghost use Rattle.query_validation.specs.Breaches.{as_abouts, as_breach, breaches_about, breaches_of, lacking_breaches};
ghost use Rattle.query_validation.specs.Contexts.{as_context, as_definition};
ghost use Rattle.query_validation.specs.Rules.{given, is_lacking, is_not_composite, is_not_for, is_unknown_type};
ghost use Rattle.query_validation.specs.Rules.{is_repeat, is_wrong_directive, lacks_argument, location_at, missing};
ghost use Rattle.query_validation.specs.Rules.{missing_arguments, once, site_of, unknown_arguments, unknown_fields};
ghost use Rattle.query_validation.specs.Rules.{unknown_types, wrong_conditions, wrong_directives, wrong_leaves};
ghost use Rattle.query_validation.specs.Rules.{wrong_variables};
ghost use Rattle.query_validation.specs.declared.rules.QueryRule.TheVariants.{ProvidedRequiredArguments};

use crate::contexts::{Context, is_composite, is_leaf, type_definition, type_named_in, type_of};
use crate::parts::{given_by_name, has_selections, is_condition, is_variable};
use crate::stack::Contexts;
use crate::texts::owner;
use crate::values::add_wrong_values;
use crate::violations::QueryViolation;
use apollo_cst_core::is_one_of;
use apollo_tree::{SyntaxKind, SyntaxNode};
use std::alloc::{AllocError, Global};
use std::collections::BTreeMap;
use type_system::{
    DefinitionWithArguments, DirectiveLocation, Schema, TYPE_REFERENCES, location_of, may_be_at,
    named_in,
};
use validation_names::{Site, name};

/// A rule that needs the types of a schema, under the name that graphql-js gives it, with its sections (GraphQL
/// October 2021).
#[derive(Clone, Copy)]
pub enum QueryRule {
    /// 5.3.1
    FieldsOnCorrectType,
    /// 5.3.3
    ScalarLeafs,
    /// 5.4.1
    KnownArgumentNames,
    /// 5.4.2.1
    ProvidedRequiredArguments,
    /// 5.6.1, 5.6.2 and 5.6.4
    ValuesOfCorrectType,
    /// 5.5.1.2, and 5.8.2 for the types of variables
    KnownTypeNames,
    /// 5.5.1.3
    FragmentsOnCompositeTypes,
    /// 5.7.1 and 5.7.2
    KnownDirectives,
    /// 5.7.3
    UniqueDirectivesPerLocation,
    /// 5.8.2
    VariablesAreInputTypes,
}

/// All of them, in the order in which a node is judged by them.
pub const QUERY_RULES: [QueryRule; 10] = [
    QueryRule::FieldsOnCorrectType,
    QueryRule::ScalarLeafs,
    QueryRule::KnownArgumentNames,
    QueryRule::ProvidedRequiredArguments,
    QueryRule::ValuesOfCorrectType,
    QueryRule::KnownTypeNames,
    QueryRule::FragmentsOnCompositeTypes,
    QueryRule::KnownDirectives,
    QueryRule::UniqueDirectivesPerLocation,
    QueryRule::VariablesAreInputTypes,
];

// What has arguments, in an operation or a fragment.
const WITH_ARGUMENTS: [SyntaxKind; 2] = [SyntaxKind::FIELD, SyntaxKind::DIRECTIVE];

impl QueryRule {
    ghost use Rattle.std.specs.Prelude.{◌≡◌};
    ghost use Rattle.query_validation.specs.RuleNames.{rule_name};

    /// Its name, without the `Rule` that graphql-js adds.
    pub fn name(self) -> &'static str
        ensures { result.now ≡ rule_name self }
    {
        match self {
            QueryRule::FieldsOnCorrectType => "FieldsOnCorrectType",
            QueryRule::ScalarLeafs => "ScalarLeafs",
            QueryRule::KnownArgumentNames => "KnownArgumentNames",
            QueryRule::ProvidedRequiredArguments => "ProvidedRequiredArguments",
            QueryRule::ValuesOfCorrectType => "ValuesOfCorrectType",
            QueryRule::KnownTypeNames => "KnownTypeNames",
            QueryRule::FragmentsOnCompositeTypes => "FragmentsOnCompositeTypes",
            QueryRule::KnownDirectives => "KnownDirectives",
            QueryRule::UniqueDirectivesPerLocation => "UniqueDirectivesPerLocation",
            QueryRule::VariablesAreInputTypes => "VariablesAreInputTypes",
        }
    }
}

// Where a definition is.
pub(crate) fn site_of<'t>(definition: Option<&DefinitionWithArguments<'t>>) -> Option<Site<'t>>
    ensures { option_map as_located result ≡ site_of (as_definition definition.entry) }
{
    Some(definition?.definition.site)
}

fn unknown_field<'t>(
    schema: &Schema<'t>,
    around: &Context<'_, 't>,
    inside: &Context<'_, 't>,
    node: &SyntaxNode<'_>,
) -> Option<Option<Site<'t>>>
    ensures { as_abouts result
        ≡ unknown_fields (types schema.now) (as_context around.now) (as_context inside.now) (node_place node.now) }
{
    if node.kind().is(SyntaxKind::FIELD)
        && around.parent.is_some()
        && name(node).is_some()
        && inside.definition.is_none()
    {
        return Some(type_definition(schema, around.parent));
    }
    None
}

fn wrong_leaf<'t>(
    schema: &Schema<'t>,
    around: &Context<'_, 't>,
    inside: &Context<'_, 't>,
    node: &SyntaxNode<'_>,
) -> Option<Option<Site<'t>>>
    ensures { as_abouts result
        ≡ wrong_leaves (types schema.now) (as_context around.now) (as_context inside.now) (node_place node.now) }
{
    let kind = node.kind();
    if kind.is(SyntaxKind::FIELD) {
        if is_composite(schema, type_of(inside.definition)) && !has_selections(node) {
            return Some(site_of(inside.definition));
        }
        return None;
    }
    if kind.is(SyntaxKind::SELECTION_SET) && is_leaf(schema, type_of(around.definition)) {
        return Some(site_of(around.definition));
    }
    None
}

pub(crate) fn lacks_argument(
    definition: Option<&DefinitionWithArguments<'_>>,
    name: Option<&str>,
) -> bool
    ensures { result ≡ lacks_argument (as_definition definition.entry) (option_map (λ n. n.now) name.entry) }
{
    let Some(definition) = definition else {
        return false;
    };
    match name {
        Some(name) => definition.argument(name).is_none(),
        None => false,
    }
}

fn unknown_argument<'t>(around: &Context<'_, 't>, node: &SyntaxNode<'_>) -> Option<Option<Site<'t>>>
    ensures { as_abouts result ≡ unknown_arguments (as_context around.now) (node_place node.now) }
{
    if node.kind().is(SyntaxKind::ARGUMENT) && lacks_argument(around.definition, name(node)) {
        return Some(site_of(around.definition));
    }
    None
}

fn is_unknown_type(schema: &Schema<'_>, name: Option<&str>) -> bool
    ensures { result ≡ is_unknown_type (types schema.now) (option_map (λ n. n.now) name.entry) }
{
    match name {
        Some(name) => schema.type_named(name).is_none(),
        None => false,
    }
}

fn unknown_type<'t>(schema: &Schema<'t>, node: &SyntaxNode<'_>) -> Option<Option<Site<'t>>>
    ensures { as_abouts result ≡ unknown_types (types schema.now) (node_place node.now) }
{
    if node.kind().is(SyntaxKind::NAMED_TYPE) && is_unknown_type(schema, name(node)) {
        return Some(None);
    }
    None
}

fn is_not_composite(schema: &Schema<'_>, number: Option<usize>) -> bool
    ensures { result ≡ is_not_composite (types schema.now) number }
{
    type_definition(schema, number).is_some() && !is_composite(schema, number)
}

fn wrong_condition<'t>(schema: &Schema<'t>, node: &SyntaxNode<'_>) -> Option<Option<Site<'t>>>
    ensures { as_abouts result ≡ wrong_conditions (types schema.now) (node_place node.now) }
{
    if node.kind().is(SyntaxKind::NAMED_TYPE) && is_condition(node.parent()) {
        let number = type_named_in(schema, name(node));
        if is_not_composite(schema, number) {
            return Some(type_definition(schema, number));
        }
    }
    None
}

// The location of a directive.
pub(crate) fn location_at(node: &SyntaxNode<'_>) -> Option<DirectiveLocation>
    ensures { result ≡ location_at (node_place node.now) }
{
    location_of(&owner(node)?)
}

fn is_not_for(location: Option<DirectiveLocation>, definition: &DefinitionWithArguments<'_>) -> bool
    ensures { result ≡ is_not_for location (as_with_arguments definition.now) }
{
    match location {
        Some(location) => !may_be_at(&definition.definition.site.node, location),
        None => false,
    }
}

fn is_wrong_directive(
    definition: Option<&DefinitionWithArguments<'_>>,
    node: &SyntaxNode<'_>,
) -> bool
    ensures { result ≡ is_wrong_directive (as_definition definition.entry) (node_place node.now) }
{
    match definition {
        Some(definition) => is_not_for(location_at(node), definition),
        None => name(node).is_some(),
    }
}

fn wrong_directive<'t>(inside: &Context<'_, 't>, node: &SyntaxNode<'_>) -> Option<Option<Site<'t>>>
    ensures { as_abouts result ≡ wrong_directives (as_context inside.now) (node_place node.now) }
{
    if node.kind().is(SyntaxKind::DIRECTIVE) && is_wrong_directive(inside.definition, node) {
        return Some(site_of(inside.definition));
    }
    None
}

fn repeated_directive<'t>(inside: &Context<'_, 't>, repeats: bool) -> Option<Option<Site<'t>>>
    ensures { as_abouts result ≡ once repeats (site_of (as_context inside.now).definition) }
{
    if repeats {
        return Some(site_of(inside.definition));
    }
    None
}

fn wrong_variable<'t>(schema: &Schema<'t>, node: &SyntaxNode<'_>) -> Option<Option<Site<'t>>>
    ensures { as_abouts result ≡ wrong_variables (types schema.now) (node_place node.now) }
{
    if is_one_of(node.kind(), &TYPE_REFERENCES) && is_variable(node.parent()) {
        let number = type_named_in(schema, named_in(node));
        if is_composite(schema, number) {
            return Some(type_definition(schema, number));
        }
    }
    None
}

// Whether something that has to be given is lacking.
fn is_lacking<'d>(
    entries: &BTreeMap<&'d str, Site<'d>>,
    site: &Site<'d>,
    required: &Site<'_>,
) -> bool
    requires { AreFirst entries.now (given (as_located site.now)) }
    ensures { result ≡ is_lacking (given (as_located site.now)) (as_located required.now) }
{
    match name(&required.node) {
        Some(name) => !entries.contains_key(name),
        None => true,
    }
}

// Adds a breach of a rule, if there is one.
pub(crate) fn add<'d, 't>(
    found: &mut Vec<QueryViolation<'d, 't>>,
    rule: QueryRule,
    site: &Site<'d>,
    broken: Option<Option<Site<'t>>>,
) -> Result<(), AllocError>
    ensures { OnOk result (map as_breach found.new.items
        ≡ map as_breach found.old.items ++ breaches_about rule (as_located site.now) (as_abouts broken.entry)) }
{
    if let Some(definition) = broken {
        let site = *site;
        found.push(QueryViolation {
            rule,
            site,
            definition,
        })?;
    }
    Ok(())
}

// Adds what is lacking.
fn add_lacking<'d, 't>(
    found: &mut Vec<QueryViolation<'d, 't>>,
    rule: QueryRule,
    site: &Site<'d>,
    entries: &BTreeMap<&'d str, Site<'d>>,
    required: &[Site<'t>],
) -> Result<(), AllocError>
    requires { AreFirst entries.now (given (as_located site.now)) }
    ensures { OnOk result (map as_breach found.new.items
        ≡ map as_breach found.old.items
        ++ lacking_breaches rule (as_located site.now) (map as_located required.now)) }
{
    for required in required {
        if is_lacking(entries, site, required) {
            let definition = Some(*required);
            add(found, rule, site, Some(definition))?;
        }
    }
    Ok(())
}

// Adds what a field, a directive or an input object lacks.
pub(crate) fn add_missing<'d, 't>(
    alloc: Global,
    found: &mut Vec<QueryViolation<'d, 't>>,
    rule: QueryRule,
    inside: &Context<'_, 't>,
    site: &Site<'d>,
) -> Result<(), AllocError>
    ensures { OnOk result (map as_breach found.new.items
        ≡ map as_breach found.old.items
        ++ breaches_about rule (as_located site.now) (missing (as_context inside.now) (as_located site.now))) }
{
    let Some(definition) = inside.definition else {
        return Ok(());
    };
    let required = definition.required();
    // most definitions have none, and then there is nothing to look up
    if required.is_empty() {
        return Ok(());
    }
    let entries = given_by_name(alloc, site)?;
    add_lacking(found, rule, site, &entries, required)
}

// Adds each argument that a field or a directive lacks.
fn add_missing_arguments<'d, 't>(
    alloc: Global,
    found: &mut Vec<QueryViolation<'d, 't>>,
    inside: &Context<'_, 't>,
    site: &Site<'d>,
) -> Result<(), AllocError>
    ensures { OnOk result (map as_breach found.new.items
        ≡ map as_breach found.old.items
        ++ breaches_about ProvidedRequiredArguments (as_located site.now)
        (missing_arguments (as_context inside.now) (as_located site.now))) }
{
    if !is_one_of(site.node.kind(), &WITH_ARGUMENTS) {
        return Ok(());
    }
    add_missing(
        alloc,
        found,
        QueryRule::ProvidedRequiredArguments,
        inside,
        site,
    )
}

// Adds what a node breaks of a rule, by the contexts around it and inside it, and whether it is a repeated directive.
pub(crate) fn judge_rule<'d, 't>(
    alloc: Global,
    schema: &Schema<'t>,
    rule: QueryRule,
    contexts: &Contexts<'_, 't>,
    repeats: bool,
    site: &Site<'d>,
    found: &mut Vec<QueryViolation<'d, 't>>,
) -> Result<(), AllocError>
    requires { repeats ≡ is_repeat (as_context contexts.now.inside) (as_located site.now) }
    ensures { OnOk result (map as_breach found.new.items
        ≡ map as_breach found.old.items
        ++ breaches_of (types schema.now) rule (as_context contexts.now.around) (as_context contexts.now.inside)
        (as_located site.now)) }
{
    let (around, inside) = (&contexts.around, &contexts.inside);
    let node = &site.node;
    let broken = match rule {
        QueryRule::FieldsOnCorrectType => unknown_field(schema, around, inside, node),
        QueryRule::ScalarLeafs => wrong_leaf(schema, around, inside, node),
        QueryRule::KnownArgumentNames => unknown_argument(around, node),
        QueryRule::ProvidedRequiredArguments => {
            return add_missing_arguments(alloc, found, inside, site);
        }
        QueryRule::ValuesOfCorrectType => {
            return add_wrong_values(alloc, schema, around, inside, site, found);
        }
        QueryRule::KnownTypeNames => unknown_type(schema, node),
        QueryRule::FragmentsOnCompositeTypes => wrong_condition(schema, node),
        QueryRule::KnownDirectives => wrong_directive(inside, node),
        QueryRule::UniqueDirectivesPerLocation => repeated_directive(inside, repeats),
        QueryRule::VariablesAreInputTypes => wrong_variable(schema, node),
    };
    add(found, rule, site, broken)
}
