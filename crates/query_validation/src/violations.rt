// All rules at all nodes of operations and fragments.
ghost use Rattle.std.specs.Prelude.{◌≡◌, ◌++◌, ◌<◌, ◌↔◌, [], IfOk, OnOk, map, take};
ghost use Rattle.apollo_tree.specs.References.{node_place};
ghost use Rattle.validation_names.specs.Sites.{as_located};
ghost use Rattle.type_system.specs.Schemas.{types};
ghost use Rattle.query_validation.specs.Breaches.{IsValidAgainst, as_breach, breaches, breaches_in};
ghost use Rattle.query_validation.specs.Breaches.{definition_breaches};
ghost use Rattle.query_validation.specs.Contexts.{as_context};
ghost use Rattle.query_validation.specs.Listed.{Lists};
ghost use Rattle.query_validation.specs.Rules.{is_repeat};

use crate::repeats::{empty_table, is_repeat};
use crate::rules::{QUERY_RULES, QueryRule, judge_rule};
use crate::stack::{Contexts, Level, contexts_of};
use apollo_cst_core::is_one_of;
use apollo_tree::{SyntaxKind, SyntaxNode};
use std::alloc::{AllocError, Global};
use type_system::{Schema, all_definitions};
use validation_names::Site;

/// A place at which an operation or a fragment breaks a rule. It refers into the trees of the documents (`'d`) and of
/// the schema (`'t`), which may live longer.
#[derive(Clone, Copy)]
pub struct QueryViolation<'d, 't> {
    pub rule: QueryRule,
    /// What breaks the rule.
    pub site: Site<'d>,
    /// The definition that it is about: of a type, a field, a directive or an argument. Its document is one of those
    /// that the schema was read from.
    pub definition: Option<Site<'t>>,
}

// The definitions that are judged (section 2.2, *ExecutableDefinition*).
pub(crate) const EXECUTABLES: [SyntaxKind; 2] = [
    SyntaxKind::OPERATION_DEFINITION,
    SyntaxKind::FRAGMENT_DEFINITION,
];

// Adds what a node breaks.
fn judge_node<'d, 't>(
    alloc: Global,
    schema: &Schema<'t>,
    contexts: &Contexts<'_, 't>,
    repeats: bool,
    site: &Site<'d>,
    found: &mut Vec<QueryViolation<'d, 't>>,
) -> Result<(), AllocError>
    requires { repeats ≡ is_repeat (as_context contexts.now.inside) (as_located site.now) }
    ensures { OnOk result (map as_breach found.new.items
        ≡ map as_breach found.old.items
        ++ breaches_in (types schema.now) (as_context contexts.now.around) (as_context contexts.now.inside)
        (as_located site.now)) }
{
    for rule in &QUERY_RULES {
        judge_rule(alloc, schema, *rule, contexts, repeats, site, found)?;
    }
    Ok(())
}

// Adds what a definition breaks, until the list has as many as are wanted.
fn judge_definition<'s, 'd: 's, 't>(
    alloc: Global,
    schema: &'s Schema<'t>,
    definition: &Site<'d>,
    most: usize,
    found: &mut Vec<QueryViolation<'d, 't>>,
) -> Result<(), AllocError>
    ensures { OnOk result (Lists most (definition_breaches (types schema.now) (as_located definition.now))
        (map as_breach found.old.items) (map as_breach found.new.items)) }
{
    let document = definition.document;
    let mut stack: Vec<Level<'s, 't>> = Vec::new(alloc);
    let mut table = empty_table(alloc);
    for node in definition.node.descendants() {
        if most <= found.len() {
            return Ok(());
        }
        let contexts = contexts_of(alloc, schema, &mut stack, &node)?;
        let site = Site { document, node };
        let repeats = is_repeat(alloc, &mut table, &contexts.inside, &site)?;
        judge_node(alloc, schema, &contexts, repeats, &site, found)?;
    }
    Ok(())
}

/// The places at which operations and fragments of some documents break a rule that needs the types of a schema, by the
/// roots of their trees: the first of them, no more than a number, in the order of the text. There are none exactly
/// if the documents keep all these rules.
///
/// The documents are those with operations and fragments, and not those that the schema was read from. Definitions of
/// the type system in them are not judged. It fails only where memory is refused.
pub fn validate<'d, 't>(
    alloc: Global,
    schema: &Schema<'t>,
    documents: &[SyntaxNode<'d>],
    most: usize,
) -> Result<Vec<QueryViolation<'d, 't>>, AllocError>
    ensures exact { IfOk result (λ found.
        map as_breach found.items ≡ take most (breaches (types schema.now) (map node_place documents.now))) }
    ensures valid { IfOk result (λ found. 0 < most
        → ((found.items ≡ []) ↔ IsValidAgainst (types schema.now) (map node_place documents.now))) }
{
    let definitions = all_definitions(alloc, documents)?;
    let mut found = Vec::new(alloc);
    for definition in &definitions {
        if is_one_of(definition.node.kind(), &EXECUTABLES) {
            judge_definition(alloc, &*schema, definition, most, &mut found)?;
        }
    }
    found.truncate(most);
    Ok(found)
}
