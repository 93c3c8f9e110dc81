// The variables of operations, one operation after another.
ghost use Rattle.std.specs.Prelude.{◌≡◌, ℕ, ◌+◌, ◌<◌, ◌≤◌, IfOk, IfSome, None, OnOk, Option, length, map};
ghost use Rattle.std.specs.List.{All, flat_map, sum_by};
ghost use Rattle.std.specs.List.Sorted.{IsPermutation};
ghost use Rattle.directed_graph.specs.Graph.{IsClosed, row_of};
ghost use Rattle.validation_names.specs.Mentions.{as_named};
ghost use Rattle.validation_names.specs.Names.{Name};
ghost use Rattle.validation_rules.specs.Broken.{undefined_variables_in, variables_of};
ghost use Rattle.validation_rules.specs.Graphs.{IsSpreadGraph};
ghost use Rattle.validation_rules.specs.Parts.{as_parts, at, is_declared, operations as operations_of};
ghost use Rattle.validation_rules.specs.Parts.{reached as reached_by};
ghost use Rattle.validation_rules.specs.Violations.{Adds};
ghost use Rattle.variable_rules.specs.Steps.{EndsAt, are_used_up, before, capped, steps_of, use_steps_in};
ghost use Rattle.variable_rules.specs.UsedNames.{AddsNames, AreUsedNames, is_known, row_at};

use crate::reach::{edges, in_order, reached};
use crate::used_names::{has_unknown, names_among, row, used_names};
use std::alloc::{AllocError, Global};
use std::collections::BTreeMap;
use validation_names::{Mention, enter};
use validation_rules::{DefinitionParts, Rule, Violations, add_unknown, part_at};

// Enters the names of the items.
fn enter_names<'t>(
    known: &mut BTreeMap<&'t str, usize>,
    items: &[Mention<'t>],
) -> Result<(), AllocError>
    ensures { OnOk result (AddsNames known.old known.new (map as_named items.now)) }
{
    for (number, item) in items.iter().enumerate() {
        enter(known, item.name, number)?;
    }
    Ok(())
}

// The names of the variables that an operation declares.
fn declared_names<'t>(
    alloc: Global,
    parts: &[DefinitionParts<'t>],
    operation: usize,
) -> Result<BTreeMap<&'t str, usize>, AllocError>
    requires { operation < length parts.now }
    ensures { IfOk result (λ known. (name : Name)
        → is_known known name ≡ is_declared (map as_parts parts.now) operation name) }
{
    let mut known: BTreeMap<&'t str, usize> = BTreeMap::new(alloc);
    enter_names(&mut known, &part_at(parts, operation).declared)?;
    Ok(known)
}

// Adds the uses of variables that an operation does not declare, in some definitions, and answers how many uses it
// looked at.
fn add_undefined<'t>(
    violations: &mut Violations<'t>,
    parts: &[DefinitionParts<'t>],
    names: &[Vec<Mention<'t>>],
    operation: usize,
    numbers: &[usize],
    declared: &BTreeMap<&'t str, usize>,
) -> Result<usize, AllocError>
    requires operation { operation < length parts.now }
    requires names { AreUsedNames (map as_parts parts.now) names.now }
    requires numbers { All (λ number. number < length parts.now) numbers.now }
    requires declared { (name : Name)
        → is_known declared.now name ≡ is_declared (map as_parts parts.now) operation name }
    ensures adds { IfOk result
        (λ _. Adds (flat_map (undefined_variables_in (map as_parts parts.now) operation) numbers.now)
        violations.old violations.new) }
    ensures steps { IfOk result
        (λ steps. steps ≡ capped (sum_by (use_steps_in (map as_parts parts.now) operation) numbers.now)) }
{
    let other = Some(part_at(parts, operation).definition.site);
    let mut steps: usize = 0;
    for number in numbers {
        if has_unknown(row(names, *number), declared) {
            let used: &[Mention<'t>] = &part_at(parts, *number).used;
            add_unknown(
                violations,
                Rule::NoUndefinedVariables,
                other,
                used,
                declared,
            )?;
            steps = steps.saturating_add(used.len());
        }
    }
    Ok(steps)
}

// The steps of a walk over some definitions: one for each of them, and for each of their spreads and names.
fn walk_steps<'t>(names: &[Vec<Mention<'t>>], graph: &[Vec<usize>], numbers: &[usize]) -> usize
    requires inside { All (λ number. number < length names.now) numbers.now }
    requires as_many { length graph.now ≡ length names.now }
    ensures { result ≡ capped (sum_by
        (λ number. length (row_at names.now number) + length (row_of graph.now number) + 1) numbers.now) }
{
    let mut steps: usize = 0;
    for number in numbers {
        let more = row(names, *number)
            .len()
            .saturating_add(edges(graph, *number));
        steps = steps.saturating_add(more).saturating_add(1);
    }
    steps
}

// Adds what breaks the rules on the variables of an operation, and answers how many steps that took. The definitions
// that it reaches are put in order only where one uses a variable that it does not declare.
fn add_operation<'t>(
    alloc: Global,
    violations: &mut Violations<'t>,
    parts: &[DefinitionParts<'t>],
    names: &[Vec<Mention<'t>>],
    graph: &[Vec<usize>],
    operation: usize,
    numbers: Vec<usize>,
) -> Result<usize, AllocError>
    requires operation { operation < length parts.now }
    requires names { AreUsedNames (map as_parts parts.now) names.now }
    requires graph { IsSpreadGraph (map as_parts parts.now) graph.now }
    requires numbers { IsPermutation numbers.items (reached_by (map as_parts parts.now) operation) }
    ensures adds { IfOk result
        (λ _. Adds (variables_of (map as_parts parts.now) operation) violations.old violations.new) }
    ensures steps { IfOk result (λ steps. steps ≡ capped (steps_of (map as_parts parts.now) operation)) }
{
    let used = names_among(alloc, names, &numbers)?;
    let party = Some(part_at(parts, operation).definition.site);
    let variables = &part_at(parts, operation).declared;
    add_unknown(
        violations,
        Rule::NoUnusedVariables,
        party,
        variables,
        &used.known,
    )?;
    let declared = declared_names(alloc, parts, operation)?;
    let steps = walk_steps(names, graph, &numbers);
    if !has_unknown(&used.items, &declared) {
        return Ok(steps);
    }
    let sorted = in_order(numbers);
    let uses = add_undefined(violations, parts, names, operation, &sorted, &declared)?;
    Ok(steps.saturating_add(uses))
}

// Whether all steps are taken, of which there may be more than `usize` holds.
fn are_used_up(steps: Option<usize>, taken: usize) -> bool
    ensures { (all : ℕ) → taken ≡ capped all → result ≡ are_used_up steps all }
{
    match steps {
        Some(steps) => steps <= taken,
        None => false,
    }
}

// Adds what breaks the rules on the variables of operations. If the steps are used up before, it answers the number of
// the first operation that is left.
fn add_operations<'t>(
    alloc: Global,
    violations: &mut Violations<'t>,
    parts: &[DefinitionParts<'t>],
    names: &[Vec<Mention<'t>>],
    graph: &[Vec<usize>],
    operations: &[usize],
    steps: Option<usize>,
) -> Result<Option<usize>, AllocError>
    requires names { AreUsedNames (map as_parts parts.now) names.now }
    requires graph { IsSpreadGraph (map as_parts parts.now) graph.now }
    requires closed { IsClosed graph.now }
    requires operations { All (λ number. number < length parts.now) operations.now }
    ensures adds { IfOk result (λ _. (end : Option ℕ) → EndsAt steps (map as_parts parts.now) operations.now end
        → Adds (flat_map (variables_of (map as_parts parts.now)) (before end operations.now))
        violations.old violations.new) }
    ensures ended { IfOk result (λ ended_at. length violations.new.list.items < violations.new.most
        → EndsAt steps (map as_parts parts.now) operations.now ended_at) }
    ensures full { IfOk result
        (λ ended_at. violations.new.most ≤ length violations.new.list.items → ended_at ≡ None) }
    ensures inside { IfOk result (λ ended_at. IfSome ended_at (λ number. number < length operations.now)) }
    ensures unlimited { IfOk result (λ ended_at. steps ≡ None → ended_at ≡ None) }
{
    let mut marks = vec![in alloc; false; graph.len()]?;
    let mut taken: usize = 0;
    for (number, operation) in operations.iter().enumerate() {
        if violations.is_full() {
            return Ok(None);
        }
        if are_used_up(steps, taken) {
            return Ok(Some(number));
        }
        let numbers = reached(alloc, graph, *operation, &mut marks)?;
        let more = add_operation(alloc, violations, parts, names, graph, *operation, numbers)?;
        taken = taken.saturating_add(more);
    }
    Ok(None)
}

/// Adds the variables that operations declare and do not use, and the uses of variables that they do not declare,
/// directly or through fragments (GraphQL October 2021, sections 5.8.4 and 5.8.3). The other party of each is the
/// operation.
///
/// `graph` is `spread_graph` of the definitions, and `operations` their `operations`. An operation takes a step for
/// each definition that it reaches, for each spread in these, and for each name of variables that one of these uses. A
/// definition that uses a variable which the operation does not declare takes a step for each use, too. When `steps`
/// are used up, no further operation is judged, and the answer is which one is next, as its number among the
/// operations: all before it were judged. Without a number of steps all are judged, and the answer is `None`. It is
/// `None`, too, if the list is full.
pub fn add_variables<'t>(
    alloc: Global,
    violations: &mut Violations<'t>,
    parts: &[DefinitionParts<'t>],
    graph: &[Vec<usize>],
    operations: &[usize],
    steps: Option<usize>,
) -> Result<Option<usize>, AllocError>
    requires graph { IsSpreadGraph (map as_parts parts.now) graph.now }
    requires closed { IsClosed graph.now }
    requires operations { operations.now ≡ operations_of (map as_parts parts.now) }
    ensures adds { IfOk result (λ _. (end : Option ℕ) → EndsAt steps (map as_parts parts.now) operations.now end
        → Adds (flat_map (variables_of (map as_parts parts.now)) (before end operations.now))
        violations.old violations.new) }
    ensures ended { IfOk result (λ ended_at. length violations.new.list.items < violations.new.most
        → EndsAt steps (map as_parts parts.now) operations.now ended_at) }
    ensures full { IfOk result
        (λ ended_at. violations.new.most ≤ length violations.new.list.items → ended_at ≡ None) }
    ensures inside { IfOk result (λ ended_at. IfSome ended_at (λ number. number < length operations.now)) }
    ensures unlimited { IfOk result (λ ended_at. steps ≡ None → ended_at ≡ None) }
{
    let names = used_names(alloc, parts)?;
    let ended_at = add_operations(alloc, violations, parts, &names, graph, operations, steps)?;
    Ok(ended_at)
}
