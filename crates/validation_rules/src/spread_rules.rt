// Rules on fragments and their spreads.
ghost use Rattle.std.specs.Prelude.{◌≡◌, ◌<◌, IfSome, OnOk, false, length, map, slice_index_or};
ghost use Rattle.directed_graph.specs.Graph.{IsClosed};
ghost use Rattle.validation_names.specs.Definitions.{fragment_names};
ghost use Rattle.validation_names.specs.Names.{AreFirstNumbers};
ghost use Rattle.validation_rules.specs.Graphs.{IsSpreadGraph};
ghost use Rattle.validation_rules.specs.Parts.{as_parts, definitions, operations, reaches};
ghost use Rattle.validation_rules.specs.Broken.{on_cycles, through, undefined_spreads, unused_fragment_at};
ghost use Rattle.validation_rules.specs.Broken.{unused_fragments};
ghost use Rattle.validation_rules.specs.Violations.{Adds};

use crate::definition_parts::{DefinitionParts, part_at};
use crate::name_rules::add_unknown;
use crate::violations::{Rule, Violations};
use directed_graph::{reached, returns};
use std::alloc::{AllocError, Global};
use std::collections::BTreeMap;

/// Adds the spreads of fragments that are not defined.
pub fn add_undefined_spreads<'t>(
    violations: &mut Violations<'t>,
    parts: &[DefinitionParts<'t>],
    fragments: &BTreeMap<&'t str, usize>,
) -> Result<(), AllocError>
    requires fragments { AreFirstNumbers fragments.now (fragment_names (definitions (map as_parts parts.now))) }
    ensures { OnOk result (Adds (undefined_spreads (map as_parts parts.now)) violations.old violations.new) }
{
    for number in 0..parts.len() {
        if violations.is_full() {
            return Ok(());
        }
        add_unknown(
            violations,
            Rule::KnownFragmentNames,
            None,
            &part_at(parts, number).spreads,
            fragments,
        )?;
    }
    Ok(())
}

// Adds a definition if it is not marked as reached.
fn add_if_unused<'t>(
    violations: &mut Violations<'t>,
    parts: &[DefinitionParts<'t>],
    marks: &[bool],
    number: usize,
) -> Result<(), AllocError>
    requires number { number < length parts.now }
    requires as_many { length marks.now ≡ length parts.now }
    requires marks { slice_index_or marks.now number false
        ≡ reaches (map as_parts parts.now) (operations (map as_parts parts.now)) number }
    ensures { OnOk result (Adds (unused_fragment_at (map as_parts parts.now) number) violations.old violations.new) }
{
    if !marks[number] {
        let site = part_at(parts, number).definition.site;
        violations.add(Rule::NoUnusedFragments, site, None)?;
    }
    Ok(())
}

/// Adds the fragments that no operation reaches.
pub fn add_unused_fragments<'t>(
    alloc: Global,
    violations: &mut Violations<'t>,
    parts: &[DefinitionParts<'t>],
    graph: &[Vec<usize>],
    numbers: &[usize],
) -> Result<(), AllocError>
    requires graph { IsSpreadGraph (map as_parts parts.now) graph.now }
    requires closed { IsClosed graph.now }
    requires numbers { numbers.now ≡ operations (map as_parts parts.now) }
    ensures { OnOk result (Adds (unused_fragments (map as_parts parts.now)) violations.old violations.new) }
{
    let marks = reached(alloc, graph, numbers)?;
    for number in 0..parts.len() {
        if violations.is_full() {
            return Ok(());
        }
        add_if_unused(violations, parts, marks.as_slice(), number)?;
    }
    Ok(())
}

// Adds a definition if one that it spreads leads back to it: the other party.
fn add_if_on_cycle<'t>(
    violations: &mut Violations<'t>,
    parts: &[DefinitionParts<'t>],
    number: usize,
    other: Option<usize>,
) -> Result<(), AllocError>
    requires number { number < length parts.now }
    requires other { IfSome other (λ k. k < length parts.now) }
    ensures { OnOk result (Adds (through (map as_parts parts.now) number other) violations.old violations.new) }
{
    if let Some(other) = other {
        let site = part_at(parts, number).definition.site;
        let next = part_at(parts, other).definition.site;
        violations.add(Rule::NoFragmentCycles, site, Some(next))?;
    }
    Ok(())
}

/// Adds the fragments with a spread that leads back to them.
pub fn add_cycles<'t>(
    alloc: Global,
    violations: &mut Violations<'t>,
    parts: &[DefinitionParts<'t>],
    graph: &[Vec<usize>],
) -> Result<(), AllocError>
    requires graph { IsSpreadGraph (map as_parts parts.now) graph.now }
    requires closed { IsClosed graph.now }
    ensures { OnOk result (Adds (on_cycles (map as_parts parts.now)) violations.old violations.new) }
{
    let found = returns(alloc, graph)?;
    for (number, other) in found.iter().enumerate() {
        if violations.is_full() {
            return Ok(());
        }
        add_if_on_cycle(violations, parts, number, *other)?;
    }
    Ok(())
}
