// What the rules ask of definitions.
ghost use Rattle.std.specs.Prelude.{◌≡◌, ◌<◌, IfOk, length, map};
ghost use Rattle.directed_graph.specs.Graph.{IsClosed};
ghost use Rattle.validation_names.specs.Names.{AreFirstNumbers};
ghost use Rattle.validation_names.specs.Definitions.{as_defined, fragment_names};
ghost use Rattle.validation_names.specs.Mentions.{as_named};
ghost use Rattle.validation_rules.specs.Graphs.{IsSpreadGraph, numbers_of};
ghost use Rattle.validation_rules.specs.Parts.{as_parts, at, definitions as definitions_of};
ghost use Rattle.validation_rules.specs.Parts.{operations as operations_of, parts_of};

use std::alloc::{AllocError, Global};
use std::collections::BTreeMap;
use validation_names::{DefinitionKind, ExecutableDefinition, Mention, MentionKind, mentions};

/// An operation or a fragment with the names that it mentions.
#[derive(Drop)]
pub struct DefinitionParts<'t> {
    pub definition: ExecutableDefinition<'t>,
    /// The fragments that it spreads.
    pub spreads: Vec<Mention<'t>>,
    /// The variables that it declares.
    pub declared: Vec<Mention<'t>>,
    /// The variables that it uses.
    pub used: Vec<Mention<'t>>,
}

impl<'t> DefinitionParts<'t> {
    ghost use Rattle.std.specs.Prelude.{◌≡◌};
    ghost use Rattle.validation_names.specs.Definitions.{as_defined};
    ghost use Rattle.validation_rules.specs.Parts.{as_parts, is_anonymous, is_operation, parts_of};
    ghost use Rattle.std.specs.Prelude.{IfOk};

    // What is read of a definition.
    fn of(
        alloc: Global,
        definition: ExecutableDefinition<'t>,
    ) -> Result<DefinitionParts<'t>, AllocError>
        ensures { IfOk result (λ d. as_parts d ≡ parts_of (as_defined definition.entry)) }
    {
        let site = definition.site;
        let spreads = mentions(alloc, &site, MentionKind::Spread)?;
        let declared = mentions(alloc, &site, MentionKind::Declared)?;
        let used = mentions(alloc, &site, MentionKind::Used)?;
        Ok(DefinitionParts {
            definition,
            spreads,
            declared,
            used,
        })
    }

    /// Whether it is an operation.
    pub fn is_operation(&self) -> bool
        ensures { result ≡ is_operation (as_parts self.now) }
    {
        match self.definition.kind {
            DefinitionKind::Operation => true,
            DefinitionKind::Fragment => false,
        }
    }

    /// Whether it has no name.
    pub fn is_anonymous(&self) -> bool
        ensures { result ≡ is_anonymous (as_parts self.now) }
    {
        self.definition.name.is_none()
    }
}

/// The definitions with the names that they mention.
pub fn parts<'t>(
    alloc: Global,
    definitions: &[ExecutableDefinition<'t>],
) -> Result<Vec<DefinitionParts<'t>>, AllocError>
    ensures { IfOk result (λ ds. map as_parts ds.items ≡ map (λ d. parts_of (as_defined d)) definitions.now) }
{
    let mut parts = Vec::new(alloc);
    for definition in definitions {
        let read = DefinitionParts::of(alloc, *definition)?;
        parts.push(read)?;
    }
    Ok(parts)
}

/// The definition with a number.
pub fn part_at<'p, 't>(parts: &'p [DefinitionParts<'t>], number: usize) -> &'p DefinitionParts<'t>
    requires { number < length parts.now }
    ensures { as_parts result.now ≡ at (map as_parts parts.now) number }
{
    &parts[number]
}

/// The numbers of the operations.
pub fn operations<'t>(
    alloc: Global,
    parts: &[DefinitionParts<'t>],
) -> Result<Vec<usize>, AllocError>
    ensures { IfOk result (λ numbers. numbers.items ≡ operations_of (map as_parts parts.now)) }
{
    let mut numbers = Vec::new(alloc);
    for (number, definition) in parts.iter().enumerate() {
        if definition.is_operation() {
            numbers.push(number)?;
        }
    }
    Ok(numbers)
}

// The numbers of the fragments that are mentioned.
fn targets<'t>(
    alloc: Global,
    fragments: &BTreeMap<&'t str, usize>,
    spreads: &[Mention<'t>],
) -> Result<Vec<usize>, AllocError>
    ensures { IfOk result (λ row. row.items ≡ numbers_of fragments.now (map as_named spreads.now)) }
{
    let mut row = Vec::new(alloc);
    for spread in spreads {
        if let Some(number) = fragments.get(spread.name) {
            row.push(*number)?;
        }
    }
    Ok(row)
}

/// The graph of the spreads: for each definition the fragments that it spreads.
pub fn spread_graph<'t>(
    alloc: Global,
    parts: &[DefinitionParts<'t>],
    fragments: &BTreeMap<&'t str, usize>,
) -> Result<Vec<Vec<usize>>, AllocError>
    requires { AreFirstNumbers fragments.now (fragment_names (definitions_of (map as_parts parts.now))) }
    ensures graph { IfOk result (λ graph. IsSpreadGraph (map as_parts parts.now) graph.items) }
    ensures closed { IfOk result (λ graph. IsClosed graph.items) }
{
    let mut graph = Vec::new(alloc);
    for definition in parts {
        let row = targets(alloc, fragments, &definition.spreads)?;
        graph.push(row)?;
    }
    Ok(graph)
}
