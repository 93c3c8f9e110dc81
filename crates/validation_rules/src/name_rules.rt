// Rules on names that must be unique, or must be there.
ghost use Rattle.std.specs.Prelude.{◌≡◌, ◌==◌, ◌<◌, IfSome, OnOk, is_some, length, map, not, option_map};
ghost use Rattle.std.specs.List.{find};
ghost use Rattle.validation_names.specs.Names.{entry_of};
ghost use Rattle.validation_names.specs.Mentions.{as_named};
ghost use Rattle.validation_names.specs.Sites.{as_located};
ghost use Rattle.validation_rules.specs.Parts.{as_parts, operations};
ghost use Rattle.validation_rules.specs.Broken.{not_alone, not_alone_at, repeat_of, repeats, unknown, unknown_item};
ghost use Rattle.validation_rules.specs.Violations.{Adds};

use crate::definition_parts::{DefinitionParts, part_at};
use crate::violations::{Rule, Violations};
use std::alloc::{AllocError, Global};
use std::collections::BTreeMap;
use validation_names::{Mention, Site, enter, is_entered};

// Adds an item if one has its name that was entered earlier, by the numbers of the first items with each name. Enters
// its name if it is new.
fn add_if_repeated<'t>(
    violations: &mut Violations<'t>,
    rule: Rule,
    items: &[Mention<'t>],
    number: usize,
    first: Option<usize>,
) -> Result<(), AllocError>
    requires number { number < length items.now }
    requires first { IfSome first (λ k. k < number) }
    ensures { OnOk result (Adds (repeat_of rule (map as_named items.now) number first) violations.old violations.new) }
{
    if let Some(first) = first {
        violations.add(rule, items[number].site, Some(items[first].site))?;
    }
    Ok(())
}

/// Adds the items with the name of an earlier one.
pub fn add_repeats<'t>(
    alloc: Global,
    violations: &mut Violations<'t>,
    rule: Rule,
    items: &[Mention<'t>],
) -> Result<(), AllocError>
    ensures { OnOk result (Adds (repeats rule (map as_named items.now)) violations.old violations.new) }
{
    let mut numbers: BTreeMap<&'t str, usize> = BTreeMap::new(alloc);
    for (number, item) in items.iter().enumerate() {
        if violations.is_full() {
            return Ok(());
        }
        let first = enter(&mut numbers, item.name, number)?;
        add_if_repeated(violations, rule, items, number, first)?;
    }
    Ok(())
}

// Adds an item if its name is not entered.
fn add_if_unknown<'t, V>(
    violations: &mut Violations<'t>,
    rule: Rule,
    other: Option<Site<'t>>,
    item: &Mention<'t>,
    known: &BTreeMap<&'t str, V>,
) -> Result<(), AllocError>
    ensures { OnOk result (Adds
        (unknown_item rule (option_map as_located other.entry)
        (λ name. is_some (entry_of known.now name)) (as_named item.now))
        violations.old violations.new) }
{
    if !is_entered(known, item.name) {
        violations.add(rule, item.site, other)?;
    }
    Ok(())
}

/// Adds the items whose name is not entered.
pub fn add_unknown<'t, V>(
    violations: &mut Violations<'t>,
    rule: Rule,
    other: Option<Site<'t>>,
    items: &[Mention<'t>],
    known: &BTreeMap<&'t str, V>,
) -> Result<(), AllocError>
    ensures { OnOk result (Adds
        (unknown rule (option_map as_located other.entry) (λ name. is_some (entry_of known.now name))
        (map as_named items.now))
        violations.old violations.new) }
{
    for item in items {
        if violations.is_full() {
            return Ok(());
        }
        add_if_unknown(violations, rule, other, item, known)?;
    }
    Ok(())
}

// The first operation that is not this one.
fn other_operation(numbers: &[usize], number: usize) -> Option<usize>
    ensures { result ≡ find (λ k. not (k == number)) numbers.now }
{
    numbers.iter().copied().find(|k| *k != number)
}

// Adds an operation if it has no name and there is another one.
fn add_if_not_alone<'t>(
    violations: &mut Violations<'t>,
    parts: &[DefinitionParts<'t>],
    numbers: &[usize],
    number: usize,
) -> Result<(), AllocError>
    requires numbers { numbers.now ≡ operations (map as_parts parts.now) }
    requires number { number < length parts.now }
    ensures { OnOk result (Adds (not_alone_at (map as_parts parts.now) number) violations.old violations.new) }
{
    let operation = part_at(parts, number);
    if !operation.is_anonymous() {
        return Ok(());
    }
    if let Some(other) = other_operation(numbers, number) {
        let site = part_at(parts, other).definition.site;
        violations.add(
            Rule::LoneAnonymousOperation,
            operation.definition.site,
            Some(site),
        )?;
    }
    Ok(())
}

/// Adds the operations without a name beside which there are others.
pub fn add_anonymous<'t>(
    violations: &mut Violations<'t>,
    parts: &[DefinitionParts<'t>],
    numbers: &[usize],
) -> Result<(), AllocError>
    requires { numbers.now ≡ operations (map as_parts parts.now) }
    ensures { OnOk result (Adds (not_alone (map as_parts parts.now)) violations.old violations.new) }
{
    for number in numbers {
        if violations.is_full() {
            return Ok(());
        }
        add_if_not_alone(violations, parts, numbers, *number)?;
    }
    Ok(())
}
