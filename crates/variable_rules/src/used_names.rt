// The names of variables that each definition uses, read once.
ghost use Rattle.std.specs.Prelude.{◌≡◌, ◌<◌, IfOk, List, OnOk, ◌++◌, length, map, not};
ghost use Rattle.std.specs.List.{All, flat_map, list_any};
ghost use Rattle.validation_names.specs.Mentions.{Named, as_named};
ghost use Rattle.validation_rules.specs.Parts.{as_parts};
ghost use Rattle.variable_rules.specs.UsedNames.{AreFirsts, AreUsedNames, firsts_of, is_known, row_at};

use std::alloc::{AllocError, Global};
use std::collections::BTreeMap;
use validation_names::{Mention, enter, is_entered};
use validation_rules::DefinitionParts;

// Enters the names of the items, and adds each item whose name was not entered.
fn enter_firsts<'t>(
    known: &mut BTreeMap<&'t str, usize>,
    firsts: &mut Vec<Mention<'t>>,
    items: &[Mention<'t>],
) -> Result<(), AllocError>
    ensures { OnOk result ((before : List Named) → AreFirsts known.old (map as_named firsts.old.items) before
        → AreFirsts known.new (map as_named firsts.new.items) (before ++ map as_named items.now)) }
{
    for item in items {
        let number = firsts.len();
        if enter(known, item.name, number)?.is_none() {
            firsts.push(*item)?;
        }
    }
    Ok(())
}

// The items with a name that no earlier one has.
fn first_of_each_name<'t>(
    alloc: Global,
    items: &[Mention<'t>],
) -> Result<Vec<Mention<'t>>, AllocError>
    ensures { IfOk result (λ firsts. map as_named firsts.items ≡ firsts_of (map as_named items.now)) }
{
    let mut known: BTreeMap<&'t str, usize> = BTreeMap::new(alloc);
    let mut firsts = Vec::new(alloc);
    enter_firsts(&mut known, &mut firsts, items)?;
    Ok(firsts)
}

// For each definition the first use of each name.
pub(crate) fn used_names<'t>(
    alloc: Global,
    parts: &[DefinitionParts<'t>],
) -> Result<Vec<Vec<Mention<'t>>>, AllocError>
    ensures { IfOk result (λ rows. AreUsedNames (map as_parts parts.now) rows.items) }
{
    let mut rows = Vec::new(alloc);
    for definition in parts {
        let row = first_of_each_name(alloc, &definition.used)?;
        rows.push(row)?;
    }
    Ok(rows)
}

// The row of a definition.
pub(crate) fn row<'n, 't>(names: &'n [Vec<Mention<'t>>], number: usize) -> &'n [Mention<'t>]
    requires { number < length names.now }
    ensures { map as_named result.now ≡ row_at names.now number }
{
    &names[number]
}

// Whether the name of one of the items is not entered.
pub(crate) fn has_unknown<'t>(items: &[Mention<'t>], known: &BTreeMap<&'t str, usize>) -> bool
    ensures { result ≡ list_any (λ (i : Named). not (is_known known.now i.name)) (map as_named items.now) }
{
    for item in items {
        if !is_entered(known, item.name) {
            return true;
        }
    }
    false
}

// Names that are entered, and for each an item that has it.
#[derive(Drop)]
pub(crate) struct NameSet<'t> {
    pub(crate) known: BTreeMap<&'t str, usize>,
    pub(crate) items: Vec<Mention<'t>>,
}

// The names that some definitions use.
pub(crate) fn names_among<'t>(
    alloc: Global,
    names: &[Vec<Mention<'t>>],
    numbers: &[usize],
) -> Result<NameSet<'t>, AllocError>
    requires { All (λ number. number < length names.now) numbers.now }
    ensures { IfOk result (λ set. AreFirsts set.known (map as_named set.items.items)
        (flat_map (row_at names.now) numbers.now)) }
{
    let mut known: BTreeMap<&'t str, usize> = BTreeMap::new(alloc);
    let mut items = Vec::new(alloc);
    for number in numbers {
        enter_firsts(&mut known, &mut items, row(names, *number))?;
    }
    Ok(NameSet { known, items })
}
