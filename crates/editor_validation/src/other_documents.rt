// Broken rules on fragments that other documents mend.
ghost use Rattle.std.specs.Prelude.{◌≡◌, ◌||◌, not, IfOk, OnOk, is_some, map, string_bytes};
ghost use Rattle.std.specs.List.{filter};
ghost use Rattle.validation_names.specs.Names.{Name, entry_of};
ghost use Rattle.validation_rules.specs.Violations.{as_breach};
ghost use Rattle.editor_validation.specs.Fragments.{as_fragments};
ghost use Rattle.editor_validation.specs.Mending.{define, has_name, is_mended, mends, spread};

use crate::fragments::FragmentNames;
use document_validation::{Rule, Violation};
use std::alloc::{AllocError, Global};
use std::collections::BTreeMap;
use validation_names::{enter, is_entered, name_of_fragment};

// Enters names.
fn enter_all<'n>(entries: &mut BTreeMap<&'n str, ()>, names: &'n [String]) -> Result<(), AllocError>
    ensures { OnOk result ((name : Name) → is_some (entry_of entries.new name)
        ≡ (is_some (entry_of entries.old name) || has_name (map string_bytes names.now) name)) }
{
    for name in names {
        enter(entries, name.as_str(), ())?;
    }
    Ok(())
}

// The names of the fragments that documents define.
fn defined_names<'n>(
    alloc: Global,
    documents: &[&'n FragmentNames],
) -> Result<BTreeMap<&'n str, ()>, AllocError>
    ensures { IfOk result (λ entries. (name : Name)
        → is_some (entry_of entries name) ≡ define (map (λ f. as_fragments f.now) documents.now) name) }
{
    let mut entries: BTreeMap<&'n str, ()> = BTreeMap::new(alloc);
    for names in documents {
        enter_all(&mut entries, names.defined.as_slice())?;
    }
    Ok(entries)
}

// The names of the fragments that documents spread.
fn spread_names<'n>(
    alloc: Global,
    documents: &[&'n FragmentNames],
) -> Result<BTreeMap<&'n str, ()>, AllocError>
    ensures { IfOk result (λ entries. (name : Name)
        → is_some (entry_of entries name) ≡ spread (map (λ f. as_fragments f.now) documents.now) name) }
{
    let mut entries: BTreeMap<&'n str, ()> = BTreeMap::new(alloc);
    for names in documents {
        enter_all(&mut entries, names.spread.as_slice())?;
    }
    Ok(entries)
}

// Whether other documents mend a violation, by the names of the fragments that they define and spread.
fn is_mended<'t>(
    violation: &Violation<'t>,
    defined: &BTreeMap<&'t str, ()>,
    spread: &BTreeMap<&'t str, ()>,
) -> bool
    ensures { result ≡ mends (λ name. is_some (entry_of defined.now name)) (λ name. is_some (entry_of spread.now name))
        (as_breach violation.now) }
{
    let Some(name) = name_of_fragment(&violation.site.node) else {
        return false;
    };
    match violation.rule {
        Rule::KnownFragmentNames => is_entered(defined, name),
        Rule::NoUnusedFragments => is_entered(spread, name),
        _ => false,
    }
}

/// The violations that no other document mends, by the names of the fragments of these.
pub(crate) fn unmended<'t>(
    alloc: Global,
    violations: &[Violation<'t>],
    others: &[&'t FragmentNames],
) -> Result<Vec<Violation<'t>>, AllocError>
    ensures { IfOk result (λ kept. map as_breach kept.items
        ≡ filter (λ b. not (is_mended (map (λ f. as_fragments f.now) others.now) b)) (map as_breach violations.now)) }
{
    let defined = defined_names(alloc, others)?;
    let spread = spread_names(alloc, others)?;
    let mut kept = Vec::new(alloc);
    for violation in violations {
        if !is_mended(violation, &defined, &spread) {
            kept.push(*violation)?;
        }
    }
    Ok(kept)
}
