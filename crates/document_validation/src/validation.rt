// All rules on documents that are judged together.
ghost use Rattle.std.specs.Prelude.{◌≡◌, ℕ, ◌<◌, ◌≤◌, ◌↔◌, [], IfOk, IfSome, None, OnOk, Option, length, map};
ghost use Rattle.std.specs.Prelude.{option_map};
ghost use Rattle.std.specs.Prelude.{slice_index};
ghost use Rattle.apollo_tree.specs.References.{node_place};
ghost use Rattle.validation_names.specs.Definitions.{as_defined, defined, fragment_names, named_definitions};
ghost use Rattle.validation_names.specs.Names.{AreFirstNumbers};
ghost use Rattle.validation_names.specs.Sites.{as_located};
ghost use Rattle.validation_rules.specs.Parts.{as_parts, definitions as definitions_of, operations as operations_of};
ghost use Rattle.validation_rules.specs.Parts.{parts_in, site_at};
ghost use Rattle.validation_rules.specs.Broken.{repeats};
ghost use Rattle.validation_rules.specs.Violations.{Adds, as_breach};
ghost use Rattle.document_validation.specs.Breaches.{AreFound, AreValid, breaches, breaches_before};
ghost use Rattle.document_validation.specs.Validation.{AreDecided, AreValidIn, IsValidation, ValidationEndsAt};

use crate::lists::{add_foreign, add_lists};
use apollo_tree::SyntaxNode;
use std::alloc::{AllocError, Global};
use std::collections::BTreeMap;
use validation_names::{
    DefinitionKind, ExecutableDefinition, Site, definitions, fragments, named_definitions,
};
use validation_rules::{
    DefinitionParts, Rule, Selection, Violation, Violations, add_anonymous, add_cycles,
    add_repeats, add_undefined_spreads, add_unused_fragments, operations, part_at, parts,
    spread_graph,
};
use variable_rules::add_variables;

/// What a validation selects, and its limits.
#[derive(Clone, Copy)]
pub struct ValidationOptions {
    /// Which rules are judged, and which documents.
    pub selection: Selection,
    /// How many violations are listed at most.
    pub most: usize,
    /// How many steps the rules on variables may take (`variable_rules`), or `None` for as many as it takes.
    pub steps: Option<usize>,
}

/// What a validation found.
#[derive(Drop)]
pub struct Validation<'t> {
    /// The violations that are selected, in the order of the text.
    pub violations: Vec<Violation<'t>>,
    /// The operation before which the steps were used up. The variables of this one and of those after it were not
    /// judged. It is `None`, too, if the list is full.
    pub undecided: Option<Site<'t>>,
}

// Adds the definitions of a kind that have the name of an earlier one.
fn add_repeated_names<'t>(
    alloc: Global,
    violations: &mut Violations<'t>,
    rule: Rule,
    definitions: &[ExecutableDefinition<'t>],
    kind: DefinitionKind,
) -> Result<(), AllocError>
    ensures { OnOk result (Adds (repeats rule (named_definitions kind (map as_defined definitions.now)))
        violations.old violations.new) }
{
    let named = named_definitions(alloc, definitions, kind)?;
    add_repeats(alloc, violations, rule, &named)
}

// Adds what breaks a rule in some documents whose definitions are read. If the steps are used up, it answers before
// which operation, as a number among them.
fn add_all<'t>(
    alloc: Global,
    violations: &mut Violations<'t>,
    documents: &[SyntaxNode<'t>],
    definitions: &[ExecutableDefinition<'t>],
    parts: &[DefinitionParts<'t>],
    numbers: &[usize],
    steps: Option<usize>,
) -> Result<Option<usize>, AllocError>
    requires definitions { map as_defined definitions.now ≡ defined (map node_place documents.now) }
    requires parts { map as_parts parts.now ≡ parts_in (map node_place documents.now) }
    requires same { definitions_of (map as_parts parts.now) ≡ map as_defined definitions.now }
    requires numbers { numbers.now ≡ operations_of (map as_parts parts.now) }
    ensures adds { IfOk result (λ _. (end : Option ℕ) → ValidationEndsAt steps (map node_place documents.now) end
        → Adds (breaches_before end (map node_place documents.now)) violations.old violations.new) }
    ensures ended { IfOk result (λ ended_at. length violations.new.list.items < violations.new.most
        → ValidationEndsAt steps (map node_place documents.now) ended_at) }
    ensures full { IfOk result
        (λ ended_at. violations.new.most ≤ length violations.new.list.items → ended_at ≡ None) }
    ensures inside { IfOk result (λ ended_at. IfSome ended_at (λ number. number < length numbers.now)) }
{
    let fragments = fragments(alloc, definitions)?;
    let graph = spread_graph(alloc, parts, &fragments)?;
    add_foreign(violations, documents)?;
    let (rule, kind) = (Rule::UniqueOperationNames, DefinitionKind::Operation);
    add_repeated_names(alloc, violations, rule, definitions, kind)?;
    add_anonymous(violations, parts, numbers)?;
    add_lists(alloc, violations, documents)?;
    let (rule, kind) = (Rule::UniqueFragmentNames, DefinitionKind::Fragment);
    add_repeated_names(alloc, violations, rule, definitions, kind)?;
    add_unused_fragments(alloc, violations, parts, &graph, numbers)?;
    add_undefined_spreads(violations, parts, &fragments)?;
    add_cycles(alloc, violations, parts, &graph)?;
    let ended_at = add_variables(alloc, violations, parts, &graph, numbers, steps)?;
    Ok(ended_at)
}

// The operation with a number among the operations.
fn operation_site<'t>(
    parts: &[DefinitionParts<'t>],
    numbers: &[usize],
    ended_at: Option<usize>,
) -> Option<Site<'t>>
    requires numbers { numbers.now ≡ operations_of (map as_parts parts.now) }
    requires inside { IfSome ended_at (λ number. number < length numbers.now) }
    ensures { option_map as_located result
        ≡ option_map (λ number. site_at (map as_parts parts.now) (slice_index numbers.now number)) ended_at }
{
    let number = numbers[ended_at?];
    Some(part_at(parts, number).definition.site)
}

/// The places at which documents that are judged together break a rule, by the roots of their trees: those of the rules
/// and in the documents that are selected, no more than a number of them, each once, in the order of the text. If
/// there are fewer, they are all.
///
/// Operations, fragments and variables are those of all documents together. A document that has definitions, but
/// neither an operation nor a fragment, is judged as one of the type system: by the names that are defined, mentioned
/// or given twice in one list. Other rules of section 3 are not judged.
///
/// The rules on variables (sections 5.8.3 and 5.8.4) take steps, and end where these are used up. The documents keep
/// the rules that are selected, and this is decided within the steps, exactly if nothing is found and no operation is
/// undecided. It fails only where memory is refused.
pub fn validate_with<'t>(
    alloc: Global,
    documents: &[SyntaxNode<'t>],
    options: &ValidationOptions,
) -> Result<Validation<'t>, AllocError>
    ensures exact { IfOk result (λ validation.
        IsValidation options.now (map node_place documents.now) validation) }
    ensures valid { IfOk result (λ validation. 0 < options.now.most
        → (((validation.violations.items ≡ []) × (validation.undecided ≡ None))
        ↔ (AreValidIn options.now.selection (map node_place documents.now)
        × AreDecided options.now.steps (map node_place documents.now)))) }
{
    let mut violations = Violations::new(alloc, options.most, options.selection);
    let definitions = definitions(alloc, documents)?;
    let parts = parts(alloc, &definitions)?;
    let numbers = operations(alloc, &parts)?;
    let steps = options.steps;
    let ended_at = add_all(
        alloc,
        &mut violations,
        documents,
        &definitions,
        &parts,
        &numbers,
        steps,
    )?;
    let undecided = operation_site(&parts, &numbers, ended_at);
    let violations = violations.into_text_order()?;
    Ok(Validation {
        violations,
        undecided,
    })
}

/// The same of all rules and in all documents, in as many steps as it takes: no more than `most` places. There are none
/// exactly if the documents keep all rules.
pub fn validate<'t>(
    alloc: Global,
    documents: &[SyntaxNode<'t>],
    most: usize,
) -> Result<Vec<Violation<'t>>, AllocError>
    ensures exact { IfOk result
        (λ found. AreFound most (breaches (map node_place documents.now)) (map as_breach found.items)) }
    ensures valid { IfOk result (λ found. 0 < most → ((found.items ≡ []) ↔ AreValid (map node_place documents.now))) }
{
    let options = ValidationOptions {
        selection: Selection::everything(),
        most,
        steps: None,
    };
    let validation = validate_with(alloc, documents, &options)?;
    Ok(validation.violations)
}
