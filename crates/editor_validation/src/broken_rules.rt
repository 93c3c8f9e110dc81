// Broken rules as diagnostics on a document.
ghost use Rattle.std.specs.Prelude.{◌≡◌, IfOk, map};
ghost use Rattle.apollo_tree.specs.References.{node_place};
ghost use Rattle.validation_rules.specs.Violations.{as_breach};
ghost use Rattle.editor_diagnostics.specs.Diagnostics.{as_diagnosis};
ghost use Rattle.editor_validation.specs.Fragments.{as_fragments};
ghost use Rattle.editor_validation.specs.Diagnostics.{AreDiagnostics, marked, names, diagnostic_of, severity_of};

use crate::fragments::FragmentNames;
use crate::other_documents::unmended;
use apollo_tree::{SyntaxKind, SyntaxNode};
use document_validation::{Rule, Violation, message, validate};
use editor_diagnostics::{Diagnostic, Severity};
use std::alloc::{AllocError, Global};

// How many diagnostics on a document a client gets.
const MOST: usize = 100;

// Among how many violations those are that no other document mends.
const MOST_VIOLATIONS: usize = 10_000;

fn severity_of(rule: Rule) -> Severity
    ensures { result ≡ severity_of rule }
{
    match rule {
        Rule::ExecutableDefinitions
        | Rule::KnownFragmentNames
        | Rule::NoUnusedFragments
        | Rule::NoUnusedVariables => Severity::Warning,
        _ => Severity::Error,
    }
}

// Whether a node names its parent.
fn names(node: &SyntaxNode<'_>) -> bool
    ensures { result ≡ names (node_place node.now) }
{
    let kind = node.kind();
    kind.is(SyntaxKind::NAME)
        || kind.is(SyntaxKind::FRAGMENT_NAME)
        || kind.is(SyntaxKind::VARIABLE)
        || kind.is(SyntaxKind::ENUM_VALUE)
}

// The node that is marked for one: its name, if it has one.
fn marked<'t>(node: &SyntaxNode<'t>) -> SyntaxNode<'t>
    ensures { node_place result ≡ marked (node_place node.now) }
{
    if node.kind().is(SyntaxKind::VARIABLE) {
        return *node;
    }
    for child in node.children() {
        if names(&child) {
            return child;
        }
    }
    *node
}

fn diagnostic_of(alloc: Global, violation: &Violation<'_>) -> Result<Diagnostic, AllocError>
    ensures { IfOk result (λ diagnostic. as_diagnosis diagnostic ≡ diagnostic_of (as_breach violation.now)) }
{
    let range = marked(&violation.site.node).text_range();
    Ok(Diagnostic {
        start: range.start(),
        end: range.end(),
        code: violation.rule.name(),
        severity: severity_of(violation.rule),
        message: message(alloc, violation)?,
        open_brace: None,
    })
}

fn diagnostics_of(
    alloc: Global,
    violations: &[Violation<'_>],
) -> Result<Vec<Diagnostic>, AllocError>
    ensures { IfOk result (λ found. map as_diagnosis found.items ≡ map diagnostic_of (map as_breach violations.now)) }
{
    let mut found = Vec::new(alloc);
    for violation in violations {
        found.push(diagnostic_of(alloc, violation)?)?;
    }
    Ok(found)
}

/// One diagnostic for each place at which a document breaks a rule of validation and no other document mends that, by
/// the root of its tree and the fragments of the others; at most a hundred of them. It fails only where memory is
/// refused.
pub(crate) fn rule_diagnostics<'t>(
    alloc: Global,
    document: &SyntaxNode<'t>,
    others: &[&'t FragmentNames],
) -> Result<Vec<Diagnostic>, AllocError>
    ensures { IfOk result (λ found. AreDiagnostics (map (λ f. as_fragments f.now) others.now) (node_place document.now)
        (map as_diagnosis found.items)) }
{
    let violations = validate(alloc, &[*document], MOST_VIOLATIONS)?;
    let mut kept = unmended(alloc, violations.as_slice(), others)?;
    kept.truncate(MOST);
    let found = diagnostics_of(alloc, kept.as_slice())?;
    Ok(found)
}
